ghost use Rattle.std.specs.Prelude.{◌≡◌, ◌↔◌, List, ℕ, Option, Some, IfSome, option_map, Contains};
ghost use Rattle.sim_base.specs.Folder.{KeepsLimit, NotesRead, Reads, file_at};
ghost use Rattle.sim_base.specs.ReadNotes.{told_answer};

use crate::items::is_listed;
use crate::{Items, ReadBook, SharedBytes, Text};
use std::alloc::Global;
use thiserror::Error;

/// Why a file wasn't read. A length is in bytes.
#[derive(Clone, Copy, Debug, Drop, Error, PartialEq, Eq)]
pub enum ReadFault {
    #[error("the read failed")]
    Failed,
    #[error("there is no such file")]
    Missing,
    #[error("the file has {length} bytes")]
    TooBig { length: u64 },
    #[error("no memory is left")]
    Memory,
}

/// A map from paths to bytes, which a read leaves as it is.
pub trait Folder {
    ghost use Rattle.sim_base.specs.Folder.{FolderView};

    /// What it tells: the bytes at each path, if it tells them, and each read with its answer.
    ghost view: { Self → FolderView };

    /// Reads the whole file at a path, of at most `limit` bytes.
    fn read(&mut self, alloc: Global, path: &str, limit: u64) -> Result<SharedBytes, ReadFault>
        ensures reads { IfSome (view self.old).files (λ at. Reads (at path.now) limit result) }
        ensures within { KeepsLimit limit result }
        ensures noted { NotesRead (view self.old) (view self.new) path.now result };
}

/// A file in memory.
#[derive(Debug, Drop)]
pub struct MemFile {
    pub path: Text,
    pub bytes: Items<u8>,
}

/// A folder in memory. The reads whose numbers, counted from 0, are in `failing` fail, and no others.
#[derive(Debug, Drop)]
pub struct MemFolder {
    pub files: Items<MemFile>,
    pub failing: Items<u64>,
    pub reads: u64,
    pub book: ReadBook,
}

impl MemFolder {
    ghost use Rattle.std.specs.Prelude.{[]};

    /// A folder of these files, before its first read.
    pub fn new(alloc: Global, files: Vec<MemFile>, failing: Vec<u64>) -> MemFolder
        ensures files { result.files ≡ files.items }
        ensures failing { result.failing ≡ failing.items }
        ensures quiet { (result.reads ≡ 0) × (result.book.reads ≡ []) × (result.book.faults ≡ 0) }
    {
        MemFolder {
            files: Items::from_vec(files),
            failing: Items::from_vec(failing),
            reads: 0,
            book: ReadBook::new(alloc),
        }
    }
}

fn find<'a>(files: &'a [MemFile], path: &str) -> Option<&'a MemFile>
    ensures { file_at files.now path.now ≡ option_map (λ file. file.now.bytes) result }
{
    for file in files {
        if file.path.as_str() == path {
            return Some(file);
        }
    }
    None
}

impl Folder for MemFolder {
    ghost use Rattle.std.specs.Prelude.{◌+◌, ◌-◌, ◌^◌, ◌⊎◌, min, Err};
    ghost use Rattle.sim_base.specs.Folder.{folder_view};
    ghost use Rattle.sim_base.specs.declared.folder.ReadFault.TheVariants.{Failed, Memory};

    ghost view = { λ f. folder_view (Some (file_at f.files)) f.book };

    fn read(&mut self, alloc: Global, path: &str, limit: u64) -> Result<SharedBytes, ReadFault>
        ensures reads { Reads (file_at self.old.files path.now) limit result }
        ensures within { KeepsLimit limit result }
        ensures noted { NotesRead (folder_view (Some (file_at self.old.files)) self.old.book)
            (folder_view (Some (file_at self.new.files)) self.new.book) path.now result }
        ensures kept { (self.new.files ≡ self.old.files) × (self.new.failing ≡ self.old.failing) }
        ensures counted { self.new.reads ≡ min (self.old.reads + 1) (2 ^ 64 - 1) }
        ensures failed { result ≡ Err Failed → Contains self.old.failing self.old.reads }
        ensures failing { Contains self.old.failing self.old.reads → (result ≡ Err Failed) ⊎
            (result ≡ Err Memory) }
    {
        let is_failing = is_listed(self.failing.as_slice(), self.reads);
        self.reads = self.reads.saturating_add(1);
        let Ok(()) = self.book.ask(alloc, path) else {
            return Err(ReadFault::Memory);
        };
        let answer = if is_failing {
            Err(ReadFault::Failed)
        } else {
            read_from(alloc, self.files.as_slice(), path, limit)
        };
        self.book.answer(alloc, answer)
    }
}

fn read_from(alloc: Global, files: &[MemFile], path: &str, limit: u64) -> Result<Vec<u8>, ReadFault>
    ensures reads { Reads (file_at files.now path.now) limit (told_answer result) }
    ensures within { KeepsLimit limit (told_answer result) }
    ensures succeeds { result ≡ Err ReadFault.Failed → ⊥ }
{
    let Some(file) = find(files, path) else {
        return Err(ReadFault::Missing);
    };
    let length = file.bytes.len() as u64;
    if length > limit {
        return Err(ReadFault::TooBig { length });
    }
    match file.bytes.as_slice().to_vec(alloc) {
        Ok(bytes) => Ok(bytes),
        Err(_) => Err(ReadFault::Memory),
    }
}
