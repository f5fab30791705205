//! A folder and a sink in memory, and the notes of a folder.
ghost use Rattle.std.specs.Prelude.{◌≡◌, ◌↔◌, ◌⊎◌, ◌+◌, ◌-◌, ◌^◌, ◌<◌, ◌≤◌, min, Some, OnErr, IsErr, Err, Contains, length};
ghost use Rattle.sim_base.specs.Folder.{KeepsLimit, NotesRead, Reads, file_at, folder_view};
ghost use Rattle.sim_base.specs.MemSink.{mem_view};
ghost use Rattle.sim_base.specs.ReadNotes.{faults_after, told_answer, with_last};
ghost use Rattle.sim_base.specs.Sink.{NotesPut};
ghost use Rattle.sim_base.specs.declared.folder.ReadFault.TheVariants as ReadFault;

use sim_base::{Folder, MemFolder, MemSink, ReadBook, ReadFault, SharedBytes, Sink, SinkFault};
use std::alloc::Global;

/// Notes the answer to what was asked for last, and hands it on.
pub fn hand_on(
    book: &mut ReadBook,
    alloc: Global,
    answer: Result<Vec<u8>, ReadFault>,
) -> Result<SharedBytes, ReadFault>
    requires { 0 < length book.old.reads }
    ensures reads { book.new.reads ≡ with_last book.old.reads result }
    ensures faults { book.new.faults ≡ faults_after book.old.faults result }
    ensures same { (result ≡ told_answer answer) ⊎ (result ≡ Err ReadFault.Memory) }
{
    book.answer(alloc, answer)
}

/// Reads the whole file at a path of a folder in memory, of at most `limit` bytes.
pub fn read_in_memory(
    folder: &mut MemFolder,
    alloc: Global,
    path: &str,
    limit: u64,
) -> Result<SharedBytes, ReadFault>
    ensures reads { Reads (file_at folder.old.files path.now) limit result }
    ensures within { KeepsLimit limit result }
    ensures noted { NotesRead (folder_view (Some (file_at folder.old.files)) folder.old.book)
        (folder_view (Some (file_at folder.new.files)) folder.new.book) path.now result }
    ensures kept { (folder.new.files ≡ folder.old.files) × (folder.new.failing
        ≡ folder.old.failing) }
    ensures counted { folder.new.reads ≡ min (folder.old.reads + 1) (2 ^ 64 - 1) }
    ensures failed { result ≡ Err ReadFault.Failed → Contains folder.old.failing folder.old.reads }
    ensures failing { Contains folder.old.failing folder.old.reads →
        (result ≡ Err ReadFault.Failed) ⊎ (result ≡ Err ReadFault.Memory) }
{
    folder.read(alloc, path, limit)
}

/// Adds all of the bytes to a sink in memory as one piece.
pub fn put_in_memory(sink: &mut MemSink, bytes: &[u8]) -> Result<(), SinkFault>
    ensures noted { NotesPut (mem_view sink.old) (mem_view sink.new) bytes.now result }
    ensures kept { (sink.new.room ≡ sink.old.room) × (sink.new.most_puts ≡ sink.old.most_puts) ×
        (sink.new.failing ≡ sink.old.failing) }
    ensures counted { sink.new.puts ≡ min (sink.old.puts + 1) (2 ^ 64 - 1) }
    ensures exact { IsErr result ↔ (Contains sink.old.failing sink.old.puts
        ⊎ (sink.old.room < length sink.old.bytes.items + length bytes.now)
        ⊎ (sink.old.most_puts ≤ length sink.old.lengths.items)) }
    ensures full { OnErr result (sink.new.bytes.items ≡ sink.old.bytes.items) }
{
    sink.put(bytes)
}
