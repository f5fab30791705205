ghost use Rattle.std.specs.Prelude.{◌≡◌, ◌⊎◌, ◌<◌, ◌++◌, [], ◌∷◌, OnOk, OnErr, IfOk, Err, length};
ghost use Rattle.sim_base.specs.ReadNotes.{faults_after, read_of, told_answer, with_last};

use crate::{ReadFault, SharedBytes, Text};
use std::alloc::{AllocError, Global};
use std::marker::Model;

/// A read: the path that was asked for, and what it answered.
#[derive(Debug, Drop)]
pub struct ReadNote {
    pub path: Text,
    pub answer: Result<SharedBytes, ReadFault>,
}

/// What a folder notes of its reads: each with its answer, the newest last; and how often one has failed.
#[derive(Debug, Drop)]
pub struct ReadBook {
    reads: Vec<ReadNote>,
    faults: u64,
}

impl Model for ReadBook {
    ghost use Rattle.sim_base.specs.ReadNotes.{ReadNotes};

    ghost Value = { ReadNotes };

    ghost view = { λ b. record { reads = b.reads.items; faults = b.faults } };

    ghost invariant = { λ b. Unit {0} };
}

impl ReadBook {
    /// A book before the first read. It allocates no memory.
    pub fn new(alloc: Global) -> ReadBook
        ensures reads { result.reads ≡ [] }
        ensures quiet { result.faults ≡ 0 }
    {
        ReadBook {
            reads: Vec::new(alloc),
            faults: 0,
        }
    }

    /// Notes that a path is asked for, before there is an answer.
    pub fn ask(&mut self, alloc: Global, path: &str) -> Result<(), AllocError>
        ensures ok { OnOk result (self.new ≡ record self.old {
          reads = self.old.reads ++ read_of path.now (Err ReadFault.Memory) ∷ [];
        }) }
        ensures err { OnErr result (self.new ≡ self.old) }
    {
        let path = Text::from_str(alloc, path)?;
        self.reads.push(ReadNote {
            path,
            answer: Err(ReadFault::Memory),
        })?;
        Ok(())
    }

    /// Notes the answer to what was asked for last, and hands it on; or that there is no memory to note it. The bytes aren't
    /// copied: the note has a share in them.
    pub fn answer(
        &mut self,
        alloc: Global,
        answer: Result<Vec<u8>, ReadFault>,
    ) -> Result<SharedBytes, ReadFault>
        requires { 0 < length self.old.reads }
        ensures reads { self.new.reads ≡ with_last self.old.reads result }
        ensures faults { self.new.faults ≡ faults_after self.old.faults result }
        ensures same { (result ≡ told_answer answer) ⊎ (result ≡ Err ReadFault.Memory) }
    {
        let Some(last) = self.reads.pop() else {
            unreachable!()
        };
        let (result, note) = shared(alloc, answer);
        self.reads.push_reserved(answered(last, note));
        self.faults = counted(self.faults, &result);
        result
    }

    /// The reads, the newest last.
    pub fn reads(&self) -> &[ReadNote]
        ensures { result.now ≡ self.now.reads }
    {
        self.reads.as_slice()
    }

    /// How often a read has failed. The count stands still at its last value.
    pub fn faults(&self) -> u64
        ensures { result ≡ self.now.faults }
    {
        self.faults
    }
}

// The count of failed reads after an answer.
fn counted(faults: u64, answer: &Result<SharedBytes, ReadFault>) -> u64
    ensures { result ≡ faults_after faults answer.now }
{
    match answer {
        Err(ReadFault::Failed) => faults.saturating_add(1),
        _ => faults,
    }
}

// The read with this answer.
fn answered(read: ReadNote, answer: Result<SharedBytes, ReadFault>) -> ReadNote
    ensures { result ≡ record read { answer = answer } }
{
    ReadNote {
        path: read.path,
        answer,
    }
}

// An answer and its note, which share the bytes; or that there is no memory for them.
fn shared(
    alloc: Global,
    answer: Result<Vec<u8>, ReadFault>,
) -> (
    Result<SharedBytes, ReadFault>,
    Result<SharedBytes, ReadFault>,
)
    ensures note { result.1 ≡ result.0 }
    ensures same { (result.0 ≡ told_answer answer) ⊎ (result.0 ≡ Err ReadFault.Memory) }
{
    match answer {
        Ok(bytes) => match two_shares(alloc, bytes) {
            Ok((one, other)) => (Ok(one), Ok(other)),
            Err(_) => (Err(ReadFault::Memory), Err(ReadFault::Memory)),
        },
        Err(fault) => (Err(fault), Err(fault)),
    }
}

fn two_shares(alloc: Global, bytes: Vec<u8>) -> Result<(SharedBytes, SharedBytes), AllocError>
    ensures { IfOk result (λ shares. (shares.0 ≡ bytes.items) × (shares.1 ≡ bytes.items)) }
{
    let one = SharedBytes::new(alloc, bytes)?;
    let other = one.share()?;
    Ok((one, other))
}
