ghost use Rattle.std.specs.Prelude.{◌≡◌, ◌≤◌, ◌^◌, IsTrue, [], false, length, option_map, vec_capacity};
ghost use Rattle.fmi_calls.specs.Permission.{Permitted};
ghost use Rattle.bench_fmus.specs.Answers.{answer_at, bytes_after_answer, calls_in, followed, outlasts};

use crate::Origin;
use fmi_calls::{Call, Content, Phase, Reply};
use fmu_peer::{Exchange, Peer, PeerFault, TalkBook, TalkRoom};
use sim_base::Items;
use value_types::Shape;

// How many bytes a state may have.
const MOST_BYTES: usize = 1 << 20;

/// A peer that gives the answers of a list, one for each call in turn. Past the list's end it fails.
#[derive(Debug, Drop)]
pub struct Script {
    pub book: TalkBook,
    pub origin: Origin,
    pub answers: Items<Result<Reply, PeerFault>>,
    ghost outlasts: { IsTrue (outlasts book.talk answers) },
}

impl Script {
    ghost use Rattle.bench_fmus.specs.ScriptView.{script_view};

    /// The exchanges so far.
    pub fn talk(&self) -> Option<&[Exchange]>
        ensures { option_map (λ es. es.now) result ≡ (script_view self.now).talk }
    {
        match &self.book.talk {
            Some(talk) => Some(talk.exchanges.as_slice()),
            None => None,
        }
    }
}

fn answer_at(answers: &[Result<Reply, PeerFault>], place: usize) -> Result<Reply, PeerFault>
    ensures { result ≡ answer_at answers.now place }
{
    answers
        .get(place)
        .copied()
        .unwrap_or(Err(PeerFault::Failed))
}

fn calls_in(talk: &Option<TalkRoom>) -> usize
    ensures { result ≡ calls_in talk.now }
{
    match talk {
        Some(talk) => talk.exchanges.len(),
        None => 0,
    }
}

// How many bytes follow an answer to Serialize.
fn bytes_after(answer: &Result<Reply, PeerFault>) -> usize
    ensures { result ≡ bytes_after_answer answer.now }
{
    match answer {
        Ok(
            Reply::Done {
                content: Content::Serialize { length },
                ..
            },
        ) => *length as usize,
        _ => 0,
    }
}

// An answer that tells of more than 2^20 bytes is none.
fn followed(answer: Result<Reply, PeerFault>) -> Result<Reply, PeerFault>
    ensures is { result ≡ followed answer }
    ensures few { bytes_after_answer result ≤ 2 ^ 20 }
{
    if bytes_after(&answer) <= MOST_BYTES {
        answer
    } else {
        Err(PeerFault::Failed)
    }
}

impl Peer for Script {
    ghost use Rattle.fmi_calls.specs.declared.call.Call.{Call};
    ghost use Rattle.fmu_peer.specs.View.{Asked, AskedWith, IsDeserialize, Serializes, carries_bytes};
    ghost use Rattle.bench_fmus.specs.ScriptView.{script_view};

    ghost view = { script_view };

    ghost machine = { λ s. tt };

    ghost in_phase = { λ s. tt };

    ghost ignores_slot = { λ s. tt };

    ghost unpacks = { λ s. tt };

    ghost lawful = { λ s. tt };

    fn shape(&self) -> &Shape {
        &self.book.shape
    }

    fn phase(&self) -> &Phase {
        &self.book.phase
    }

    fn call(&mut self, call: &Call) -> Result<Reply, PeerFault>
        requires permitted { Permitted self.old.book.shape self.old.book.phase call.now }
        requires plain { carries_bytes call.now ≡ false }
        ensures asked { Asked (script_view self.old) call.now result (script_view self.new) }
        ensures answers { result ≡ answer_at self.old.answers (calls_in self.old.book.talk) }
        ensures list { self.new.answers ≡ self.old.answers }
    {
        let answer = answer_at(self.answers.as_slice(), calls_in(&self.book.talk));
        self.book.keep(call, answer)
    }

    // The bytes that follow an answer are 0.
    fn serialize(&mut self, into: &mut Vec<u8>) -> Result<Reply, PeerFault>
        requires permitted { Permitted self.old.book.shape self.old.book.phase Call.Serialize }
        requires empty { into.old.items ≡ [] }
        requires room { 2 ^ 20 ≤ vec_capacity into.old }
        ensures asked { Asked (script_view self.old) Call.Serialize result (script_view self.new) }
        ensures bytes { Serializes (script_view self.old) result into.new.items }
        ensures room { vec_capacity into.old ≤ vec_capacity into.new }
        ensures answers { result ≡ followed
            (answer_at self.old.answers (calls_in self.old.book.talk)) }
        ensures list { self.new.answers ≡ self.old.answers }
    {
        let given = answer_at(self.answers.as_slice(), calls_in(&self.book.talk));
        let answer = followed(given);
        into.resize(bytes_after(&answer), 0).unwrap();
        self.book.keep(&Call::Serialize, answer)
    }

    fn deserialize(&mut self, call: &Call, bytes: &[u8]) -> Result<Reply, PeerFault>
        requires permitted { Permitted self.old.book.shape self.old.book.phase call.now }
        requires length { IsDeserialize call.now (length bytes.now) }
        ensures asked { AskedWith (script_view self.old) call.now bytes.now result
            (script_view self.new) }
        ensures answers { result ≡ answer_at self.old.answers (calls_in self.old.book.talk) }
        ensures list { self.new.answers ≡ self.old.answers }
    {
        let answer = answer_at(self.answers.as_slice(), calls_in(&self.book.talk));
        self.book.keep(call, answer)
    }
}
