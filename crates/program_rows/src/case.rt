//! A command with its files, with what is to fail, and with what it is to give.
use crate::course::{Bad, Course};
use crate::exchanges::Exchanges;
use crate::texts::Texts;
use bench_fmus::FailingCall;
use sim_base::{Items, MemFile, MemFolder, Text};
use std::alloc::{AllocError, Global};

/// The numbers, from 0, of the reads, the starts and the puts that are to fail, and the call of a machine that is.
#[derive(Drop)]
pub(crate) struct Failing {
    pub(crate) reads: Vec<u64>,
    pub(crate) starts: Vec<u64>,
    pub(crate) call: Option<FailingCall>,
    pub(crate) outs: Vec<u64>,
    pub(crate) errs: Vec<u64>,
}

impl Failing {
    fn new(alloc: Global) -> Failing {
        Failing {
            reads: Vec::new(alloc),
            starts: Vec::new(alloc),
            call: None,
            outs: Vec::new(alloc),
            errs: Vec::new(alloc),
        }
    }

    /// `read NUMBER`, `start NUMBER`, `out NUMBER` or `err NUMBER`.
    pub(crate) fn add(&mut self, line: &str) -> Result<bool, AllocError> {
        let (what, number) = line.split_once(' ').unwrap_or((line, ""));
        let Ok(number) = number.parse::<u64>() else {
            return Ok(false);
        };
        match what {
            "read" => self.reads.push(number)?,
            "start" => self.starts.push(number)?,
            "out" => self.outs.push(number)?,
            "err" => self.errs.push(number)?,
            _ => return Ok(false),
        }
        Ok(true)
    }
}

/// A wire behind which the FMUs stand: the bytes that come and those that are to be sent, as hexadecimal digits, and the number from 0
/// of the send or receive that fails.
#[derive(Drop)]
pub(crate) struct Line {
    pub(crate) coming: String,
    pub(crate) sent: String,
    pub(crate) failing: Option<u64>,
}

/// A command.
#[derive(Drop)]
pub(crate) struct Case {
    /// The words of its line, between bars.
    pub(crate) words: String,
    /// Its files, and what is expected.
    pub(crate) texts: Texts,
    /// Whether it has no file but its own.
    pub(crate) is_bare: bool,
    pub(crate) failing: Failing,
    /// How many calls each built-in machine takes.
    pub(crate) room: Option<usize>,
    /// Scripts stand in place of machines.
    pub(crate) is_scripted: bool,
    pub(crate) line: Option<Line>,
    /// How many peers are taken back whose calls are told, and their exchanges.
    pub(crate) peers: Option<usize>,
    pub(crate) exchanges: Exchanges,
    pub(crate) status: u8,
}

impl Case {
    pub(crate) fn new(alloc: Global) -> Case {
        Case {
            words: String::new(alloc),
            texts: Texts::new(alloc),
            is_bare: false,
            failing: Failing::new(alloc),
            room: None,
            is_scripted: false,
            line: None,
            peers: None,
            exchanges: Exchanges::new(alloc),
            status: 0,
        }
    }

    pub(crate) fn take_words(&mut self, alloc: Global, words: &str) -> Result<bool, AllocError> {
        self.words = String::from_str(alloc, words)?;
        Ok(true)
    }

    /// The words of its line.
    pub(crate) fn split_words(&self, alloc: Global) -> Result<Vec<String>, AllocError> {
        let mut words = Vec::new(alloc);
        for word in self.words.as_str().split('|') {
            words.push(String::from_str(alloc, word)?)?;
        }
        Ok(words)
    }

    /// The calls that its peers are to get, or nothing where they aren't told.
    pub(crate) fn calls(&self, alloc: Global) -> Result<Vec<u8>, AllocError> {
        if let Some(line) = &self.line {
            return line.sent.as_bytes().to_vec(alloc);
        }
        match self.peers {
            Some(count) => self.exchanges.calls(alloc, count),
            None => Ok(Vec::new(alloc)),
        }
    }

    /// Wants what has to follow where the call of a run with this number gets another answer; `whole` is the trace of the run.
    pub(crate) fn want_bad(
        &mut self,
        alloc: Global,
        course: &Course,
        number: usize,
        bad: Bad<'_>,
        answer: &str,
        whole: &str,
    ) -> Result<(), AllocError> {
        self.exchanges = course.with_answer(alloc, number, bad, answer)?;
        self.failing.call = Some(FailingCall {
            start: bad.component as u64,
            call: bad.earlier,
        });
        if bad.is_in_closing {
            self.status = 0;
            self.texts.begin(alloc, "err", "")?;
            return self.texts.begin(alloc, "out", whole);
        }
        self.status = if answer == "lost" { 5 } else { 6 };
        let line = course.line(alloc, bad, answer)?;
        self.texts.begin(alloc, "err", line.as_str())?;
        self.texts.push("\n")?;
        let out = course.put_until(alloc, number, whole)?;
        self.texts.begin(alloc, "out", out.as_str())
    }

    /// Runs over a wire.
    pub(crate) fn go_over_wire(&mut self, coming: String, sent: String, failing: Option<u64>) {
        self.line = Some(Line {
            coming,
            sent,
            failing,
        });
    }

    /// Its folder: its own files, and then those that it shares with others.
    pub(crate) fn folder(&self, alloc: Global, shared: &Texts) -> Result<MemFolder, AllocError> {
        let mut files = Vec::new(alloc);
        add_files(alloc, &self.texts, &mut files)?;
        if !self.is_bare {
            add_files(alloc, shared, &mut files)?;
        }
        let failing = self.failing.reads.as_slice().to_vec(alloc)?;
        Ok(MemFolder::new(alloc, files, failing))
    }
}

fn add_files(alloc: Global, texts: &Texts, files: &mut Vec<MemFile>) -> Result<(), AllocError> {
    for text in &texts.list {
        if is_path(text.name.as_str()) {
            files.push(file_of(alloc, text.name.as_str(), text.bytes.as_slice())?)?;
        }
    }
    Ok(())
}

// What is expected has a name of these.
fn is_path(name: &str) -> bool {
    !matches!(name, "out" | "err" | "or" | "asked" | "hosts")
}

fn file_of(alloc: Global, path: &str, bytes: &[u8]) -> Result<MemFile, AllocError> {
    Ok(MemFile {
        path: Text::from_str(alloc, path)?,
        bytes: Items::from_vec(bytes.to_vec(alloc)?),
    })
}
