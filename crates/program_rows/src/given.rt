//! What a command gave, beside what is expected.
use crate::texts::Texts;
use std::alloc::{AllocError, Global};

/// What a command gave: its status and its outputs, the files that were asked for, the hosts of its machines, and the calls that
/// its scripts got.
#[derive(Drop)]
pub(crate) struct Given {
    pub(crate) status: u8,
    pub(crate) out: Vec<u8>,
    pub(crate) err: Vec<u8>,
    pub(crate) asked: Vec<u8>,
    pub(crate) hosts: Vec<u8>,
    pub(crate) calls: Vec<u8>,
}

impl Given {
    /// Whether all is as expected; the calls of scripts are these.
    pub(crate) fn is_wanted(&self, status: u8, wanted: &Texts, calls: &[u8]) -> bool {
        self.status == status
            && self.out.as_slice() == wanted.find("out").unwrap_or(b"")
            && self.is_told(wanted)
            && is_any(wanted, "asked", self.asked.as_slice())
            && is_any(wanted, "hosts", self.hosts.as_slice())
            && self.calls.as_slice() == calls
    }

    // Its line is the one that is expected, or the other one.
    fn is_told(&self, wanted: &Texts) -> bool {
        let err = self.err.as_slice();
        err == wanted.find("err").unwrap_or(b"") || wanted.find("or") == Some(err)
    }

    /// Tells all of it.
    pub(crate) fn tell(&self, alloc: Global, words: &str) -> Result<Vec<u8>, AllocError> {
        let status = self.status;
        let mut told = format!(in alloc; "wrong: {words}\nstatus {status}\n")?.into_bytes();
        tell_part(&mut told, b"out\n", self.out.as_slice())?;
        tell_part(&mut told, b"err\n", self.err.as_slice())?;
        tell_part(&mut told, b"asked\n", self.asked.as_slice())?;
        tell_part(&mut told, b"hosts\n", self.hosts.as_slice())?;
        tell_part(&mut told, b"calls\n", self.calls.as_slice())?;
        Ok(told)
    }
}

// A text is what is expected by a name, where anything is.
fn is_any(wanted: &Texts, name: &str, text: &[u8]) -> bool {
    match wanted.find(name) {
        Some(wanted) => wanted == text,
        None => true,
    }
}

fn tell_part(told: &mut Vec<u8>, name: &[u8], text: &[u8]) -> Result<(), AllocError> {
    told.extend_from_slice(name)?;
    told.extend_from_slice(text)
}
