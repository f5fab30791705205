//! Texts by their names, which are written piece by piece.
use std::alloc::{AllocError, Global};

/// A file by its path, or what is expected of an output by its name.
#[derive(Drop)]
pub(crate) struct Text {
    pub(crate) name: String,
    pub(crate) bytes: Vec<u8>,
}

impl Text {
    pub(crate) fn new(alloc: Global, name: &str, text: &str) -> Result<Text, AllocError> {
        Ok(Text {
            name: String::from_str(alloc, name)?,
            bytes: text.as_bytes().to_vec(alloc)?,
        })
    }

    /// Goes on with a text so many times, where `#` is the number of the time from 0, and `|` a line feed.
    fn repeat(&mut self, alloc: Global, count: u64, text: &str) -> Result<(), AllocError> {
        for at in 0..count {
            self.push_numbered(alloc, at, text)?;
        }
        Ok(())
    }

    fn push_numbered(&mut self, alloc: Global, at: u64, text: &str) -> Result<(), AllocError> {
        for byte in text.as_bytes() {
            match *byte {
                b'#' => self.push_number(alloc, at)?,
                b'|' => self.bytes.push(b'\n')?,
                byte => self.bytes.push(byte)?,
            }
        }
        Ok(())
    }

    fn push_number(&mut self, alloc: Global, number: u64) -> Result<(), AllocError> {
        self.bytes
            .extend_from_slice(format!(in alloc; "{number}")?.as_bytes())
    }
}

/// Texts in the order in which they were begun. Of several with one name the last counts.
#[derive(Drop)]
pub(crate) struct Texts {
    pub(crate) list: Vec<Text>,
}

impl Texts {
    pub(crate) fn new(alloc: Global) -> Texts {
        Texts {
            list: Vec::new(alloc),
        }
    }

    /// Begins a text.
    pub(crate) fn begin(
        &mut self,
        alloc: Global,
        name: &str,
        text: &str,
    ) -> Result<(), AllocError> {
        let text = Text::new(alloc, name, text)?;
        self.list.push(text)?;
        Ok(())
    }

    /// Goes on with the last text. There has to be one.
    pub(crate) fn push(&mut self, text: &str) -> Result<bool, AllocError> {
        match self.list.last_mut() {
            Some(last) => {
                last.bytes.extend_from_slice(text.as_bytes())?;
                Ok(true)
            }
            None => Ok(false),
        }
    }

    /// Goes on with the last text, so many times.
    pub(crate) fn repeat(
        &mut self,
        alloc: Global,
        count: u64,
        text: &str,
    ) -> Result<bool, AllocError> {
        match self.list.last_mut() {
            Some(last) => {
                last.repeat(alloc, count, text)?;
                Ok(true)
            }
            None => Ok(false),
        }
    }

    /// Goes on with the last text by one byte.
    pub(crate) fn push_byte(&mut self, byte: u8) -> Result<bool, AllocError> {
        match self.list.last_mut() {
            Some(last) => {
                last.bytes.push(byte)?;
                Ok(true)
            }
            None => Ok(false),
        }
    }

    /// The last text with a name.
    pub(crate) fn find(&self, name: &str) -> Option<&[u8]> {
        let mut found = None;
        for text in &self.list {
            if text.name.as_str() == name {
                found = Some(text.bytes.as_slice());
            }
        }
        found
    }
}
