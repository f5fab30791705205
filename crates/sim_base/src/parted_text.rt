ghost use Rattle.std.specs.Prelude.{◌≡◌, ◌↔◌, ◌<◌, ◌^◌, ◌++◌, ◌+◌, [], None, IfOk, IfSome, IsTrue, OnOk, length};

use crate::Text;
use std::alloc::{AllocError, Global};
use std::marker::Model;
use std::sync::Arc;

/// A text in parts, one after another, as a full name has that of the element around it. Texts that begin alike share what they
/// begin with, which stands in memory once. A clause sees the whole text.
#[derive(Debug, Drop)]
pub struct PartedText {
    parts: Vec<Arc<Text, Global>>,
    /// how many bytes they have together
    len: usize,
}

impl Model for PartedText {
    ghost use Rattle.std.specs.Prelude.{◌≡◌, List, ℕ, length};
    ghost use Rattle.sim_base.specs.Parted.{whole};

    ghost Value = { List ℕ };

    ghost view = { λ t. whole t.parts.items };

    ghost invariant = { λ t. t.len ≡ length (whole t.parts.items) };
}

impl PartedText {
    /// The empty text. It allocates no memory.
    pub fn new(alloc: Global) -> PartedText
        ensures { result ≡ [] }
    {
        PartedText {
            parts: Vec::new(alloc),
            len: 0,
        }
    }

    /// A text of one part.
    pub fn from_text(alloc: Global, text: Text) -> Result<PartedText, AllocError>
        ensures { IfOk result (λ t. t ≡ text) }
    {
        let mut whole = PartedText::new(alloc);
        whole.push(alloc, text)?;
        Ok(whole)
    }

    /// Puts a text behind this one, which isn't to be used where memory is lacking.
    pub fn push(&mut self, alloc: Global, text: Text) -> Result<(), AllocError>
        ensures { OnOk result (self.new ≡ self.old ++ text) }
    {
        self.push_shared(Arc::new(alloc, text)?)
    }

    /// Puts a text behind this one, whose parts both share then. This one isn't to be used where memory is lacking.
    pub fn append(&mut self, other: &PartedText) -> Result<(), AllocError>
        ensures { OnOk result (self.new ≡ self.old ++ other.now) }
    {
        for part in &other.parts {
            self.push_shared(Arc::try_clone(part)?)?;
        }
        Ok(())
    }

    // Puts a part behind the others.
    fn push_shared(&mut self, part: Arc<Text, Global>) -> Result<(), AllocError>
        ensures { OnOk result (self.new ≡ self.old ++ part.value) }
    {
        let Some(len) = self.len.checked_add(part.as_str().len()) else {
            return Err(AllocError);
        };
        self.parts.push(part)?;
        self.len = len;
        Ok(())
    }

    /// The same text, which shares its parts.
    pub fn copy(&self, alloc: Global) -> Result<PartedText, AllocError>
        ensures { IfOk result (λ copy. copy ≡ self.now) }
    {
        let mut copy = PartedText::new(alloc);
        copy.append(self)?;
        Ok(copy)
    }

    /// The same text in one part, which is copied.
    pub fn text(&self, alloc: Global) -> Result<Text, AllocError>
        ensures { IfOk result (λ text. text ≡ self.now) }
    {
        let mut text = String::with_capacity(alloc, self.len)?;
        for part in &self.parts {
            text.push_str(part.as_str())?;
        }
        Ok(Text::from_string(text))
    }

    /// How many bytes it has.
    pub fn len(&self) -> usize
        ensures { result ≡ length self.now }
    {
        self.len
    }

    /// Whether it has these bytes.
    pub fn is(&self, bytes: &[u8]) -> bool
        ensures { IsTrue result ↔ (self.now ≡ bytes.now) }
    {
        let mut left = bytes;
        let mut parts = self.parts();
        while let Some(part) = parts.next() {
            match left.strip_prefix(part.as_bytes()) {
                Some(rest) => left = rest,
                None => return false,
            }
        }
        left.is_empty()
    }

    /// Its parts, in order.
    pub fn parts(&self) -> TextParts<'_>
        ensures text { result.0 ≡ self.now }
        ensures small { length self.now < 2 ^ 64 }
    {
        let _len = self.len;
        TextParts {
            left: self.parts.as_slice(),
        }
    }
}

/// The parts of a text that are left. A clause sees what they make together, and how many they are.
#[derive(Drop)]
pub struct TextParts<'a> {
    left: &'a [Arc<Text, Global>],
}

impl<'a> Model for TextParts<'a> {
    ghost use Rattle.std.specs.Prelude.{List, ℕ, length};
    ghost use Rattle.sim_base.specs.Parted.{whole};

    ghost Value = { List ℕ × ℕ };

    ghost view = { λ t. (whole t.left.now, length t.left.now) };
}

impl<'a> TextParts<'a> {
    /// The next part.
    pub fn next(&mut self) -> Option<&'a str>
        ensures text { IfSome result (λ part. self.old.0 ≡ part.now ++ self.new.0) }
        ensures count { IfSome result (λ part. self.old.1 ≡ self.new.1 + 1) }
        ensures end { result ≡ None → self.old.0 ≡ [] }
    {
        match self.left {
            [first, rest @ ..] => {
                self.left = rest;
                Some(first.as_str())
            }
            [] => None,
        }
    }
}
