ghost use Rattle.std.specs.Prelude.{◌≡◌, ◌<◌, ◌==◌, ℕ, IfOk, IfSome, find, length, position};
ghost use Rattle.std.specs.List.{slice_get};
ghost use Rattle.std.specs.Option.{option_copied};

use crate::listed::Listed;
use std::alloc::{AllocError, Global};
use std::marker::Model;
use std::sync::Arc;

/// What a description lists under a value reference.
pub trait Referenced: Drop {
    ghost reference: { Self → ℕ };

    /// The value reference.
    fn reference(&self) -> u32
        ensures { result ≡ reference self.now };
}

/// A list whose elements are found by their value references, in logarithmic time. A clause sees the list. Copies share
/// its elements.
#[derive(Debug, Drop)]
pub struct ByReference<T: Referenced> {
    listed: Arc<Listed<T>, Global>,
}

impl<T: Referenced> Model for ByReference<T> {
    ghost use Rattle.std.specs.Prelude.{List};
    ghost use Rattle.std.specs.Coded.{coded_list};

    ghost Value = { List T };

    ghost coded = { coded_list T.code };

    ghost view = { λ b. b.listed.value };
}

impl<T: Referenced> ByReference<T> {
    /// The elements, with their index.
    pub fn new(alloc: Global, items: Vec<T>) -> Result<ByReference<T>, AllocError>
        ensures { IfOk result (λ list. list ≡ items.items) }
    {
        let listed = Arc::new(alloc, Listed::new(alloc, items)?)?;
        Ok(ByReference { listed })
    }

    /// The elements, in order.
    pub fn as_slice(&self) -> &[T]
        ensures { result.now ≡ self.now }
    {
        self.listed.as_slice()
    }

    /// The number of elements.
    pub fn len(&self) -> usize
        ensures { result ≡ length self.now }
    {
        self.as_slice().len()
    }

    /// The element at a place.
    pub fn get(&self, place: usize) -> Option<&T>
        ensures { option_copied result ≡ slice_get self.now place }
    {
        self.as_slice().get(place)
    }

    /// The place of the first element with a reference.
    pub fn place_of(&self, reference: u32) -> Option<usize>
        ensures place { result ≡ position (λ x. T.reference x == reference) self.now }
        ensures within { IfSome result (λ place. place < length self.now) }
    {
        self.listed.place_of(reference)
    }

    /// The first element with a reference.
    pub fn find(&self, reference: u32) -> Option<&T>
        ensures { option_copied result ≡ find (λ x. T.reference x == reference) self.now }
    {
        match self.place_of(reference) {
            Some(place) => self.get(place),
            None => None,
        }
    }

    /// The same list, which shares the elements with this one: it allocates no memory, and fails where there are 2^63 of it.
    pub fn copy(&self) -> Result<ByReference<T>, AllocError>
        ensures { IfOk result (λ copy. copy ≡ self.now) }
    {
        Ok(ByReference {
            listed: Arc::try_clone(&self.listed)?,
        })
    }
}
