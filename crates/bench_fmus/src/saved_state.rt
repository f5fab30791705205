ghost use Rattle.std.specs.Prelude.{◌≡◌, IfOk, false, length};
ghost use Rattle.bench_fmus.specs.Packed.{ordered, unpacked};
ghost use Rattle.bench_fmus.specs.Told.{slot_in};

use crate::Numbers;
use crate::packed::{NUMBERS_SIZE, read_numbers, read_values};
use std::alloc::{AllocError, Global};
use value_types::{ByReference, Variable};

/// What Save keeps of a built-in machine's state, in room for a value for each variable. Where it isn't full, numbers
/// and values are left over.
#[derive(Debug, Drop)]
pub struct SavedState {
    pub is_full: bool,
    pub numbers: Numbers,
    pub values: Vec<i128>,
}

impl SavedState {
    /// Nothing, with room for so many values.
    pub fn none(alloc: Global, count: usize) -> Result<SavedState, AllocError>
        ensures empty { IfOk result (λ s. s.is_full ≡ false) }
        ensures room { IfOk result (λ s. length s.values.items ≡ count) }
    {
        Ok(SavedState {
            is_full: false,
            numbers: Numbers::at_first(),
            values: vec![in alloc; 0; count]?,
        })
    }

    /// Takes in the state of these bytes, where they are one's; else nothing is kept.
    pub(crate) fn unpack(
        &mut self,
        variables: &ByReference<Variable>,
        order: &[(u32, usize)],
        bytes: &[u8],
    )
        requires order { order.now ≡ ordered variables.now }
        requires room { length self.old.values.items ≡ length variables.now }
        ensures slot { slot_in variables.now self.new ≡ unpacked variables.now bytes.now }
        ensures room { length self.new.values.items ≡ length self.old.values.items }
    {
        let Some(numbers) = read_numbers(bytes) else {
            self.is_full = false;
            return;
        };
        self.numbers = numbers;
        self.is_full = read_values(
            variables.as_slice(),
            order,
            &bytes[NUMBERS_SIZE..],
            &mut self.values,
        );
    }
}
