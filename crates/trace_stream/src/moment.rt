ghost use Rattle.std.specs.Prelude.{◌≡◌, ℕ, None, Some, IfOk, length, replicate, slice_set};

use std::alloc::{AllocError, Global};

/// An instant: the n-th at the point `t`, in counts, with each port's value in it, in the order of the ports, or none.
#[derive(Debug, Drop)]
pub struct Moment {
    pub t: u64,
    pub n: u64,
    pub values: Vec<Option<i128>>,
}

impl Moment {
    /// An instant of so many ports, none of which has a value.
    pub fn new(alloc: Global, ports: usize) -> Result<Moment, AllocError>
        ensures { IfOk result (λ m. length m.values.items ≡ ports) }
    {
        let mut values = Vec::with_capacity(alloc, ports)?;
        while values.len() < ports {
            values.push(None)?;
        }
        Ok(Moment { t: 0, n: 0, values })
    }

    /// The n-th instant at the point `t`, before a port has its value.
    pub(crate) fn begin(&mut self, t: u64, n: u64)
        ensures point { self.new.t ≡ t }
        ensures number { self.new.n ≡ n }
        ensures values { self.new.values.items ≡ replicate (length self.old.values.items) None }
    {
        self.t = t;
        self.n = n;
        for value in self.values.iter_mut() {
            *value = None;
        }
    }

    /// Gives the port with this number its value.
    pub(crate) fn put(&mut self, port: u64, value: i128)
        ensures point { self.new.t ≡ self.old.t }
        ensures number { self.new.n ≡ self.old.n }
        ensures values { self.new.values.items ≡ slice_set self.old.values.items port (Some value) }
    {
        if let Some(place) = self.values.get_mut(port as usize) {
            *place = Some(value);
        }
    }
}
