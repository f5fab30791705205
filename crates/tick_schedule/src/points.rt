ghost use Rattle.std.specs.Prelude.{◌≡◌, ℕ, ◌<◌, ◌+◌, ◌^◌, IfOk, length, replicate, slice_index, slice_set};

use crate::steps::Steps;
use std::alloc::{AllocError, Global};
use std::marker::Model;
use std::sync::ledger::Ledger;

/// The next point of each Clock. A point is read by `at` alone, which counts a step: nothing else here answers one.
#[derive(Drop)]
pub(crate) struct Points {
    points: Vec<u64>,
}

impl Model for Points {
    ghost use Rattle.std.specs.Prelude.{ℕ, List, ◌<◌, ◌^◌, length};

    ghost Value = { List ℕ };

    ghost view = { λ p. p.points.items };

    ghost invariant = { λ p. length p.points.items < 2 ^ 63 };
}

impl Points {
    /// The same point for so many Clocks.
    pub(crate) fn all(alloc: Global, point: u64, count: usize) -> Result<Points, AllocError>
        ensures same { IfOk result (λ points. points ≡ replicate count point) }
        ensures few { IfOk result (λ points. length points < 2 ^ 63) }
    {
        Ok(Points {
            points: vec![in alloc; point; count]?,
        })
    }

    /// How many Clocks there are.
    pub(crate) fn len(&self) -> usize
        ensures { result ≡ length self.now }
    {
        self.points.len()
    }

    /// Reads the point of a Clock, which is one step.
    pub(crate) fn at<L: Ledger>(&self, clock: usize, steps: &mut Steps<L>) -> u64
        requires { clock < length self.now }
        ensures point { result ≡ slice_index self.now clock }
        ensures cost { steps.new ≡ steps.old + 1 }
    {
        steps.tick();
        self.points[clock]
    }

    /// Gives a Clock another point.
    pub(crate) fn set(&mut self, clock: usize, point: u64)
        requires { clock < length self.old }
        ensures { self.new ≡ slice_set self.old clock point }
    {
        self.points[clock] = point;
    }
}
