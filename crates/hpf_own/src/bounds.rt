//! The bounds of an array.

ghost use Rattle.std.specs.Prelude.{◌≡◌, ℕ, ◌+◌, ◌<◌, ◌↔◌, ◌≤ℤ◌, true, length, IsSome, IfSome, Some, slice_get, IsTrue, All};
ghost use Rattle.hpf_own.specs.Lists.{IsBounds};
ghost use Rattle.hpf_own.specs.Space.{LiesIn};
ghost use Rattle.hpf_own.specs.Walk.{IsIndexAt};

use crate::limits::DIMENSIONS;
use hpf_num::Run;
use std::marker::Model;

/// The bounds of an array, a run of subscripts for each dimension. It is seen as the list of them, at least one and at
/// most seven.
#[derive(Clone, Copy, PartialEq, Eq)]
pub struct Bounds {
    runs: [Run; DIMENSIONS],
    rank: u8,
}

impl Model for Bounds {
    ghost use Rattle.std.specs.Prelude.{List};
    ghost use Rattle.hpf_num.specs.declared.run.Run.{Run};

    ghost Value = { List Run };

    ghost use Rattle.hpf_own.specs.KeptLists.{bounds_of, AreKeptBounds, kept_bounds, kept_bounds-bounds_of};

    ghost view = { bounds_of };

    ghost invariant = { AreKeptBounds };

    ghost inverse = { kept_bounds };

    ghost inverse_ok = { kept_bounds-bounds_of };
}

impl Bounds {
    /// These bounds, the first dimension first. None where there are none or more than seven, or where a lower bound is
    /// above its upper one.
    pub fn new(runs: &[Run]) -> Option<Bounds>
        ensures some { IsSome result ↔ IsBounds runs.now }
        ensures same { IfSome result (λ bounds. bounds ≡ runs.now) }
    {
        if runs.is_empty() || runs.len() > DIMENSIONS || !are_ordered(runs) {
            return None;
        }
        let mut kept = [Run { low: 0, high: 0 }; DIMENSIONS];
        for (d, run) in runs.iter().enumerate() {
            kept[d] = *run;
        }
        Some(Bounds {
            runs: kept,
            rank: runs.len() as u8,
        })
    }

    /// The number of dimensions.
    pub fn rank(&self) -> u32
        ensures { result ≡ length self.now }
    {
        u32::from(self.rank)
    }

    /// The bounds of dimension `d`, which counts from 0.
    pub fn at(&self, d: u32) -> Run
        requires { d < length self.now }
        ensures run { slice_get self.now d ≡ Some result }
        ensures ordered { result.low ≤ℤ result.high }
    {
        self.runs[d as usize]
    }

    /// Writes the first index of the element order: the lower bound of each dimension.
    pub fn first_index(&self, into: &mut [i64])
        requires { length into.old ≡ length self.now }
        ensures first { IsIndexAt self.now 0 into.new true }
        ensures lies { LiesIn self.now into.new }
    {
        for (d, run) in self.as_slice().iter().enumerate() {
            into[d] = run.low;
        }
    }

    /// Goes on to the next index of the element order, and answers whether there is one.
    pub fn next_index(&self, index: &mut [i64]) -> bool
        requires { LiesIn self.now index.old }
        ensures next { (k : ℕ) → IsIndexAt self.now k index.old true → IsIndexAt self.now (k + 1) index.new result }
        ensures lies { LiesIn self.now index.new }
    {
        for (d, run) in self.as_slice().iter().enumerate() {
            if index[d] < run.high {
                index[d] += 1;
                return true;
            }
            index[d] = run.low;
        }
        false
    }

    /// The bounds, the first dimension first.
    pub fn as_slice(&self) -> &[Run]
        ensures same { result.now ≡ self.now }
        ensures bounds { IsBounds self.now }
    {
        let rank = usize::from(self.rank);
        &self.runs[..rank]
    }
}

/// Whether no lower bound is above its upper one.
fn are_ordered(runs: &[Run]) -> bool
    ensures { IsTrue result ↔ All (λ run. run.low ≤ℤ run.high) runs.now }
{
    runs.iter().all(|run| run.low <= run.high)
}
