//! A permutation of the dimensions of an array.

ghost use Rattle.std.specs.Prelude.{◌≡◌, ◌≤◌, ◌↔◌, ◌-◌, ◌^◌, pos, ◌+ℤ◌, ◌-ℤ◌, ◌≤ℤ◌, length, IsSome, IfSome, IsTrue, IsPermutation};
ghost use Rattle.std.specs.List.{range_with_len};
ghost use Rattle.hpf_own.specs.Space.{LiesIn};
ghost use Rattle.hpf_own.specs.Lists.{IsPerm, IsShort};
ghost use Rattle.hpf_own.specs.Mapping.{AreInLimits};
ghost use Rattle.hpf_own.specs.Correspondence.{ExtentsAgree, corresponding};
ghost use Rattle.hpf_own.specs.Limits.{dimension_limit};

use crate::bounds::Bounds;
use crate::limits::DIMENSIONS;
use std::marker::Model;

/// A permutation of the dimensions of an array, counted from 1. It is seen as the list of them, at least one and at most
/// seven.
#[derive(Clone, Copy, PartialEq, Eq)]
pub struct Perm {
    dims: [u32; DIMENSIONS],
    rank: u8,
}

impl Model for Perm {
    ghost use Rattle.std.specs.Prelude.{ℕ, List};

    ghost Value = { List ℕ };

    ghost use Rattle.hpf_own.specs.KeptLists.{perm_of, IsKeptPerm, kept_perm, kept_perm-perm_of};

    ghost view = { perm_of };

    ghost invariant = { IsKeptPerm };

    ghost inverse = { kept_perm };

    ghost inverse_ok = { kept_perm-perm_of };
}

impl Perm {
    /// These dimensions, in order. None where there are none or more than seven, or where they aren't a permutation of
    /// the numbers from 1 to their number.
    pub fn new(dims: &[u32]) -> Option<Perm>
        ensures some { IsSome result ↔ IsPerm dims.now }
        ensures same { IfSome result (λ perm. perm ≡ dims.now) }
    {
        if dims.is_empty() || dims.len() > DIMENSIONS || !is_permutation(dims) {
            return None;
        }
        Some(Perm::keep(dims))
    }

    /// Each dimension in its own place.
    pub fn identity(rank: u32) -> Perm
        requires least { 1 ≤ rank }
        requires greatest { rank ≤ dimension_limit }
        ensures { result ≡ range_with_len 1 rank }
    {
        let dims = [1, 2, 3, 4, 5, 6, 7];
        Perm::keep(&dims[..rank as usize])
    }

    /// The permutation that these dimensions are.
    fn keep(dims: &[u32]) -> Perm
        requires { IsPerm dims.now }
        ensures { result ≡ dims.now }
    {
        let mut kept = [0; DIMENSIONS];
        for (d, dim) in dims.iter().enumerate() {
            kept[d] = *dim;
        }
        Perm {
            dims: kept,
            rank: dims.len() as u8,
        }
    }

    /// Writes the index of the array before that corresponds to an index of the array that receives, whose dimension `d` is
    /// the dimension of the array before that stands at `d` here. Both lie equally far above the lower bounds.
    pub fn corresponding(&self, from: &Bounds, to: &Bounds, index: &[i64], into: &mut [i64])
        requires before { AreInLimits from.now }
        requires receiving { AreInLimits to.now }
        requires agree { ExtentsAgree from.now to.now self.now }
        requires index { LiesIn to.now index.now }
        requires rank { length into.old ≡ length self.now }
        ensures same { into.new ≡ corresponding from.now to.now self.now index.now }
        ensures lies { LiesIn from.now into.new }
    {
        for (d, dim) in self.as_slice().iter().enumerate() {
            let source = *dim - 1;
            into[source as usize] = moved(index[d], to.at(d as u32).low, from.at(source).low);
        }
    }

    /// The dimensions, in order.
    pub fn as_slice(&self) -> &[u32]
        ensures same { result.now ≡ self.now }
        ensures perm { IsPerm self.now }
    {
        let rank = usize::from(self.rank);
        &self.dims[..rank]
    }
}

/// The subscript that lies as far above `other` as `i` above `low`.
fn moved(i: i64, low: i64, other: i64) -> i64
    requires above { low ≤ℤ i }
    requires near { (i -ℤ low) ≤ℤ pos (2 ^ 32) }
    requires room { (other +ℤ (i -ℤ low)) ≤ℤ pos (2 ^ 63 - 1) }
    ensures { result ≡ other +ℤ (i -ℤ low) }
{
    other + (i - low)
}

/// Whether each number from 1 to their number is among them.
fn is_permutation(dims: &[u32]) -> bool
    requires { length dims.now ≤ dimension_limit }
    ensures { IsTrue result ↔ IsPermutation (range_with_len 1 (length dims.now)) dims.now }
{
    for dim in 0..dims.len() as u32 {
        if !dims.contains(&(dim + 1)) {
            return false;
        }
    }
    true
}
