//! What a processor owns or holds of an array.

ghost use Rattle.std.specs.Prelude.{IsTrue, replicate, ◌≡◌, ℕ, ◌^◌, ◌<◌, ◌≤◌, [], length, slice_get, Some, Contains, IsSome, IfOk, IfSome, ◌↔◌, All, List, ℤ};
ghost use Rattle.std.specs.Bool.{OnTrue};
ghost use Rattle.hpf_num.specs.Runs.{AreMembers};
ghost use Rattle.hpf_own.specs.Space.{choices, StandOnce};
ghost use Rattle.hpf_own.specs.Image.{subscript};
ghost use Rattle.hpf_own.specs.Held.{Part, IsMadeOf, AreSides};
ghost use Rattle.hpf_own.specs.Limits.{element_limit, dimension_limit};

use hpf_num::Runs;
use std::alloc::{AllocError, Global};
use std::marker::Model;

/// Elements of an array that a processor owns or holds. It is seen as the list of their indices, in element order, and the
/// number of dimensions of the array. They are every index made of a subscript of each dimension's list.
#[derive(Drop)]
pub struct Held {
    sides: Vec<Runs>,
}

impl Model for Held {
    ghost use Rattle.std.specs.Prelude.{length};
    ghost use Rattle.hpf_own.specs.Space.{choices};
    ghost use Rattle.hpf_own.specs.Held.{Part, AreSides};

    ghost Value = { Part };

    ghost view = { λ h. record { rank = length h.sides.items; indices = choices h.sides.items } };

    ghost invariant = { λ h. AreSides h.sides.items };
}

impl Held {
    /// The number of dimensions of the array, at least one and at most seven. There are at most 2^24 elements, each with
    /// an index of its own.
    pub fn rank(&self) -> u32
        ensures rank { result ≡ self.now.rank }
        ensures some { 1 ≤ result }
        ensures short { result ≤ dimension_limit }
        ensures few { length self.now.indices ≤ element_limit }
        ensures once { StandOnce self.now.indices }
    {
        self.sides.len() as u32
    }

    /// The number of elements.
    pub fn count(&self) -> u64
        ensures { result ≡ length self.now.indices }
    {
        let mut count = 1;
        let mut d = self.sides.len();
        while d > 0 {
            d -= 1;
            count *= self.sides[d].count();
        }
        count
    }

    /// The subscripts in dimension `d`, which counts from 0: exactly those that stand there in the index of some element.
    /// The elements are every index made of one subscript of each dimension.
    pub fn runs(&self, d: u32) -> &Runs
        requires { d < self.now.rank }
        ensures standing { (i : ℤ) → Contains result.now i
            ↔ ((index : List ℤ) × Contains self.now.indices index × (subscript index d ≡ i)) }
        ensures made { (sides : List (List ℤ)) × IsMadeOf self.now sides × (slice_get sides d ≡ Some result.now) }
    {
        &self.sides[d as usize]
    }

    /// Writes the index of the element at place `k`, from 0.
    pub fn nth(&self, k: u64, into: &mut [i64])
        requires place { k < length self.now.indices }
        requires rank { length into.old ≡ self.now.rank }
        ensures { slice_get self.now.indices k ≡ Some into.new }
    {
        let mut rest = k;
        for (d, side) in self.sides.as_slice().iter().enumerate() {
            let count = side.count();
            into[d] = nth_of(side, rest % count);
            rest /= count;
        }
    }

    /// The place of the element with this index, from 0. None where it isn't one of these.
    pub fn place(&self, index: &[i64]) -> Option<u64>
        requires { length index.now ≡ self.now.rank }
        ensures place { IfSome result (λ k. slice_get self.now.indices k ≡ Some index.now) }
        ensures one { IsSome result ↔ Contains self.now.indices index.now }
    {
        let mut place = 0;
        let mut d = self.sides.len();
        while d > 0 {
            d -= 1;
            let side = &self.sides[d];
            place = place * side.count() + side.rank(index[d])?;
        }
        Some(place)
    }

    /// What is made of these lists of subscripts, one for each dimension.
    pub(crate) fn of(alloc: Global, sides: Vec<Runs>) -> Result<Held, AllocError>
        requires some { 1 ≤ length sides.items }
        requires short { length sides.items ≤ dimension_limit }
        requires few { length (choices sides.items) ≤ element_limit }
        ensures { IfOk result (λ part. part
            ≡ record { rank = length sides.items; indices = choices sides.items }) }
    {
        if have_members(sides.as_slice()) {
            return Ok(Held { sides });
        }
        let sides = no_members(alloc, sides.len())?;
        Ok(Held { sides })
    }

    /// The lists of subscripts, one for each dimension.
    pub(crate) fn sides(&self) -> &[Runs]
        ensures { IsMadeOf self.now result.now }
    {
        self.sides.as_slice()
    }
}

/// The subscript at place `k`, of which there are more.
fn nth_of(side: &Runs, k: u64) -> i64
    requires { k < length side.now }
    ensures { slice_get side.now k ≡ Some result }
{
    match side.nth(k) {
        Some(i) => i,
        None => unreachable!(),
    }
}

/// Whether each of these lists has a member.
fn have_members(sides: &[Runs]) -> bool
    ensures some { IsTrue result ↔ All (λ side. 1 ≤ length side) sides.now }
    ensures members { OnTrue result (All AreMembers sides.now) }
{
    for side in sides {
        if side.count() == 0 {
            return false;
        }
    }
    true
}

/// So many lists with no member.
fn no_members(alloc: Global, rank: usize) -> Result<Vec<Runs>, AllocError>
    ensures { IfOk result (λ sides. sides.items ≡ replicate rank []) }
{
    let mut sides = Vec::new(alloc);
    for _ in 0..rank {
        sides.push(Runs::new(alloc))?;
    }
    Ok(sides)
}
