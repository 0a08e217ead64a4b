//! The sizes of an arrangement of processors.

ghost use Rattle.std.specs.Prelude.{◌≡◌, ◌≤◌, ◌+◌, ◌*◌, ◌^◌, ◌<◌, ◌↔◌, IsSome, IfSome, IsTrue, All, [], ◌∷◌};
ghost use Rattle.hpf_own.specs.Lists.{IsSizes};
ghost use Rattle.hpf_own.specs.Space.{product};
ghost use Rattle.hpf_dist.specs.Limits.{processor_limit};

use crate::limits::{DIMENSIONS, PROCESSORS};
use std::marker::Model;

/// How many processors an arrangement has along each of its dimensions. It is seen as the list of them, at least one
/// and at most seven.
#[derive(Clone, Copy, PartialEq, Eq)]
pub struct Sizes {
    sizes: [u32; DIMENSIONS],
    rank: u8,
}

impl Model for Sizes {
    ghost use Rattle.std.specs.Prelude.{ℕ, List};

    ghost Value = { List ℕ };

    ghost use Rattle.hpf_own.specs.KeptLists.{sizes_of, AreKeptSizes, kept_sizes, kept_sizes-sizes_of};

    ghost view = { sizes_of };

    ghost invariant = { AreKeptSizes };

    ghost inverse = { kept_sizes };

    ghost inverse_ok = { kept_sizes-sizes_of };
}

impl Sizes {
    /// These sizes, the first dimension first. None where there are none or more than seven, where one is 0, or where
    /// there are more than 64 processors.
    pub fn new(sizes: &[u32]) -> Option<Sizes>
        ensures some { IsSome result ↔ IsSizes sizes.now }
        ensures same { IfSome result (λ kept. kept ≡ sizes.now) }
    {
        if sizes.is_empty() || sizes.len() > DIMENSIONS || !are_few(sizes) {
            return None;
        }
        let mut kept = [0; DIMENSIONS];
        for (d, size) in sizes.iter().enumerate() {
            kept[d] = *size;
        }
        Some(Sizes {
            sizes: kept,
            rank: sizes.len() as u8,
        })
    }

    /// One processor.
    pub(crate) fn one() -> Sizes
        ensures { result ≡ 1 ∷ [] }
    {
        Sizes {
            sizes: [1, 0, 0, 0, 0, 0, 0],
            rank: 1,
        }
    }

    /// The sizes, the first dimension first.
    pub fn as_slice(&self) -> &[u32]
        ensures same { result.now ≡ self.now }
        ensures sizes { IsSizes self.now }
    {
        let rank = usize::from(self.rank);
        &self.sizes[..rank]
    }

    /// The number of processors.
    pub(crate) fn product(&self) -> u32
        ensures { result ≡ product self.now }
    {
        let mut count = 1;
        for size in self.as_slice() {
            count *= size;
        }
        count
    }
}

/// Whether none is 0 and their product is at most 64.
fn are_few(sizes: &[u32]) -> bool
    ensures { IsTrue result ↔ (All (λ size. 1 ≤ size) sizes.now × (product sizes.now ≤ processor_limit)) }
{
    let mut count = 1;
    for size in sizes {
        count *= u64::from(*size);
        if count == 0 || count > PROCESSORS as u64 {
            return false;
        }
    }
    true
}
