//! Sets of processors.

ghost use Rattle.std.specs.Prelude.{◌≡◌};
ghost use Rattle.hpf_own.specs.OwnerSet.{IsFirstFrom};
ghost use Rattle.hpf_own.specs.Members.{members};

use crate::limits::PROCESSORS;
use std::marker::Model;

/// The owners of an element. It is seen as the ascending list of their numbers.
#[derive(Drop)]
pub struct OwnerSet {
    numbers: [u32; PROCESSORS],
    count: u8,
}

impl Model for OwnerSet {
    ghost use Rattle.std.specs.Prelude.{ℕ, List, take};
    ghost use Rattle.hpf_own.specs.Members.{FitsIn};

    ghost Value = { List ℕ };

    ghost view = { λ set. take set.count set.numbers };

    ghost invariant = { λ set. FitsIn set.numbers set.count };
}

impl OwnerSet {
    /// The numbers of the bits that are set.
    pub(crate) fn new(bits: u64) -> OwnerSet
        ensures { result ≡ members bits }
    {
        let mut numbers = [0; PROCESSORS];
        let mut count = 0u8;
        let mut from = 0;
        while let Some(p) = first_from(bits, from) {
            numbers[usize::from(count)] = p;
            count += 1;
            from = p + 1;
        }
        OwnerSet { numbers, count }
    }

    /// The numbers, ascending.
    pub fn as_slice(&self) -> &[u32]
        ensures { result.now ≡ self.now }
    {
        let count = usize::from(self.count);
        &self.numbers[..count]
    }
}

/// The least number of the set that isn't below `from`.
fn first_from(set: u64, from: u32) -> Option<u32>
    ensures { IsFirstFrom set from result }
{
    if from >= u64::BITS {
        return None;
    }
    let rest = set >> from;
    if rest == 0 {
        None
    } else {
        Some(from + rest.trailing_zeros())
    }
}
