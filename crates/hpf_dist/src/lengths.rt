//! The lengths of blocks.

ghost use Rattle.std.specs.Prelude.{◌≡◌, ℕ, ◌+◌, ◌<◌, ◌≤◌, IfOk, length};
ghost use Rattle.std.specs.List.{sum};
ghost use Rattle.hpf_dist.specs.Around.{IsAround};
ghost use Rattle.hpf_dist.specs.Sums.{sum_of_first, sums};
ghost use Rattle.hpf_dist.specs.declared.format.Format.{Format};
ghost use Rattle.hpf_dist.specs.Limits.{processor_limit};

use crate::around::Around;
use std::alloc::{AllocError, Global};
use std::marker::Model;

/// The lengths of blocks that lie one after another, in positions. It is seen as the list of them.
#[derive(Drop)]
pub struct Lengths {
    items: Vec<u32>,
    // how many positions lie before the end of each block
    ends: Vec<u128>,
}

impl Model for Lengths {
    ghost use Rattle.std.specs.Prelude.{◌≡◌, ℕ, List};

    ghost Value = { List ℕ };

    ghost use Rattle.hpf_dist.specs.Sums.{sums};

    ghost view = { λ lengths. lengths.items.items };

    ghost invariant = { λ lengths. lengths.ends.items ≡ sums lengths.items.items };
}

impl Lengths {
    /// These lengths, the block of coordinate 0 first.
    pub fn from_slice(alloc: Global, items: &[u32]) -> Result<Lengths, AllocError>
        ensures { IfOk result (λ lengths. lengths ≡ items.now) }
    {
        Ok(Lengths {
            items: Vec::from_slice(alloc, items)?,
            ends: sums_of(alloc, items)?,
        })
    }

    /// The lengths, the block of coordinate 0 first.
    pub fn as_slice(&self) -> &[u32]
        ensures { result.now ≡ self.now }
    {
        self.items.as_slice()
    }

    /// How many positions they come to together.
    pub(crate) fn sum(&self) -> u128
        ensures { result ≡ sum self.now }
    {
        match self.ends.as_slice().last() {
            Some(end) => *end,
            None => 0,
        }
    }

    /// The coordinate of the block that has the position with so many before it.
    pub(crate) fn block_of(&self, before: u64) -> u32
        requires within { before < sum self.now }
        requires few { length self.now ≤ processor_limit }
        ensures from { sum_of_first self.now result ≤ before }
        ensures to { before < sum_of_first self.now (result + 1) }
        ensures below { result < length self.now }
    {
        let before = u128::from(before);
        let ends = self.ends.as_slice();
        ends.partition_point(|end| *end <= before) as u32
    }

    /// The positions around the one with so many before it, in its block.
    pub(crate) fn around(&self, before: u64) -> Around
        requires within { before < sum self.now }
        requires few { length self.now ≤ processor_limit }
        ensures { (n : ℕ) → length self.now ≤ n → IsAround (Format.GenBlock self.now) n before result }
    {
        let block = self.block_of(before) as usize;
        let above = self.ends[block] - 1 - u128::from(before);
        let length = u64::from(self.items[block]);
        Around {
            below: length - 1 - above as u64,
            above: above as u64,
        }
    }
}

/// The sum of the first item, of the first two, and so on.
fn sums_of(alloc: Global, items: &[u32]) -> Result<Vec<u128>, AllocError>
    ensures { IfOk result (λ ends. ends.items ≡ sums items.now) }
{
    let mut ends = Vec::with_capacity(alloc, items.len())?;
    let mut end = 0u128;
    for item in items {
        end += u128::from(*item);
        ends.push(end)?;
    }
    Ok(ends)
}
