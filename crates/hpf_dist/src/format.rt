//! How a dimension is divided.

use crate::lengths::Lengths;
use crate::places::Places;

/// How the positions of a dimension are dealt to the processors of one processor dimension. Positions and coordinates
/// are counted from 0 here, from the lower bound of each.
#[derive(Drop)]
pub enum Format {
    /// BLOCK: blocks of so many positions, the first to processor 0, the next to processor 1, and so on.
    Block(u64),
    /// CYCLIC: the same, with processor 0 again after the last one.
    Cyclic(u64),
    /// GEN_BLOCK: one block for each processor, as long as it says, cut at the upper bound.
    GenBlock(Lengths),
    /// INDIRECT: the coordinate of the owner of each position.
    Indirect(Places),
}
