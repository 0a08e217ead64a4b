//! Why a dimension can't be divided so.

use std::alloc::AllocError;

/// Why a format doesn't fit its dimension and its processors.
#[derive(Debug, Drop)]
pub enum AxisRefusal {
    /// The blocks of all processors together are shorter than the dimension.
    BlockTooSmall,
    /// A block has no position.
    WidthZero,
    /// There isn't one length for each processor.
    LengthCount,
    /// The lengths together are shorter than the dimension.
    LengthSum,
    /// There isn't one place for each position.
    PlaceCount,
    /// A place is no processor's.
    PlaceValue,
    /// There was no memory.
    Memory(AllocError),
}
