//! Elements that move from one part to another.

/// An element that moves: its place in the part that it leaves, and its place in the part that it enters.
#[derive(Clone, Copy, Debug, PartialEq, Eq)]
pub struct Move {
    pub from: u64,
    pub to: u64,
}

/// A stretch of elements whose places rise by one, in the part that they leave and in the part that they enter.
#[derive(Clone, Copy, Debug, PartialEq, Eq)]
pub struct Step {
    /// The place of the first element in the sender's part.
    pub from: u64,
    /// Its place in the receiver's part.
    pub to: u64,
    /// The number of elements.
    pub length: u64,
}
