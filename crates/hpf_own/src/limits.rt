//! Limits that this project sets.

/// How many dimensions an array and an arrangement of processors have at most.
pub(crate) const DIMENSIONS: usize = 7;

/// How many processors an arrangement has at most.
pub(crate) const PROCESSORS: usize = 64;
