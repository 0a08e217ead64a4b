//! One divided dimension of an index space: which processor owns which position.
//!
//! A `Format` says how the positions of a dimension are dealt to the processors of one processor dimension. An `Axis` is
//! a dimension with a format that suits it.
#![tactic(auto)]

mod around;
mod axis;
mod condition;
mod format;
mod lengths;
mod places;
mod refusal;
mod runs_of;

pub use axis::{Axis, even_width};
pub use format::Format;
pub use lengths::Lengths;
pub use places::Places;
pub use refusal::AxisRefusal;

#[cfg(test)]
mod tests;
