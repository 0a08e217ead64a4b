//! Whole numbers: runs of integers, and division that rounds down or up.
#![tactic(auto)]

mod division;
mod run;
mod runs;

pub use division::{div_ceil, div_floor, modulo};
pub use run::Run;
pub use runs::Runs;

#[cfg(test)]
mod tests;
