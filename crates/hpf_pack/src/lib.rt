//! The values of a route: taken from the part that they leave, and put into the part that they enter.
#![tactic(auto)]

mod moving;

pub use moving::{pack, unpack};
