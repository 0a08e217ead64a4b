//! Routes: which elements go from a processor of one mapping to a processor of another.
//!
//! A `Route` has a pair of places for each element that it moves: its place in the part that the sender owns, and its place
//! in the part that the receiver holds, in the element order of the receiver. Its steps are the stretches in which both
//! places rise by one.
#![tactic(auto)]

mod chain;
pub mod laws;
mod lines;
mod plan;
mod route;
mod step;

pub use route::Route;
pub use step::Step;
