//! Frames that are made from a number: a source whose bytes are a frame file of a given number of frames.
//!
//! `generator` is the source, which gives what `ready` holds and has `piece` make what follows.
#![tactic(auto)]

mod generator;
mod piece;
mod ready;
#[cfg(test)]
mod tests;
mod value;

pub use generator::GenSource;
