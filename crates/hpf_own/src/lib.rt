//! Mappings of arrays onto processors: who owns an element, and who sends it.
//!
//! A `Mapping` has the bounds of an array, an image of its elements in each dimension of their base, how the base is
//! divided over an arrangement of processors, and the widths of a shadow. Dimensions and processors count from 0,
//! positions and subscripts are those of the text, from the lower bound on.
#![tactic(auto)]

mod base_dims;
mod bounds;
mod common;
mod held;
mod image;
pub mod laws;
mod limits;
mod mapping;
mod owner_set;
mod perm;
mod procs;
mod side;
mod sizes;
mod widths;

pub use base_dims::BaseDims;
pub use bounds::Bounds;
pub use held::Held;
pub use image::{BaseDim, Cut, Image};
pub use mapping::Mapping;
pub use owner_set::OwnerSet;
pub use perm::Perm;
pub use procs::Procs;
pub use sizes::Sizes;
pub use widths::{Width, Widths};

#[cfg(test)]
mod tests;
