//! The owners of positions, one by one.

ghost use Rattle.std.specs.Prelude.{◌≡◌, IfOk};

use std::alloc::{AllocError, Global};
use std::marker::Model;

/// A coordinate, from 0, for each position of a dimension. It is seen as the list of them.
#[derive(Drop)]
pub struct Places {
    items: Vec<u32>,
}

impl Model for Places {
    ghost use Rattle.std.specs.Prelude.{ℕ, List};

    ghost Value = { List ℕ };

    ghost view = { λ places. places.items.items };
}

impl Places {
    /// These coordinates, that of the lower bound first.
    pub fn from_slice(alloc: Global, items: &[u32]) -> Result<Places, AllocError>
        ensures { IfOk result (λ places. places ≡ items.now) }
    {
        Ok(Places {
            items: Vec::from_slice(alloc, items)?,
        })
    }

    /// The coordinates, that of the lower bound first.
    pub fn as_slice(&self) -> &[u32]
        ensures { result.now ≡ self.now }
    {
        self.items.as_slice()
    }
}
