//! Lists of processors.

ghost use Rattle.std.specs.Prelude.{◌≡◌, IfOk};

use std::alloc::{AllocError, Global};
use std::marker::Model;

/// Numbers of processors. It is seen as the list of them.
#[derive(Drop)]
pub struct Procs {
    numbers: Vec<u32>,
}

impl Model for Procs {
    ghost use Rattle.std.specs.Prelude.{ℕ, List};

    ghost Value = { List ℕ };

    ghost view = { λ procs. procs.numbers.items };
}

impl Procs {
    /// These numbers.
    pub(crate) fn from_slice(alloc: Global, numbers: &[u32]) -> Result<Procs, AllocError>
        ensures { IfOk result (λ procs. procs ≡ numbers.now) }
    {
        Ok(Procs {
            numbers: Vec::from_slice(alloc, numbers)?,
        })
    }

    /// The numbers.
    pub fn as_slice(&self) -> &[u32]
        ensures { result.now ≡ self.now }
    {
        self.numbers.as_slice()
    }
}
