//! A text that was printed.

ghost use Rattle.std.specs.Prelude.{◌≡◌, [], ◌++◌, OnOk};

use std::alloc::{AllocError, Global};
use std::marker::Model;

/// A text that was printed. It is seen as the list of its bytes.
#[derive(Drop)]
pub struct Printed {
    bytes: Vec<u8>,
}

impl Model for Printed {
    ghost use Rattle.std.specs.Prelude.{ℕ, List};

    ghost Value = { List ℕ };

    ghost view = { λ p. p.bytes.items };
}

impl Printed {
    /// The empty text.
    pub(crate) fn new(alloc: Global) -> Printed
        ensures { result ≡ [] }
    {
        Printed {
            bytes: Vec::new(alloc),
        }
    }

    /// Adds bytes at the end.
    pub(crate) fn put(&mut self, bytes: &[u8]) -> Result<(), AllocError>
        ensures { OnOk result (self.new ≡ self.old ++ bytes.now) }
    {
        self.bytes.extend_from_slice(bytes)
    }

    /// Its bytes.
    pub fn as_slice(&self) -> &[u8]
        ensures { result.now ≡ self.now }
    {
        self.bytes.as_slice()
    }
}
