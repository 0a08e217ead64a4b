//! Why a mapping text is refused.

ghost use Rattle.std.specs.Prelude.{◌≡◌};
ghost use Rattle.hpf_lex.specs.declared.refusal.MapError.TheVariants.{Memory};

use std::alloc::{AllocError, AllocFailed};
use thiserror::Error;

/// A refusal of a mapping text, with its place. Lines and columns count from 1, and a column counts bytes.
#[derive(Clone, Copy, Debug, PartialEq, Eq)]
pub struct MapRefusal {
    pub code: u8,
    pub line: u32,
    pub column: u32,
}

impl MapRefusal {
    ghost use Rattle.hpf_lex.specs.Order.{comes_before};

    /// Whether this refusal is told in place of the other: it stands in an earlier line, in an earlier column of one line,
    /// or at one place with a lesser code.
    pub fn comes_before(&self, other: &MapRefusal) -> bool
        ensures { result ≡ comes_before self.now other.now }
    {
        (self.line, self.column, self.code) < (other.line, other.column, other.code)
    }
}

/// What can be wrong with the bytes of a mapping text.
#[derive(Clone, Copy, Debug, PartialEq, Eq)]
pub enum Fault {
    /// A byte outside a comment begins no token. It stands at the byte.
    BadByte,
    /// A number is above 2147483647, or a letter or `_` follows its digits directly. It stands at the first digit.
    BadNumber,
    /// A word has more than 31 bytes. It stands at the first of them.
    NameTooLong,
    /// No line of its kind continues a statement that goes on. It stands at the `&`.
    DanglingContinuation,
    /// The text has more than 1,048,576 bytes. It stands at line 0 and column 0.
    TooLong,
}

impl Fault {
    ghost use Rattle.hpf_lex.specs.Statement.{code_of, refusal_at};

    /// The code number of the fault.
    pub fn code(self) -> u8
        ensures { result ≡ code_of self }
    {
        match self {
            Fault::BadByte => 1,
            Fault::BadNumber => 2,
            Fault::NameTooLong => 3,
            Fault::DanglingContinuation => 4,
            Fault::TooLong => 5,
        }
    }

    /// The refusal of a text for this fault at this place.
    pub(crate) fn at(self, line: u32, column: u32) -> MapRefusal
        ensures { result ≡ refusal_at self line column }
    {
        MapRefusal {
            code: self.code(),
            line,
            column,
        }
    }
}

/// Why a call that reads a mapping text gave nothing.
#[derive(Debug, Drop, Error)]
pub enum MapError {
    /// The text is refused.
    #[error("refused with code {} at {}:{}", .0.code, .0.line, .0.column)]
    Refused(MapRefusal),
    /// There was no memory.
    #[error("out of memory")]
    Memory(AllocError),
}

impl From<AllocError> for MapError {
    ghost from_gives = { λ e r. r ≡ Memory e };

    fn from(e: AllocError) -> MapError {
        MapError::Memory(e)
    }
}

impl<T: Drop> From<AllocFailed<T>> for MapError {
    ghost use Rattle.std.specs.Prelude.{◌≡◌, alloc_error};
    ghost use Rattle.hpf_lex.specs.declared.refusal.MapError.TheVariants.{Memory};

    ghost from_gives = { λ _ r. r ≡ Memory alloc_error };

    fn from(_e: AllocFailed<T>) -> MapError {
        MapError::Memory(AllocError)
    }
}
