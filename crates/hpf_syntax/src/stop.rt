//! Where reading stops before its end.

ghost use Rattle.std.specs.Prelude.{◌≡◌, length};
ghost use Rattle.hpf_syntax.specs.Reading.{bad_at};

use hpf_lex::Token;
use std::alloc::{AllocError, AllocFailed};

/// What is wrong with a token.
#[derive(Clone, Copy, Debug, PartialEq, Eq)]
pub(crate) enum Fault {
    /// No statement goes on with it.
    Syntax,
    /// An expression has too many tokens with it.
    LongExpression,
}

/// A token that is refused, by the number of tokens from it to the end.
#[derive(Clone, Copy, Debug)]
pub(crate) struct BadToken {
    pub fault: Fault,
    pub left: usize,
}

/// Why reading stops.
#[derive(Debug, Drop)]
pub(crate) enum Stop {
    Bad(BadToken),
    Memory(AllocError),
}

impl From<AllocError> for Stop {
    ghost use Rattle.hpf_syntax.specs.declared.stop.Stop.TheVariants.{Memory};

    ghost from_gives = { λ e r. r ≡ Memory e };

    fn from(e: AllocError) -> Stop {
        Stop::Memory(e)
    }
}

impl<T: Drop> From<AllocFailed<T>> for Stop {
    ghost use Rattle.std.specs.Prelude.{◌≡◌, alloc_error};
    ghost use Rattle.hpf_syntax.specs.declared.stop.Stop.TheVariants.{Memory};

    ghost from_gives = { λ _ r. r ≡ Memory alloc_error };

    fn from(_e: AllocFailed<T>) -> Stop {
        Stop::Memory(AllocError)
    }
}

/// The first of these tokens is refused.
pub(crate) fn bad(fault: Fault, tokens: &[Token]) -> Stop
    ensures { result ≡ Stop.Bad (bad_at fault tokens.now) }
{
    Stop::Bad(BadToken {
        fault,
        left: tokens.len(),
    })
}
