//! Why words are not read.

ghost use Rattle.std.specs.Prelude.{◌≡◌};
ghost use Rattle.hpf_words.specs.declared.refusal.WordsError.TheVariants.{Memory};

use clap::error::ErrorKind;
use std::alloc::AllocError;
use thiserror::Error;

/// Why a command line was not read.
#[derive(Debug, Drop, Error)]
pub enum WordsError {
    /// The words ask for nothing.
    #[error("the words ask for nothing")]
    Refused,
    /// There was no memory.
    #[error("out of memory")]
    Memory(AllocError),
}

impl From<AllocError> for WordsError {
    ghost from_gives = { λ e r. r ≡ Memory e };

    fn from(e: AllocError) -> WordsError {
        WordsError::Memory(e)
    }
}

impl From<clap::Error> for WordsError {
    ghost use Rattle.clap.specs.Words.{kind_of};
    ghost use Rattle.hpf_words.specs.Refusal.{words_error};

    ghost from_gives = { λ e r. r ≡ words_error (kind_of e) };

    fn from(error: clap::Error) -> WordsError {
        match error.kind() {
            ErrorKind::OutOfMemory => WordsError::Memory(AllocError),
            _ => WordsError::Refused,
        }
    }
}
