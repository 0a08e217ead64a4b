//! What `clap` makes of the words.

ghost use Rattle.std.specs.Prelude.{◌≡◌, map, string_bytes, IfOk, Err};
ghost use Rattle.clap.specs.Words.{found_of, rows_of};
ghost use Rattle.hpf_words.specs.Command.{AreTaken, found_in};
ghost use Rattle.hpf_words.specs.Given.{HasNumbers};
ghost use Rattle.hpf_words.specs.declared.refusal.WordsError.{WordsError};

use crate::command::command;
use crate::refusal::WordsError;
use clap::ArgMatches;
use std::alloc::Global;

/// The matches of the words.
pub(crate) fn parse<'a>(alloc: Global, words: &'a [String]) -> Result<ArgMatches<'a>, WordsError>
    ensures taken { IfOk result (λ _. AreTaken (map string_bytes words.entry.now)) }
    ensures rows { IfOk result (λ found. rows_of (found_of found) ≡ found_in (map string_bytes words.entry.now)) }
    ensures numbers { IfOk result (λ found. HasNumbers (found_of found)) }
    ensures refused { result ≡ Err WordsError.Refused → ¬ AreTaken (map string_bytes words.entry.now) }
{
    let command = command(alloc)?;
    let matches = command.try_get_matches_from(words)?;
    Ok(matches)
}
