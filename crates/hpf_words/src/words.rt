//! The words of the command line.

ghost use Rattle.std.specs.Prelude.{◌≡◌, List, ℕ, map, string_bytes, Err, IfOk, IfSome, IfNone};
ghost use Rattle.clap.specs.Words.{found_of, rows_of};
ghost use Rattle.hpf_words.specs.declared.asked.Asked.{Asked};
ghost use Rattle.hpf_words.specs.declared.refusal.WordsError.{WordsError};
ghost use Rattle.hpf_words.specs.Given.{HasNumbers};
ghost use Rattle.hpf_words.specs.Table.{IsInRange};
ghost use Rattle.hpf_words.specs.Words.{AsksFor, IsFound};

use crate::asked::CommandLine;
use crate::given::given_in;
use crate::matches::parse;
use crate::refusal::WordsError;
use crate::table::asked;
use clap::ArgMatches;
use std::alloc::Global;

/// What the words ask for. The first of them is the program's name. They are refused exactly where they ask for nothing.
pub fn read_words<'a>(alloc: Global, words: &'a [String]) -> Result<CommandLine<'a>, WordsError>
    ensures asks { IfOk result (λ line. AsksFor (map string_bytes words.entry.now) line.asked line.map.now) }
    ensures in_range { IfOk result (λ line. IsInRange line.asked) }
    ensures refused { result ≡ Err WordsError.Refused → (asked : Asked) (name : List ℕ) → ¬ AsksFor (map string_bytes words.entry.now) asked name }
{
    let matches = parse(alloc, words)?;
    match line_in(&matches) {
        Some(line) => Ok(line),
        None => Err(WordsError::Refused),
    }
}

/// What the matches ask for.
fn line_in<'a>(matches: &ArgMatches<'a>) -> Option<CommandLine<'a>>
    requires { HasNumbers (found_of matches.now) }
    ensures found { IfSome result (λ line. IsFound (rows_of (found_of matches.now)) line.asked line.map.now) }
    ensures in_range { IfSome result (λ line. IsInRange line.asked) }
    ensures none { IfNone result ((asked : Asked) (name : List ℕ) → ¬ IsFound (rows_of (found_of matches.now)) asked name) }
{
    let action = matches.get_str("ACTION")?;
    let map = matches.get_str("MAP")?;
    match asked(action, given_in(matches)) {
        Some(asked) => Some(CommandLine { asked, map }),
        None => None,
    }
}
