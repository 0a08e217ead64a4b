//! Rules of the grammar, and lists of what they read.

ghost use Rattle.std.specs.Prelude.{◌≡◌, map, length, List, Result};
ghost use Rattle.hpf_syntax.specs.Reading.{Gives, Reading, rest_of, first_place, take_at, separated_at, more_at, enclosed_at};

use crate::list::List;
use crate::stop::{Fault, Stop, bad};
use crate::terminal::{Terminal, begins};
use hpf_lex::Token;
use std::alloc::Global;

/// A rule of the grammar, which reads a value from the front of a list of tokens, and gives the tokens behind it.
pub(crate) trait Rule {
    type Value: Drop;

    ghost Tree: { Type 0 };

    ghost tree: { Self.Value → Tree };

    ghost reading: { Reading Tree };

    fn read(alloc: Global, tokens: &[Token]) -> Result<(Self::Value, &[Token]), Stop>
        ensures { Gives (λ x. (tree x.0, x.1.now)) result (reading tokens.now) };
}

/// This token. What is given are the tokens behind it.
#[tactic(auto, unfolding(crate::specs::Reading::take_at))]
pub(crate) fn take(wanted: Terminal, tokens: &[Token]) -> Result<&[Token], Stop>
    ensures { Gives (λ rest. (first_place tokens.now, rest.now)) result (take_at wanted tokens.now) }
{
    if begins(wanted, tokens) {
        Ok(behind(tokens))
    } else {
        Err(bad(Fault::Syntax, tokens))
    }
}

/// The tokens behind the first.
pub(crate) fn behind(tokens: &[Token]) -> &[Token]
    ensures { result.now ≡ rest_of tokens.now }
{
    match tokens {
        [] => tokens,
        [_, rest @ ..] => rest,
    }
}

/// One or more values of a rule, with commas between them.
#[tactic(auto, unfolding(crate::specs::Reading::separated_at))]
pub(crate) fn separated<R: Rule>(
    alloc: Global,
    tokens: &[Token],
) -> Result<(List<R::Value>, &[Token]), Stop>
    ensures { Gives (λ x. (map R.tree x.0, x.1.now)) result (separated_at R.reading tokens.now) }
{
    let (first, rest) = R::read(alloc, tokens)?;
    let list = List::of_one(alloc, first)?;
    more::<R>(alloc, list, rest)
}

/// More values behind those of the list, each behind a comma.
fn more<R: Rule>(
    alloc: Global,
    mut list: List<R::Value>,
    tokens: &[Token],
) -> Result<(List<R::Value>, &[Token]), Stop>
    ensures { Gives (λ x. (map R.tree x.0, x.1.now)) result
        (more_at R.reading (length tokens.now) (map R.tree list) tokens.now) }
{
    let mut rest = tokens;
    for _ in 0..tokens.len() {
        if !begins(Terminal::Comma, rest) {
            break;
        }
        let (next, behind_next) = R::read(alloc, behind(rest))?;
        list.push(next)?;
        rest = behind_next;
    }
    Ok((list, rest))
}

/// A list of values of a rule between two signs.
#[tactic(auto, unfolding(crate::specs::Reading::enclosed_at))]
pub(crate) fn enclosed<R: Rule>(
    alloc: Global,
    opening: Terminal,
    closing: Terminal,
    tokens: &[Token],
) -> Result<(List<R::Value>, &[Token]), Stop>
    ensures { Gives (λ x. (map R.tree x.0, x.1.now)) result (enclosed_at opening closing R.reading tokens.now) }
{
    let inside = take(opening, tokens)?;
    let (list, rest) = separated::<R>(alloc, inside)?;
    let rest = take(closing, rest)?;
    Ok((list, rest))
}
