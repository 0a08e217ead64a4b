//! Names, arguments and other pieces of statements.

ghost use Rattle.std.specs.Prelude.{◌≡◌, List, map, option_map};
ghost use Rattle.hpf_syntax.specs.Plain.{Tree, tree};
ghost use Rattle.hpf_syntax.specs.Reading.{Gives, rest_of, first_place};
ghost use Rattle.hpf_syntax.specs.Partial.{expression_at, max_expression};
ghost use Rattle.hpf_syntax.specs.Statements.{first_word, name_at, argument_at, name_argument_at, colon_at, maybe_list_at};
ghost use Rattle.hpf_syntax.specs.declared.tree.Spot.{Spot};

use crate::expression::{expression, place};
use crate::list::List;
use crate::rule::{Rule, behind, enclosed, take};
use crate::stop::{Fault, Stop, bad};
use crate::terminal::{Terminal, begins};
use crate::tree::{At, Expr, Spot};
use hpf_lex::{Token, Word};
use std::alloc::Global;

/// Where the first token stands.
pub(crate) fn first_place(tokens: &[Token]) -> At
    ensures { result ≡ first_place tokens.now }
{
    match tokens.first() {
        Some(token) => place(token),
        None => At { line: 0, column: 0 },
    }
}

/// The word of the first token.
fn first_word(tokens: &[Token]) -> Word
    ensures { result ≡ first_word tokens.now }
{
    match tokens.first() {
        Some(token) => token.word,
        None => Word::empty(),
    }
}

/// The first token as a name.
#[tactic(auto, unfolding(crate::specs::Statements::name_at))]
pub(crate) fn name(tokens: &[Token]) -> Result<Spot, Stop>
    ensures { Gives (λ spot. (spot, rest_of tokens.now)) result (name_at tokens.now) }
{
    if begins(Terminal::Name, tokens) {
        Ok(Spot {
            word: first_word(tokens),
            at: first_place(tokens),
        })
    } else {
        Err(bad(Fault::Syntax, tokens))
    }
}

/// The rule of a name.
pub(crate) struct NameRule;

impl Rule for NameRule {
    type Value = Spot;

    ghost Tree = { Spot };

    ghost tree = { λ x. x };

    ghost reading = { name_at };

    fn read(_alloc: Global, tokens: &[Token]) -> Result<(Spot, &[Token]), Stop> {
        Ok((name(tokens)?, behind(tokens)))
    }
}

/// The rule of an expression.
pub(crate) struct ExpressionRule;

impl Rule for ExpressionRule {
    type Value = Expr;

    ghost Tree = { Tree };

    ghost tree = { tree };

    ghost reading = { expression_at max_expression };

    fn read(alloc: Global, tokens: &[Token]) -> Result<(Expr, &[Token]), Stop> {
        expression(alloc, tokens)
    }
}

/// An expression in parentheses.
#[tactic(auto, unfolding(crate::specs::Statements::argument_at))]
pub(crate) fn argument(alloc: Global, tokens: &[Token]) -> Result<(Expr, &[Token]), Stop>
    ensures { Gives (λ x. (tree x.0, x.1.now)) result (argument_at max_expression tokens.now) }
{
    let inside = take(Terminal::LeftParen, tokens)?;
    let (value, rest) = expression(alloc, inside)?;
    let rest = take(Terminal::RightParen, rest)?;
    Ok((value, rest))
}

/// A name in parentheses.
#[tactic(auto, unfolding(crate::specs::Statements::name_argument_at))]
pub(crate) fn name_argument(tokens: &[Token]) -> Result<(Spot, &[Token]), Stop>
    ensures { Gives (λ x. (x.0, x.1.now)) result (name_argument_at tokens.now) }
{
    let inside = take(Terminal::LeftParen, tokens)?;
    let spot = name(inside)?;
    let rest = take(Terminal::RightParen, behind(inside))?;
    Ok((spot, rest))
}

/// An expression behind a colon, if there is a colon.
#[tactic(auto, unfolding(crate::specs::Statements::colon_at))]
pub(crate) fn colon(alloc: Global, tokens: &[Token]) -> Result<(Option<Expr>, &[Token]), Stop>
    ensures { Gives (λ x. (option_map tree x.0, x.1.now)) result (colon_at max_expression tokens.now) }
{
    if begins(Terminal::Colon, tokens) {
        let (value, rest) = expression(alloc, behind(tokens))?;
        Ok((Some(value), rest))
    } else {
        Ok((None, tokens))
    }
}

/// A list in parentheses, if it stands there.
#[tactic(auto, unfolding(crate::specs::Statements::maybe_list_at))]
pub(crate) fn maybe_list<R: Rule>(
    alloc: Global,
    tokens: &[Token],
) -> Result<(Option<List<R::Value>>, &[Token]), Stop>
    ensures { Gives (λ x. (option_map (map R.tree) x.0, x.1.now)) result (maybe_list_at R.reading tokens.now) }
{
    if !begins(Terminal::LeftParen, tokens) {
        return Ok((None, tokens));
    }
    let (list, rest) = enclosed::<R>(alloc, Terminal::LeftParen, Terminal::RightParen, tokens)?;
    Ok((Some(list), rest))
}
