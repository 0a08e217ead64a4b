//! Pipeline statements: INPUT and STAGE.

ghost use Rattle.std.specs.Prelude.{◌≡◌, map, option_map};
ghost use Rattle.hpf_syntax.specs.Plain.{op_tree, item_tree, tree};
ghost use Rattle.hpf_syntax.specs.Partial.{max_expression};
ghost use Rattle.hpf_syntax.specs.Reading.{Gives};
ghost use Rattle.hpf_syntax.specs.Statements.{buffers_at, stencil_at, operation_at, permute_at, input_at, stage_at, pipeline_at};

use crate::declare::array;
use crate::expression::expression;
use crate::list::List;
use crate::pieces::{ExpressionRule, argument, first_place, name};
use crate::rule::{behind, enclosed, take};
use crate::stop::Stop;
use crate::terminal::{Terminal, begins};
use crate::tree::{At, Expr, Item, OpItem};
use hpf_lex::Token;
use std::alloc::Global;

/// BUFFERS, if it is there.
#[tactic(auto, unfolding(crate::specs::Statements::buffers_at))]
fn buffers(alloc: Global, tokens: &[Token]) -> Result<(Option<Expr>, &[Token]), Stop>
    ensures { Gives (λ x. (option_map tree x.0, x.1.now)) result (buffers_at max_expression tokens.now) }
{
    if begins(Terminal::Buffers, tokens) {
        let (count, rest) = argument(alloc, behind(tokens))?;
        Ok((Some(count), rest))
    } else {
        Ok((None, tokens))
    }
}

/// What stands behind STENCIL.
#[tactic(auto, unfolding(crate::specs::Statements::stencil_at))]
fn stencil(alloc: Global, at: At, tokens: &[Token]) -> Result<(OpItem, &[Token]), Stop>
    ensures { Gives (λ x. (op_tree x.0, x.1.now)) result (stencil_at max_expression at tokens.now) }
{
    let inside = take(Terminal::LeftParen, tokens)?;
    let (dimension, rest) = expression(alloc, inside)?;
    let rest = take(Terminal::Comma, rest)?;
    let (weights, rest) = array(alloc, rest)?;
    let rest = take(Terminal::RightParen, rest)?;
    Ok((OpItem::Stencil(at, dimension, weights), rest))
}

/// An operation, if there is one.
#[tactic(auto, unfolding(crate::specs::Statements::operation_at))]
fn operation(alloc: Global, tokens: &[Token]) -> Result<(OpItem, &[Token]), Stop>
    ensures { Gives (λ x. (op_tree x.0, x.1.now)) result (operation_at max_expression tokens.now) }
{
    let at = first_place(tokens);
    if begins(Terminal::Add, tokens) {
        let (value, rest) = argument(alloc, behind(tokens))?;
        Ok((OpItem::Add(at, value), rest))
    } else if begins(Terminal::Mul, tokens) {
        let (value, rest) = argument(alloc, behind(tokens))?;
        Ok((OpItem::Mul(at, value), rest))
    } else if begins(Terminal::Prefix, tokens) {
        let (value, rest) = argument(alloc, behind(tokens))?;
        Ok((OpItem::Prefix(at, value), rest))
    } else if begins(Terminal::Stencil, tokens) {
        stencil(alloc, at, behind(tokens))
    } else {
        Ok((OpItem::Plain, tokens))
    }
}

/// PERMUTE, if it is there.
#[tactic(auto, unfolding(crate::specs::Statements::permute_at))]
fn permute(alloc: Global, tokens: &[Token]) -> Result<(Option<List<Expr>>, &[Token]), Stop>
    ensures { Gives (λ x. (option_map (map tree) x.0, x.1.now)) result (permute_at max_expression tokens.now) }
{
    if begins(Terminal::Permute, tokens) {
        let (list, rest) = enclosed::<ExpressionRule>(
            alloc,
            Terminal::LeftParen,
            Terminal::RightParen,
            behind(tokens),
        )?;
        Ok((Some(list), rest))
    } else {
        Ok((None, tokens))
    }
}

/// What stands behind INPUT.
#[tactic(auto, unfolding(crate::specs::Statements::input_at))]
fn input(alloc: Global, at: At, tokens: &[Token]) -> Result<(Item, &[Token]), Stop>
    ensures { Gives (λ x. (item_tree x.0, x.1.now)) result (input_at max_expression at tokens.now) }
{
    let name = name(tokens)?;
    let (buffers, rest) = buffers(alloc, behind(tokens))?;
    let (op, rest) = operation(alloc, rest)?;
    let item = Item::Input {
        at,
        name,
        buffers,
        op,
    };
    Ok((item, rest))
}

/// What stands behind STAGE.
#[tactic(auto, unfolding(crate::specs::Statements::stage_at))]
fn stage(alloc: Global, at: At, tokens: &[Token]) -> Result<(Item, &[Token]), Stop>
    ensures { Gives (λ x. (item_tree x.0, x.1.now)) result (stage_at max_expression at tokens.now) }
{
    let name = name(tokens)?;
    let (permute, rest) = permute(alloc, behind(tokens))?;
    let (buffers, rest) = buffers(alloc, rest)?;
    let (op, rest) = operation(alloc, rest)?;
    let item = Item::Stage {
        at,
        name,
        permute,
        buffers,
        op,
    };
    Ok((item, rest))
}

/// A pipeline statement, behind its prefix.
#[tactic(auto, unfolding(crate::specs::Statements::pipeline_at))]
pub(crate) fn pipeline(alloc: Global, tokens: &[Token]) -> Result<(Item, &[Token]), Stop>
    ensures { Gives (λ x. (item_tree x.0, x.1.now)) result (pipeline_at max_expression tokens.now) }
{
    let at = first_place(tokens);
    if begins(Terminal::Input, tokens) {
        input(alloc, at, behind(tokens))
    } else {
        let rest = take(Terminal::Stage, tokens)?;
        stage(alloc, at, rest)
    }
}
