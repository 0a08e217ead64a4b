//! From tokens to statements.

ghost use Rattle.std.specs.Prelude.{◌≡◌, List, map, IfOk};
ghost use Rattle.hpf_lex.specs.declared.refusal.MapRefusal.{MapRefusal};
ghost use Rattle.hpf_lex.specs.Text.{IfRefused, IsRefused};
ghost use Rattle.hpf_syntax.specs.Plain.{ItemTree, item_tree};
ghost use Rattle.hpf_syntax.specs.Partial.{max_expression};
ghost use Rattle.hpf_syntax.specs.Reading.{Gives};
ghost use Rattle.hpf_syntax.specs.Statements.{line_at, statement_at, statements_at, text_at};
ghost use Rattle.hpf_syntax.specs.Refusal.{refusal_of, Refuses, IsRead};
ghost use Rattle.hpf_syntax.specs.FirstFault.{code_of, SpellsShortly, IsRefusalOf};

use crate::declare::fortran;
use crate::directive::directive;
use crate::list::Items;
use crate::pieces::first_place;
use crate::pipeline::pipeline;
use crate::rule::{behind, take};
use crate::stop::{BadToken, Fault, Stop};
use crate::terminal::{Terminal, begins};
use crate::tree::Item;
use hpf_lex::{MapError, MapRefusal, Token, Tokens};
use std::alloc::Global;

/// A statement without its end.
#[tactic(auto, unfolding(crate::specs::Statements::line_at))]
fn line(alloc: Global, tokens: &[Token]) -> Result<(Item, &[Token]), Stop>
    ensures { Gives (λ x. (item_tree x.0, x.1.now)) result (line_at max_expression tokens.now) }
{
    if begins(Terminal::Hpf, tokens) {
        directive(alloc, behind(tokens))
    } else if begins(Terminal::Pipe, tokens) {
        pipeline(alloc, behind(tokens))
    } else {
        fortran(alloc, tokens)
    }
}

/// A statement and its end.
#[tactic(auto, unfolding(crate::specs::Statements::statement_at))]
fn statement(alloc: Global, tokens: &[Token]) -> Result<(Item, &[Token]), Stop>
    ensures { Gives (λ x. (item_tree x.0, x.1.now)) result (statement_at max_expression tokens.now) }
{
    let (item, rest) = line(alloc, tokens)?;
    let rest = take(Terminal::End, rest)?;
    Ok((item, rest))
}

/// The statements of a whole text.
#[tactic(auto, unfolding(crate::specs::Statements::text_at))]
fn text(alloc: Global, tokens: &[Token]) -> Result<Items, Stop>
    ensures { Gives (λ items. map item_tree items) result (text_at max_expression tokens.now) }
{
    let mut items = Items::new(alloc);
    let mut rest = tokens;
    for _ in 0..tokens.len() {
        if rest.is_empty() {
            break;
        }
        let (item, behind) = statement(alloc, rest)?;
        items.push(item)?;
        rest = behind;
    }
    Ok(items)
}

/// The code of a fault.
fn code(fault: Fault) -> u8
    ensures { result ≡ code_of fault }
{
    match fault {
        Fault::Syntax => 10,
        Fault::LongExpression => 11,
    }
}

/// A token that is refused, with its code and place.
fn refusal(tokens: &[Token], bad: BadToken) -> MapRefusal
    ensures { result ≡ refusal_of tokens.now bad }
{
    let from = tokens.len().saturating_sub(bad.left);
    let at = first_place(&tokens[from..]);
    MapRefusal {
        code: code(bad.fault),
        line: at.line,
        column: at.column,
    }
}

/// The statements of a text, or the first token that is refused.
fn parse_slice(alloc: Global, tokens: &[Token]) -> Result<Items, MapError>
    ensures { Refuses (λ items. map item_tree items) tokens.now result (text_at max_expression tokens.now) }
{
    match text(alloc, tokens) {
        Ok(items) => Ok(items),
        Err(Stop::Bad(bad)) => Err(MapError::Refused(refusal(tokens, bad))),
        Err(Stop::Memory(e)) => Err(MapError::Memory(e)),
    }
}

/// The statements of a text. A text is refused with code 10 at the first token with which no text of the grammar begins
/// as this one does, and with code 11 at the 65th token of an expression, whichever comes first.
pub fn parse(alloc: Global, tokens: &Tokens) -> Result<Items, MapError>
    // What is read is in the grammar, and no expression has more than 64 tokens.
    ensures found { IfOk result (λ items. SpellsShortly tokens.now (map item_tree items)) }
    // What is in the grammar so is read, with these statements and no others.
    ensures only { (trees : List ItemTree) → SpellsShortly tokens.now trees → IsRead result trees }
    // What is refused is refused at the first fault.
    ensures refused { IfRefused result (IsRefusalOf tokens.now) }
    // What has a first fault is refused at it.
    ensures only_fault { (r : MapRefusal) → IsRefusalOf tokens.now r → IsRefused result r }
{
    parse_slice(alloc, tokens.as_slice())
}
