//! The canonical text of statements.

ghost use Rattle.std.specs.Prelude.{◌≡◌, ◌≤◌, map, length, ◌++◌, OnOk, IfOk};
ghost use Rattle.hpf_lex.specs.Statement.{max_text};
ghost use Rattle.hpf_syntax.specs.Plain.{item_tree};
ghost use Rattle.hpf_syntax.specs.Canonical.{statement_text, line_text, canonical};
ghost use Rattle.hpf_syntax.specs.Parsed.{IsParsed, IsReadAgain};

mod declare;
mod directive;
mod expression;
mod piece;
mod pipeline;

use crate::list::Items;
use crate::printed::Printed;
use crate::printer::declare::{constants, variables};
use crate::printer::directive::{align, distribute, processors, shadow, template};
use crate::printer::pipeline::{input, stage};
use crate::tree::Item;
use hpf_lex::{numeral, one_line_each, proper_tokens, spelled_token};
use std::alloc::{AllocError, Global};

/// A statement without the end of its line.
fn statement(out: &mut Printed, item: &Item) -> Result<(), AllocError>
    ensures { OnOk result (out.new ≡ out.old ++ statement_text (item_tree item.now)) }
{
    match item {
        Item::ImplicitNone(_) => out.put(b"IMPLICIT NONE"),
        Item::Variables { common, names } => variables(out, common.as_slice(), names.as_slice()),
        Item::Constants { common, names } => constants(out, common.as_slice(), names.as_slice()),
        Item::Processors(names) => processors(out, names.as_slice()),
        Item::Template(names) => template(out, names.as_slice()),
        Item::Distribute {
            names,
            formats,
            onto,
        } => distribute(out, names.as_slice(), formats.as_slice(), onto),
        Item::Align {
            names,
            sources,
            base,
            subs,
        } => align(out, names.as_slice(), sources, base, subs),
        Item::Shadow { names, widths } => shadow(out, names.as_slice(), widths.as_slice()),
        Item::Input {
            name,
            buffers,
            op,
            ..
        } => input(out, name, buffers, op),
        Item::Stage {
            name,
            permute,
            buffers,
            op,
            ..
        } => stage(out, name, permute, buffers, op),
    }
}

/// A statement on a line of its own.
fn line(out: &mut Printed, item: &Item) -> Result<(), AllocError>
    ensures { OnOk result (out.new ≡ out.old ++ line_text (item_tree item.now)) }
{
    statement(out, item)?;
    out.put(b"\n")
}

/// All statements, a line each.
#[tactic(auto, unfolding(crate::specs::Canonical::canonical))]
fn lines(alloc: Global, items: &[Item]) -> Result<Printed, AllocError>
    ensures { IfOk result (λ printed. printed ≡ canonical (map item_tree items.now)) }
{
    let mut out = Printed::new(alloc);
    for item in items {
        line(&mut out, item)?;
    }
    Ok(out)
}

/// The canonical text of statements that `parse` gave: one line for each, with words in upper case, and without blanks
/// and parentheses that it can do without.
pub fn print(alloc: Global, items: &Items) -> Result<Printed, AllocError>
    requires parsed { IsParsed (map item_tree items.now) }
    // What is printed is the canonical text of these statements.
    ensures canonical { IfOk result (λ printed. printed ≡ canonical (map item_tree items.now)) }
    // Where it isn't too long for a text, it is accepted as these statements but for their places, and prints as itself.
    ensures read_again { IfOk result (λ printed. length printed ≤ max_text → IsReadAgain printed (map item_tree items.now)) }
{
    // What is known of texts that are written token by token.
    spelled_token();
    numeral();
    proper_tokens();
    one_line_each();

    lines(alloc, items.as_slice())
}
