//! Directives.

ghost use Rattle.std.specs.Prelude.{◌≡◌, ◌≢◌, ◌∷◌, length, MatchOption, [], List, map, option_map, codes, ◌++◌, OnOk};
ghost use Rattle.hpf_syntax.specs.Plain.{declared_tree, FormatTree, SubTree, WidthTree, tree, format_tree, sub_tree, width_tree};
ghost use Rattle.hpf_syntax.specs.Canonical.{listed, declared_text, name_text, optional, argument_text, format_text, source_text, sub_text, width_text, formats_text, sources_text, subs_text, onto_text, with_text, widths_text, of_names};
ghost use Rattle.hpf_syntax.specs.declared.tree.SourceItem.{SourceItem};

use crate::list::List;
use crate::printed::Printed;
use crate::printer::expression::{argument, behind_colon, expression, maybe};
use crate::printer::piece::{Piece, enclosed, listed, name_argument};
use crate::tree::{Declared, Expr, FormatItem, SourceItem, Spot, SubItem, WidthItem};
use std::alloc::AllocError;

/// Processor arrangements.
pub(crate) fn processors(out: &mut Printed, names: &[Declared]) -> Result<(), AllocError>
    ensures { OnOk result (out.new ≡ out.old ++ (codes "!HPF$ PROCESSORS " ++ listed declared_text (map declared_tree names.now))) }
{
    out.put(b"!HPF$ PROCESSORS ")?;
    listed(out, names)
}

/// Templates.
pub(crate) fn template(out: &mut Printed, names: &[Declared]) -> Result<(), AllocError>
    ensures { OnOk result (out.new ≡ out.old ++ (codes "!HPF$ TEMPLATE " ++ listed declared_text (map declared_tree names.now))) }
{
    out.put(b"!HPF$ TEMPLATE ")?;
    listed(out, names)
}

/// An expression in parentheses, if there is one.
fn block_size(out: &mut Printed, e: &Option<Expr>) -> Result<(), AllocError>
    ensures { OnOk result (out.new ≡ out.old ++ optional [] argument_text (option_map tree e.now)) }
{
    match e {
        Some(e) => argument(out, e),
        None => Ok(()),
    }
}

impl Piece for FormatItem {
    ghost Tree = { FormatTree };

    ghost tree = { format_tree };

    ghost text = { format_text };

    fn print(&self, out: &mut Printed) -> Result<(), AllocError> {
        match self {
            FormatItem::Star(_) => out.put(b"*"),
            FormatItem::Block(_, size) => {
                out.put(b"BLOCK")?;
                block_size(out, size)
            }
            FormatItem::Cyclic(_, size) => {
                out.put(b"CYCLIC")?;
                block_size(out, size)
            }
            FormatItem::GenBlock(_, name) => {
                out.put(b"GEN_BLOCK")?;
                name_argument(out, name)
            }
            FormatItem::Indirect(_, name) => {
                out.put(b"INDIRECT")?;
                name_argument(out, name)
            }
        }
    }
}

impl Piece for SourceItem {
    ghost Tree = { SourceItem };

    ghost tree = { λ x. x };

    ghost text = { source_text };

    fn print(&self, out: &mut Printed) -> Result<(), AllocError> {
        match self {
            SourceItem::Colon(_) => out.put(b":"),
            SourceItem::Star(_) => out.put(b"*"),
            SourceItem::Dummy(name) => name.print(out),
        }
    }
}

impl Piece for SubItem {
    ghost Tree = { SubTree };

    ghost tree = { sub_tree };

    ghost text = { sub_text };

    fn print(&self, out: &mut Printed) -> Result<(), AllocError> {
        match self {
            SubItem::Star(_) => out.put(b"*"),
            SubItem::Value(e) => expression(out, e),
            SubItem::Triplet {
                low,
                high,
                step,
                ..
            } => {
                maybe(out, low)?;
                out.put(b":")?;
                maybe(out, high)?;
                behind_colon(out, step)
            }
        }
    }
}

impl Piece for WidthItem {
    ghost Tree = { WidthTree };

    ghost tree = { width_tree };

    ghost text = { width_text };

    fn print(&self, out: &mut Printed) -> Result<(), AllocError> {
        expression(out, &self.low)?;
        behind_colon(out, &self.high)
    }
}

/// An arrangement behind ONTO, if there is one.
fn arrangement(out: &mut Printed, name: &Option<Spot>) -> Result<(), AllocError>
    ensures { OnOk result (out.new ≡ out.old ++ onto_text name.now) }
{
    match name {
        Some(name) => {
            out.put(b" ONTO ")?;
            name.print(out)
        }
        None => Ok(()),
    }
}

/// Subscripts in parentheses, if there are some.
fn subscript_list(out: &mut Printed, subs: &Option<List<SubItem>>) -> Result<(), AllocError>
    ensures { OnOk result (out.new ≡ out.old ++ subs_text (option_map (map sub_tree) subs.now)) }
{
    match subs {
        Some(list) => enclosed(out, list.as_slice()),
        None => Ok(()),
    }
}

/// What an alignee is aligned with.
fn target(out: &mut Printed, base: &Spot, subs: &Option<List<SubItem>>) -> Result<(), AllocError>
    ensures { OnOk result (out.new ≡ out.old ++ with_text base.now (option_map (map sub_tree) subs.now)) }
{
    out.put(b" WITH ")?;
    base.print(out)?;
    subscript_list(out, subs)
}

/// Sources in parentheses behind what announces them, if there are some.
fn source_list(
    out: &mut Printed,
    before: &[u8],
    sources: &Option<List<SourceItem>>,
) -> Result<(), AllocError>
    ensures { OnOk result (out.new ≡ out.old ++ sources_text before.now sources.now) }
{
    match sources {
        Some(list) => {
            out.put(before)?;
            enclosed(out, list.as_slice())
        }
        None => Ok(()),
    }
}

/// Several names behind two colons.
fn colons_names(out: &mut Printed, names: &[Spot]) -> Result<(), AllocError>
    ensures { OnOk result (out.new ≡ out.old ++ (codes " :: " ++ listed name_text names.now)) }
{
    out.put(b" :: ")?;
    listed(out, names)
}

/// Formats, and the arrangement if there is one.
fn distribution(
    out: &mut Printed,
    formats: &[FormatItem],
    onto: &Option<Spot>,
) -> Result<(), AllocError>
    ensures { OnOk result (out.new ≡ out.old ++ (formats_text (map format_tree formats.now) ++ onto_text onto.now)) }
{
    enclosed(out, formats)?;
    arrangement(out, onto)
}

/// A name that stands alone in its list.
fn only(names: &[Spot]) -> Option<&Spot>
    ensures { MatchOption result (length names.now ≢ 1) (λ name. names.now ≡ name.now ∷ []) }
{
    match names {
        [name] => Some(name),
        _ => None,
    }
}

/// How names are distributed.
pub(crate) fn distribute(
    out: &mut Printed,
    names: &[Spot],
    formats: &[FormatItem],
    onto: &Option<Spot>,
) -> Result<(), AllocError>
    ensures { let said = formats_text (map format_tree formats.now) ++ onto_text onto.now in
        OnOk result (out.new ≡ out.old ++ (codes "!HPF$ DISTRIBUTE" ++ of_names names.now said (codes " " ++ said))) }
{
    out.put(b"!HPF$ DISTRIBUTE ")?;
    match only(names) {
        Some(name) => {
            name.print(out)?;
            distribution(out, formats, onto)
        }
        None => {
            distribution(out, formats, onto)?;
            colons_names(out, names)
        }
    }
}

/// How names are aligned.
pub(crate) fn align(
    out: &mut Printed,
    names: &[Spot],
    sources: &Option<List<SourceItem>>,
    base: &Spot,
    subs: &Option<List<SubItem>>,
) -> Result<(), AllocError>
    ensures { let said = with_text base.now (option_map (map sub_tree) subs.now) in
        OnOk result (out.new ≡ out.old ++ (codes "!HPF$ ALIGN"
        ++ of_names names.now (sources_text (codes "") sources.now ++ said) (sources_text (codes " ") sources.now ++ said))) }
{
    out.put(b"!HPF$ ALIGN")?;
    match only(names) {
        Some(name) => {
            out.put(b" ")?;
            name.print(out)?;
            source_list(out, b"", sources)?;
            target(out, base, subs)
        }
        None => {
            source_list(out, b" ", sources)?;
            target(out, base, subs)?;
            colons_names(out, names)
        }
    }
}

/// The shadow widths of names.
pub(crate) fn shadow(
    out: &mut Printed,
    names: &[Spot],
    widths: &[WidthItem],
) -> Result<(), AllocError>
    ensures { let said = widths_text (map width_tree widths.now) in
        OnOk result (out.new ≡ out.old ++ (codes "!HPF$ SHADOW" ++ of_names names.now said (codes " " ++ said))) }
{
    out.put(b"!HPF$ SHADOW ")?;
    match only(names) {
        Some(name) => {
            name.print(out)?;
            enclosed(out, widths)
        }
        None => {
            enclosed(out, widths)?;
            colons_names(out, names)
        }
    }
}
