//! The names that a text declares, and the breaches in names, values, shapes, lists and widths.

ghost use Rattle.std.specs.Prelude.{◌≡◌, List, [], map, fold, IfOk, OnOk};
ghost use Rattle.std.specs.List.{flat_map};
ghost use Rattle.hpf_syntax.specs.Plain.{item_tree};
ghost use Rattle.hpf_map.specs.Declarations.{threaded, no_dimensions, names_after, declaration_breaches};
ghost use Rattle.hpf_map.specs.Found.{least_with};
ghost use Rattle.hpf_map.specs.Layers.{names_of, ordered_breaches, breaches_in, judged, Judges};
ghost use Rattle.hpf_map.specs.Lines.{all_lines, statement_line};
ghost use Rattle.hpf_map.specs.ShadowWidths.{all_shadow_widths, statement_shadow};
ghost use Rattle.hpf_map.specs.Subscripts.{all_subscripts, statement_subscripts};
ghost use Rattle.hpf_map.specs.Uses.{item_use_breaches};
ghost use Rattle.hpf_map.specs.Widths.{all_widths, statement_widths};

use crate::breaches::Breaches;
use crate::constants::declare_constants;
use crate::declare::{common_limit, declare_all, dimensions};
use crate::directives::{Said, read_directive};
use crate::format_widths::FormatWidths;
use crate::lines::Line;
use crate::lists::add_found;
use crate::name::{Dimensions, Shape, Space};
use crate::names::Names;
use crate::scope::Scope;
use crate::shadow_widths::ShadowWidths;
use crate::shapes::MAX_EXTENT;
use crate::subscripts::Subscripts;
use crate::uses::test_item;
use hpf_lex::MapError;
use hpf_syntax::{Bound, Constant, Declared, Item, Items};
use std::alloc::{AllocError, Global};

/// No common bounds.
fn no_dimensions(alloc: Global) -> Dimensions
    ensures { result ≡ no_dimensions }
{
    Dimensions {
        count: 0,
        shape: Some(Shape::new(Vec::new(alloc))),
    }
}

/// Declares what a statement declares, and takes in the breaches in it.
#[tactic(auto, using(crate::proofs::FoundLemmas::least_with_laws), unfolding(crate::specs::Declarations::names_after, crate::specs::Declarations::declaration_breaches))]
fn declare_item(
    alloc: Global,
    names: &mut Names,
    item: &Item,
    breaches: &mut Breaches,
) -> Result<(), AllocError>
    ensures names { OnOk result (names.new ≡ names_after names.old (item_tree item.now)) }
    ensures breaches { OnOk result (breaches.new ≡ least_with breaches.old
        (declaration_breaches names.old (item_tree item.now))) }
{
    match item {
        Item::Variables {
            common,
            names: list,
        } => {
            let list = list.as_slice();
            let limit = common_limit(list);
            let bounds = dimensions(
                alloc,
                &Scope::behind(names),
                limit,
                common.as_slice(),
                breaches,
            )?;
            declare_all(alloc, names, Space::Array, &bounds, list, breaches)
        }
        Item::Constants {
            common,
            names: list,
        } => {
            let bounds = dimensions(
                alloc,
                &Scope::behind(names),
                MAX_EXTENT,
                common.as_slice(),
                breaches,
            )?;
            declare_constants(alloc, names, &bounds, list.as_slice(), breaches)
        }
        Item::Processors(list) => {
            let bounds = no_dimensions(alloc);
            declare_all(
                alloc,
                names,
                Space::Arrangement,
                &bounds,
                list.as_slice(),
                breaches,
            )
        }
        Item::Template(list) => {
            let bounds = no_dimensions(alloc);
            declare_all(
                alloc,
                names,
                Space::Template,
                &bounds,
                list.as_slice(),
                breaches,
            )
        }
        Item::ImplicitNone(_)
        | Item::Distribute { .. }
        | Item::Align { .. }
        | Item::Shadow { .. }
        | Item::Input { .. }
        | Item::Stage { .. } => Ok(()),
    }
}

/// Reads a statement behind others: its expressions, of which it gives what they say, and then what it declares.
#[tactic(auto, using(crate::proofs::FoundLemmas::least_with_laws), unfolding(crate::specs::Layers::ordered_breaches))]
fn read_item(
    alloc: Global,
    names: &mut Names,
    item: &Item,
    breaches: &mut Breaches,
) -> Result<Said, AllocError>
    ensures names { OnOk result (names.new ≡ names_after names.old (item_tree item.now)) }
    ensures subscripts { IfOk result (λ s. s.subscripts ≡ statement_subscripts names.old (item_tree item.now)) }
    ensures widths { IfOk result (λ s. s.widths ≡ statement_widths names.old (item_tree item.now)) }
    ensures shadow { IfOk result (λ s. s.shadow ≡ statement_shadow names.old (item_tree item.now)) }
    ensures line { IfOk result (λ s. s.line ≡ statement_line names.old (item_tree item.now)) }
    ensures breaches { OnOk result (breaches.new ≡ least_with breaches.old
        (ordered_breaches names.old (item_tree item.now))) }
{
    let said = read_directive(alloc, &Scope::behind(names), item, breaches)?;
    declare_item(alloc, names, item, breaches)?;
    Ok(said)
}

/// What statements declare, what the subscripts of each say, the widths in its formats and of its shadow, and what the lines
/// of a pipeline say.
#[derive(Drop)]
pub(crate) struct Statements {
    pub names: Names,
    pub said: Vec<Option<Subscripts>>,
    pub widths: Vec<Option<FormatWidths>>,
    pub shadows: Vec<Option<ShadowWidths>>,
    pub lines: Vec<Line>,
}

/// Reads statements one after another.
#[tactic(auto, using(crate::proofs::FoundLemmas::least_with_laws), unfolding(crate::specs::Subscripts::all_subscripts, crate::specs::Widths::all_widths, crate::specs::ShadowWidths::all_shadow_widths, crate::specs::Lines::all_lines))]
fn read_items(
    alloc: Global,
    items: &[Item],
    breaches: &mut Breaches,
) -> Result<Statements, AllocError>
    ensures names { IfOk result (λ s. s.names ≡ fold names_after [] (map item_tree items.now)) }
    ensures said { IfOk result (λ s. s.said.items ≡ all_subscripts (map item_tree items.now)) }
    ensures widths { IfOk result (λ s. s.widths.items ≡ all_widths (map item_tree items.now)) }
    ensures shadows { IfOk result (λ s. s.shadows.items ≡ all_shadow_widths (map item_tree items.now)) }
    ensures lines { IfOk result (λ s. s.lines.items ≡ all_lines (map item_tree items.now)) }
    ensures breaches { OnOk result (breaches.new ≡ least_with breaches.old
        (threaded names_after ordered_breaches [] (map item_tree items.now))) }
{
    let mut names = Names::new(alloc);
    let mut said = Vec::new(alloc);
    let mut widths = Vec::new(alloc);
    let mut shadows = Vec::new(alloc);
    let mut lines = Vec::new(alloc);
    for item in items {
        let read = read_item(alloc, &mut names, item, breaches)?;
        said.push(read.subscripts)?;
        widths.push(read.widths)?;
        shadows.push(read.shadow)?;
        add_found(&mut lines, read.line)?;
    }
    Ok(Statements {
        names,
        said,
        widths,
        shadows,
        lines,
    })
}

/// The names that directives and pipeline lines use.
#[tactic(auto, using(crate::proofs::FoundLemmas::least_with_laws))]
fn test_items(names: &Names, items: &[Item], breaches: &mut Breaches)
    ensures { breaches.new ≡ least_with breaches.old
        (flat_map (item_use_breaches names.now) (map item_tree items.now)) }
{
    for item in items {
        test_item(names, item, breaches);
    }
}

/// What statements declare, and what their subscripts and widths say. The breaches in names, values, shapes, lists and widths are
/// taken in.
#[tactic(auto, using(crate::proofs::FoundLemmas::least_with_laws), unfolding(crate::specs::Layers::names_of, crate::specs::Layers::breaches_in))]
pub(crate) fn read_statements(
    alloc: Global,
    items: &[Item],
    breaches: &mut Breaches,
) -> Result<Statements, AllocError>
    ensures names { IfOk result (λ s. s.names ≡ names_of (map item_tree items.now)) }
    ensures said { IfOk result (λ s. s.said.items ≡ all_subscripts (map item_tree items.now)) }
    ensures widths { IfOk result (λ s. s.widths.items ≡ all_widths (map item_tree items.now)) }
    ensures shadows { IfOk result (λ s. s.shadows.items ≡ all_shadow_widths (map item_tree items.now)) }
    ensures lines { IfOk result (λ s. s.lines.items ≡ all_lines (map item_tree items.now)) }
    ensures breaches { OnOk result (breaches.new ≡ least_with breaches.old
        (breaches_in (map item_tree items.now))) }
{
    let statements = read_items(alloc, items, breaches)?;
    test_items(&statements.names, items, breaches);
    Ok(statements)
}

/// The names that a text declares, each with what its first declaration makes it. The text is refused where one of its
/// names, values, shapes, lists or widths breaks a constraint, with the breach that comes first by line, column and code.
#[tactic(auto, unfolding(crate::specs::Found::least_with))]
pub fn declared_names(alloc: Global, items: &Items) -> Result<Names, MapError>
    // A text without a breach has exactly its names, and any other has exactly its first breach.
    ensures { Judges result (judged (map item_tree items.now)) }
{
    let mut breaches = Breaches::new();
    let statements = read_statements(alloc, items.as_slice(), &mut breaches)?;
    match breaches.least() {
        None => Ok(statements.names),
        Some(first) => Err(MapError::Refused(first)),
    }
}
