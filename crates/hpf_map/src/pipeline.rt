//! The lines of a pipeline.

ghost use Rattle.std.specs.Prelude.{◌≡◌, ◌++◌, List, ◌&&◌, map, drop, OnOk, IfOk, option_to_list};
ghost use Rattle.std.specs.List.{flat_map};
ghost use Rattle.hpf_syntax.specs.Plain.{item_tree};
ghost use Rattle.hpf_map.specs.Constraint.{breach_if, breaches_at};
ghost use Rattle.hpf_map.specs.Found.{least_with};
ghost use Rattle.hpf_map.specs.Pipeline.{input_of, inputs, line_of, lines, max_lines, first_spot_breach, asks_for_input, is_none_of, base_breaches, pipeline_breaches};
ghost use Rattle.hpf_map.specs.Places.{place_behind};
ghost use Rattle.hpf_map.specs.Ways.{ways_of};
ghost use Rattle.hpf_map.specs.declared.constraint.Constraint.TheVariants.{Pipeline};

use crate::breaches::Breaches;
use crate::constraint::Constraint;
use crate::dummy_places::note_each;
use crate::lists::add_found;
use crate::names::Names;
use crate::places::place_behind;
use crate::program::Need;
use crate::role::Role;
use crate::uses_that_map::used_place;
use crate::ways::Ways;
use hpf_syntax::{Item, Spot};
use std::alloc::{AllocError, Global};

/// How many lines a pipeline may have.
const MAX_LINES: usize = 16;

/// The array of an INPUT line.
fn input_of(item: &Item) -> Option<Spot>
    ensures { option_to_list result ≡ input_of (item_tree item.now) }
{
    match item {
        Item::Input { name, .. } => Some(*name),
        _ => None,
    }
}

/// The array of an INPUT or a STAGE line.
fn line_of(item: &Item) -> Option<Spot>
    ensures { option_to_list result ≡ line_of (item_tree item.now) }
{
    match item {
        Item::Input { name, .. } | Item::Stage { name, .. } => Some(*name),
        _ => None,
    }
}

/// The arrays of the INPUT lines.
fn inputs(alloc: Global, items: &[Item]) -> Result<Vec<Spot>, AllocError>
    ensures { IfOk result (λ spots. spots.items ≡ inputs (map item_tree items.now)) }
{
    let mut spots = Vec::new(alloc);
    for item in items {
        add_found(&mut spots, input_of(item))?;
    }
    Ok(spots)
}

/// The arrays of the INPUT and the STAGE lines.
pub(crate) fn lines(alloc: Global, items: &[Item]) -> Result<Vec<Spot>, AllocError>
    ensures { IfOk result (λ spots. spots.items ≡ lines (map item_tree items.now)) }
{
    let mut spots = Vec::new(alloc);
    for item in items {
        add_found(&mut spots, line_of(item))?;
    }
    Ok(spots)
}

/// A second INPUT line, and each one after it.
#[tactic(auto, using(crate::proofs::FoundLemmas::least_with_laws))]
fn test_further(inputs: &[Spot], breaches: &mut Breaches)
    ensures { breaches.new ≡ least_with breaches.old
        (breaches_at Pipeline (drop 1 inputs.now)) }
{
    match inputs {
        [] => {}
        [_, further @ ..] => note_each(Constraint::Pipeline, further, breaches),
    }
}

/// A missing INPUT line, where one is asked for, and a second one.
#[tactic(auto, using(crate::proofs::FoundLemmas::least_with_laws))]
fn test_inputs(need: Need, items: &[Item], inputs: &[Spot], breaches: &mut Breaches)
    ensures { breaches.new ≡ least_with breaches.old
        (breach_if (asks_for_input need && is_none_of inputs.now) Pipeline
        (place_behind (map item_tree items.now))
        ++ breaches_at Pipeline (drop 1 inputs.now)) }
{
    let missing = matches!(need, Need::Pipeline) && inputs.is_empty();
    breaches.note_if(missing, Constraint::Pipeline, place_behind(items));
    test_further(inputs, breaches);
}

/// An array whose ultimate base isn't distributed.
#[tactic(auto, using(crate::proofs::FoundLemmas::least_with_laws))]
fn test_base(names: &Names, ways: &Ways, spot: &Spot, breaches: &mut Breaches)
    ensures { breaches.new ≡ least_with breaches.old (base_breaches names.now ways.now spot.now) }
{
    if let Some(name) = used_place(names, Role::Array, &spot.word) {
        breaches.note_if(ways.has_unmapped_base(name), Constraint::Pipeline, spot.at);
    }
}

/// Arrays whose ultimate bases aren't distributed.
#[tactic(auto, using(crate::proofs::FoundLemmas::least_with_laws))]
fn test_bases(names: &Names, ways: &Ways, lines: &[Spot], breaches: &mut Breaches)
    ensures { breaches.new ≡ least_with breaches.old
        (flat_map (base_breaches names.now ways.now) lines.now) }
{
    for spot in lines {
        test_base(names, ways, spot, breaches);
    }
}

/// The first line that is too many.
#[tactic(auto, using(crate::proofs::FoundLemmas::least_with_laws))]
fn test_number(lines: &[Spot], breaches: &mut Breaches)
    ensures { breaches.new ≡ least_with breaches.old (first_spot_breach (drop max_lines lines.now)) }
{
    if lines.len() > MAX_LINES {
        breaches.note(Constraint::Limit, lines[MAX_LINES].at);
    }
}

/// The lines of a pipeline, where names are mapped in these ways.
#[tactic(auto, using(crate::proofs::FoundLemmas::least_with_laws), unfolding(crate::specs::Pipeline::pipeline_breaches))]
pub(crate) fn test_pipeline(
    alloc: Global,
    need: Need,
    names: &Names,
    ways: &Ways,
    items: &[Item],
    breaches: &mut Breaches,
) -> Result<(), AllocError>
    requires { ways.now ≡ ways_of names.now (map item_tree items.now) }
    ensures { OnOk result (breaches.new
        ≡ least_with breaches.old (pipeline_breaches need names.now (map item_tree items.now))) }
{
    let inputs = inputs(alloc, items)?;
    let lines = lines(alloc, items)?;
    test_inputs(need, items, inputs.as_slice(), breaches);
    test_bases(names, ways, lines.as_slice(), breaches);
    test_number(lines.as_slice(), breaches);
    Ok(())
}
