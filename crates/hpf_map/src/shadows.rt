//! Which arrays have a shadow, and by which SHADOW.

ghost use Rattle.std.specs.BTreeMap.{get};
ghost use Rattle.std.specs.Ordering.{nat_cmp};
ghost use Rattle.std.specs.Prelude.{◌≡◌, [], ◌∷◌, ◌++◌, ℕ, List, map, length, OnOk, IfOk, option_copied};
ghost use Rattle.std.specs.List.{filter_map, flat_map};
ghost use Rattle.hpf_syntax.specs.Plain.{width_tree, item_tree};
ghost use Rattle.hpf_map.specs.Declarations.{threaded};
ghost use Rattle.hpf_map.specs.Found.{least_with};
ghost use Rattle.hpf_map.specs.Shaded.{HasFirst, given_by};
ghost use Rattle.hpf_map.specs.Shadows.{is_template, shadowed_breaches, shadow_breaches, shadow_use, statement_shadow_uses, shadow_uses, again_breaches, shadows_breaches, first_shadow};
ghost use Rattle.hpf_map.specs.declared.shadows.ShadowUse.{ShadowUse};

use crate::breaches::Breaches;
use crate::constraint::Constraint;
use crate::lists::add_found;
use crate::name::{Meaning, Name, Space};
use crate::names::Names;
use crate::role::Role;
use crate::shadow_widths::ShadowWidths;
use crate::spaces::{shape_of, test_count, used_as};
use crate::uses_that_map::used_place;
use hpf_syntax::{At, Item, Spot, WidthItem};
use std::alloc::{AllocError, Global};
use std::collections::BTreeMap;

/// A use of an array in SHADOW, at its place in the text. Names count from 0, in the order of their declarations, and so do
/// statements.
#[derive(Clone, Copy)]
pub(crate) struct ShadowUse {
    pub name: usize,
    pub at: At,
    pub statement: usize,
}

/// Whether a name is a template, if there is one.
fn is_template(name: Option<&Name>) -> bool
    ensures { result ≡ is_template (option_copied name.entry) }
{
    match name {
        Some(name) => matches!(name.meaning, Meaning::Shaped(Space::Template, _)),
        None => false,
    }
}

/// A template, or another number of widths than an array has dimensions.
#[tactic(auto, using(crate::proofs::FoundLemmas::least_with_laws))]
fn test_shadowed(names: &Names, widths: usize, spot: &Spot, breaches: &mut Breaches)
    ensures { breaches.new ≡ least_with breaches.old (shadowed_breaches names.now widths spot.now) }
{
    let is_template = is_template(used_as(names, Role::Mapped, &spot.word));
    breaches.note_if(is_template, Constraint::Shadow, spot.at);
    let shape = shape_of(names, Role::Array, &spot.word);
    test_count(widths, spot, shape, breaches);
}

/// The same of several names.
#[tactic(auto, using(crate::proofs::FoundLemmas::least_with_laws))]
fn test_all_shadowed(names: &Names, widths: usize, spots: &[Spot], breaches: &mut Breaches)
    ensures { breaches.new ≡ least_with breaches.old
        (flat_map (shadowed_breaches names.now widths) spots.now) }
{
    for spot in spots {
        test_shadowed(names, widths, spot, breaches);
    }
}

/// How many widths are written.
#[tactic(auto, using(crate::proofs::ShadowLemmas::widths_seen))]
fn written(widths: &[WidthItem]) -> usize
    ensures { result ≡ length (map width_tree widths.now) }
{
    widths.len()
}

/// The names in a SHADOW.
#[tactic(auto, using(crate::proofs::FoundLemmas::least_with_laws), unfolding(crate::specs::Shadows::shadow_breaches))]
fn test_shadow(names: &Names, item: &Item, breaches: &mut Breaches)
    ensures { breaches.new ≡ least_with breaches.old (shadow_breaches names.now (item_tree item.now)) }
{
    if let Item::Shadow {
        names: shadowed,
        widths,
    } = item
    {
        let count = written(widths.as_slice());
        test_all_shadowed(names, count, shadowed.as_slice(), breaches);
    }
}

/// The names in all SHADOW.
#[tactic(auto, using(crate::proofs::FoundLemmas::least_with_laws))]
fn test_shadows(names: &Names, items: &[Item], breaches: &mut Breaches)
    ensures { breaches.new ≡ least_with breaches.old
        (flat_map (shadow_breaches names.now) (map item_tree items.now)) }
{
    for item in items {
        test_shadow(names, item, breaches);
    }
}

/// A use of an array in the statement with this number. None where the use or the name has a breach.
fn shadow_use(names: &Names, statement: usize, spot: &Spot) -> Option<ShadowUse>
    ensures { result ≡ shadow_use names.now statement spot.now }
{
    let name = used_place(names, Role::Array, &spot.word)?;
    Some(ShadowUse {
        name,
        at: spot.at,
        statement,
    })
}

/// Adds the uses of these names.
fn add_uses(
    names: &Names,
    statement: usize,
    spots: &[Spot],
    uses: &mut Vec<ShadowUse>,
) -> Result<(), AllocError>
    ensures { OnOk result (uses.new.items ≡ uses.old.items
        ++ filter_map (shadow_use names.now statement) spots.now) }
{
    for spot in spots {
        add_found(uses, shadow_use(names, statement, spot))?;
    }
    Ok(())
}

/// Adds the uses of a statement, which has this number.
#[tactic(auto, unfolding(crate::specs::Shadows::statement_shadow_uses))]
fn add_statement_uses(
    names: &Names,
    statement: usize,
    item: &Item,
    uses: &mut Vec<ShadowUse>,
) -> Result<(), AllocError>
    ensures { OnOk result (uses.new.items ≡ uses.old.items
        ++ statement_shadow_uses names.now statement (item_tree item.now)) }
{
    match item {
        Item::Shadow {
            names: shadowed,
            ..
        } => add_uses(names, statement, shadowed.as_slice(), uses),
        Item::ImplicitNone(_)
        | Item::Variables { .. }
        | Item::Constants { .. }
        | Item::Processors(_)
        | Item::Template(_)
        | Item::Distribute { .. }
        | Item::Align { .. }
        | Item::Input { .. }
        | Item::Stage { .. } => Ok(()),
    }
}

/// All uses of arrays in SHADOW, in the order of the text.
fn shadow_uses(alloc: Global, names: &Names, items: &[Item]) -> Result<Vec<ShadowUse>, AllocError>
    ensures { IfOk result (λ uses. uses.items ≡ shadow_uses names.now (map item_tree items.now)) }
{
    let mut uses = Vec::new(alloc);
    for (statement, item) in items.iter().enumerate() {
        add_statement_uses(names, statement, item, &mut uses)?;
    }
    Ok(uses)
}

/// Takes a use of an array in. The first one counts, and any other is a breach.
#[tactic(auto, using(crate::proofs::FoundLemmas::least_with_laws))]
fn take_use(
    first: &mut BTreeMap<usize, usize>,
    used: &ShadowUse,
    breaches: &mut Breaches,
) -> Result<(), AllocError>
    ensures first { OnOk result ((uses : List ShadowUse) → HasFirst uses first.old
        → HasFirst (uses ++ used.now ∷ []) first.new) }
    ensures breaches { OnOk result ((uses : List ShadowUse) → HasFirst uses first.old
        → breaches.new ≡ least_with breaches.old (again_breaches uses used.now)) }
{
    if first.contains_key(&used.name) {
        breaches.note(Constraint::Shadow, used.at);
    } else {
        first.insert(used.name, used.statement)?;
    }
    Ok(())
}

/// For each array of these uses the statement with the first one. Any other is a breach.
fn first_statements(
    alloc: Global,
    uses: &[ShadowUse],
    breaches: &mut Breaches,
) -> Result<BTreeMap<usize, usize>, AllocError>
    ensures first { IfOk result (λ first. HasFirst uses.now first) }
    ensures breaches { OnOk result (breaches.new ≡ least_with breaches.old
        (threaded (λ earlier used. earlier ++ used ∷ []) again_breaches [] uses.now)) }
{
    let mut first = BTreeMap::new(alloc);
    for used in uses {
        take_use(&mut first, used, breaches)?;
    }
    Ok(first)
}

/// For each array with a shadow, by its place among the names, the statement with its first SHADOW. The breaches of the names in
/// SHADOW are taken in.
#[tactic(auto, using(crate::proofs::FoundLemmas::least_with_laws), unfolding(crate::specs::Shadows::first_shadow, crate::specs::Shadows::shadows_breaches, crate::specs::Shadows::shadowed_twice_breaches))]
pub(crate) fn first_shadows(
    alloc: Global,
    names: &Names,
    items: &[Item],
    breaches: &mut Breaches,
) -> Result<BTreeMap<usize, usize>, AllocError>
    ensures first { IfOk result (λ first. (n : ℕ)
        → get nat_cmp first n ≡ first_shadow names.now (map item_tree items.now) n) }
    ensures breaches { OnOk result (breaches.new ≡ least_with breaches.old
        (shadows_breaches names.now (map item_tree items.now))) }
{
    test_shadows(names, items, breaches);
    let uses = shadow_uses(alloc, names, items)?;
    first_statements(alloc, uses.as_slice(), breaches)
}

/// The shadows of a text: the widths that each statement gives, and for each array with a shadow the statement with its first
/// SHADOW.
#[derive(Drop)]
pub(crate) struct Shadows {
    pub widths: Vec<Option<ShadowWidths>>,
    pub first: BTreeMap<usize, usize>,
}

impl Shadows {
    /// The widths of the first SHADOW of the name at a place. None where it has no SHADOW.
    pub(crate) fn given(&self, name: usize) -> Option<&ShadowWidths>
        ensures { option_copied result ≡ given_by self.now.widths.items self.now.first name }
    {
        let statement = *self.first.get(&name)?;
        match self.widths.get(statement) {
            Some(Some(widths)) => Some(widths),
            _ => None,
        }
    }
}
