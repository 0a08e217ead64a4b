//! Uses of names.

ghost use Rattle.std.specs.Prelude.{◌≡◌, ℕ, List, Bool, map, option_map, option_copied};
ghost use Rattle.std.specs.List.{flat_map};
ghost use Rattle.hpf_syntax.specs.Plain.{tree, sub_tree, format_tree, item_tree};
ghost use Rattle.hpf_map.specs.Found.{least_with};
ghost use Rattle.hpf_map.specs.Uses.{use_breaches, spot_breaches, onto_breaches, format_name_breaches, item_use_breaches};

use crate::breaches::Breaches;
use crate::constraint::Constraint;
use crate::name::Name;
use crate::names::Names;
use crate::role::Role;
use hpf_syntax::{At, FormatItem, Item, Spot};

/// A use of a word of which this is known.
#[tactic(auto, unfolding(crate::specs::Uses::use_breaches), using(crate::proofs::FoundLemmas::least_with_laws))]
pub(crate) fn test_use(role: Role, at: At, known: Option<&Name>, breaches: &mut Breaches)
    ensures { breaches.new ≡ least_with breaches.old
        (use_breaches role at (option_copied known.entry)) }
{
    match known {
        None => breaches.note(Constraint::Unknown, at),
        Some(name) => {
            let broken = name.free && !role.suits(&name.meaning);
            breaches.note_if(broken, Constraint::Kind, at);
        }
    }
}

/// A use of a name in a directive.
fn test_spot(names: &Names, role: Role, spot: &Spot, breaches: &mut Breaches)
    ensures { breaches.new ≡ least_with breaches.old (spot_breaches names.now role spot.now) }
{
    test_use(role, spot.at, names.find(&spot.word), breaches);
}

/// Uses of several names.
#[tactic(auto, using(crate::proofs::FoundLemmas::least_with_laws))]
fn test_spots(names: &Names, role: Role, spots: &[Spot], breaches: &mut Breaches)
    ensures { breaches.new ≡ least_with breaches.old
        (flat_map (spot_breaches names.now role) spots.now) }
{
    for spot in spots {
        test_spot(names, role, spot, breaches);
    }
}

/// The name in a format.
#[tactic(auto, using(crate::proofs::FoundLemmas::least_with_laws))]
fn test_format(names: &Names, format: &FormatItem, breaches: &mut Breaches)
    ensures { breaches.new ≡ least_with breaches.old
        (format_name_breaches names.now (format_tree format.now)) }
{
    match format {
        FormatItem::GenBlock(_, name) | FormatItem::Indirect(_, name) => {
            test_spot(names, Role::List, name, breaches);
        }
        FormatItem::Star(_) | FormatItem::Block(..) | FormatItem::Cyclic(..) => {}
    }
}

/// The names in formats.
#[tactic(auto, using(crate::proofs::FoundLemmas::least_with_laws))]
fn test_formats(names: &Names, formats: &[FormatItem], breaches: &mut Breaches)
    ensures { breaches.new ≡ least_with breaches.old
        (flat_map (format_name_breaches names.now) (map format_tree formats.now)) }
{
    for format in formats {
        test_format(names, format, breaches);
    }
}

/// The name in ONTO.
#[tactic(auto, using(crate::proofs::FoundLemmas::least_with_laws))]
fn test_target(names: &Names, onto: &Option<Spot>, breaches: &mut Breaches)
    ensures { breaches.new ≡ least_with breaches.old (onto_breaches names.now onto.now) }
{
    if let Some(target) = onto {
        test_spot(names, Role::Target, target, breaches);
    }
}

/// The names that a directive or a pipeline line uses, where these names are declared anywhere in the text.
#[tactic(auto, using(crate::proofs::FoundLemmas::least_with_laws))]
pub(crate) fn test_item(names: &Names, item: &Item, breaches: &mut Breaches)
    ensures { breaches.new ≡ least_with breaches.old
        (item_use_breaches names.now (item_tree item.now)) }
{
    match item {
        Item::Distribute {
            names: distributees,
            formats,
            onto,
        } => {
            test_spots(names, Role::Mapped, distributees.as_slice(), breaches);
            test_formats(names, formats.as_slice(), breaches);
            test_target(names, onto, breaches);
        }
        Item::Align {
            names: alignees,
            base,
            ..
        } => {
            test_spots(names, Role::Array, alignees.as_slice(), breaches);
            test_spot(names, Role::Mapped, base, breaches);
        }
        Item::Shadow {
            names: shadowed,
            ..
        } => test_spots(names, Role::Mapped, shadowed.as_slice(), breaches),
        Item::Input { name, .. } | Item::Stage { name, .. } => {
            test_spot(names, Role::Array, name, breaches);
        }
        Item::ImplicitNone(_)
        | Item::Variables { .. }
        | Item::Constants { .. }
        | Item::Processors(_)
        | Item::Template(_) => {}
    }
}
