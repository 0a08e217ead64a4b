//! The uses of names that map them.

ghost use Rattle.std.specs.Prelude.{◌≡◌, ◌++◌, map, OnOk, IfOk};
ghost use Rattle.std.specs.List.{filter_map};
ghost use Rattle.hpf_syntax.specs.Plain.{item_tree};
ghost use Rattle.hpf_map.specs.Ways.{used_place, use_of, statement_uses, uses_in};

use crate::lists::add_found;
use crate::names::Names;
use crate::role::Role;
use crate::spaces::used_as;
use crate::way::{Use, Way};
use hpf_lex::Word;
use hpf_syntax::{Item, Spot};
use std::alloc::{AllocError, Global};

/// The place of a name that is used so. None where the use or the name has a breach.
#[tactic(auto, unfolding(crate::specs::Ways::used_place))]
pub(crate) fn used_place(names: &Names, role: Role, word: &Word) -> Option<usize>
    ensures { result ≡ used_place names.now role word.now }
{
    match used_as(names, role, word) {
        Some(_) => names.place(word),
        None => None,
    }
}

/// A use of a name that maps it in this way. None where the use or the name has a breach.
fn use_of(names: &Names, role: Role, way: Way, spot: &Spot) -> Option<Use>
    ensures { result ≡ use_of names.now role way spot.now }
{
    let name = used_place(names, role, &spot.word)?;
    Some(Use {
        name,
        at: spot.at,
        way,
    })
}

/// Adds the uses of these names, each of which is mapped in this way.
fn add_uses(
    names: &Names,
    role: Role,
    way: Way,
    spots: &[Spot],
    uses: &mut Vec<Use>,
) -> Result<(), AllocError>
    ensures { OnOk result (uses.new.items ≡ uses.old.items
        ++ filter_map (use_of names.now role way) spots.now) }
{
    for spot in spots {
        add_found(uses, use_of(names, role, way, spot))?;
    }
    Ok(())
}

/// Adds the uses of a statement, which has this number.
#[tactic(auto, unfolding(crate::specs::Ways::statement_uses))]
fn add_statement_uses(
    names: &Names,
    statement: usize,
    item: &Item,
    uses: &mut Vec<Use>,
) -> Result<(), AllocError>
    ensures { OnOk result (uses.new.items ≡ uses.old.items
        ++ statement_uses names.now statement (item_tree item.now)) }
{
    match item {
        Item::Distribute {
            names: distributees,
            ..
        } => {
            let way = Way::Distributed(statement);
            add_uses(names, Role::Mapped, way, distributees.as_slice(), uses)
        }
        Item::Align {
            names: alignees,
            base,
            ..
        } => {
            let base = used_place(names, Role::Mapped, &base.word);
            let way = Way::Aligned { statement, base };
            add_uses(names, Role::Array, way, alignees.as_slice(), uses)
        }
        Item::ImplicitNone(_)
        | Item::Variables { .. }
        | Item::Constants { .. }
        | Item::Processors(_)
        | Item::Template(_)
        | Item::Shadow { .. }
        | Item::Input { .. }
        | Item::Stage { .. } => Ok(()),
    }
}

/// All uses that map names, in the order of the text.
pub(crate) fn uses_in(alloc: Global, names: &Names, items: &[Item]) -> Result<Vec<Use>, AllocError>
    ensures { IfOk result (λ uses. uses.items ≡ uses_in names.now (map item_tree items.now)) }
{
    let mut uses = Vec::new(alloc);
    for (statement, item) in items.iter().enumerate() {
        add_statement_uses(names, statement, item, &mut uses)?;
    }
    Ok(uses)
}
