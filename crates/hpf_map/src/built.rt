//! The forms of statements that are built.

ghost use Rattle.std.specs.Prelude.{◌≡◌, map};
ghost use Rattle.hpf_syntax.specs.Plain.{item_tree};
ghost use Rattle.hpf_map.specs.Built.{is_built, are_built};

use hpf_syntax::{Item, OpItem};

/// Whether a statement has a form that is built.
fn is_built(item: &Item) -> bool
    ensures { result ≡ is_built (item_tree item.now) }
{
    match item {
        Item::ImplicitNone(_)
        | Item::Variables { .. }
        | Item::Constants { .. }
        | Item::Processors(_)
        | Item::Template(_)
        | Item::Distribute { .. }
        | Item::Align { .. }
        | Item::Shadow { .. } => true,
        Item::Input { op, .. } | Item::Stage { op, .. } => matches!(op, OpItem::Plain),
    }
}

/// Whether all statements have forms that are built.
pub(crate) fn are_built(items: &[Item]) -> bool
    ensures { result ≡ are_built (map item_tree items.now) }
{
    for item in items {
        if !is_built(item) {
            return false;
        }
    }
    true
}
