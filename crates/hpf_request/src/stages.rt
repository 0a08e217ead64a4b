//! The stages of a run.

ghost use Rattle.std.specs.Prelude.{◌≡◌, map};
ghost use Rattle.hpf_syntax.specs.Plain.{item_tree};
ghost use Rattle.hpf_request.specs.Stages.{is_stage, has_stage};

use hpf_syntax::Item;

/// Whether some statement is a STAGE line.
pub(crate) fn has_stage(items: &[Item]) -> bool
    ensures { result ≡ has_stage (map item_tree items.now) }
{
    for item in items {
        if is_stage(item) {
            return true;
        }
    }
    false
}

/// Whether a statement is one.
fn is_stage(item: &Item) -> bool
    ensures { result ≡ is_stage (item_tree item.now) }
{
    matches!(item, Item::Stage { .. })
}
