//! Names that are aligned with themselves, over others or at once.

ghost use Rattle.std.specs.Prelude.{◌≡◌, ℕ, false, true, OnOk, IfOk, slice_index_or, slice_set, if◌then◌else◌};
ghost use Rattle.std.specs.List.{flat_map};
ghost use Rattle.hpf_map.specs.Constraint.{breach_if};
ghost use Rattle.hpf_map.specs.Found.{least_with};
ghost use Rattle.hpf_map.specs.Ways.{is_on_cycle, cycle_breaches};
ghost use Rattle.hpf_map.specs.declared.constraint.Constraint.TheVariants.{Cycle};

use crate::breaches::Breaches;
use crate::constraint::Constraint;
use crate::way::Use;
use crate::ways::Ways;
use std::alloc::{AllocError, Global};

/// Marks a name where that is asked for. One that isn't there can't be marked.
fn mark(marks: &mut Vec<bool>, name: usize, asked: bool)
    ensures { marks.new.items
        ≡ (if asked then slice_set marks.old.items name true else marks.old.items) }
{
    if asked && name < marks.len() {
        marks[name] = true;
    }
}

/// A mark at each name on a cycle, which is one at which some walk ends and from which a way still leads on.
fn marked_cycles(alloc: Global, ways: &Ways) -> Result<Vec<bool>, AllocError>
    ensures { IfOk result (λ marks. (n : ℕ)
        → slice_index_or marks.items n false ≡ is_on_cycle ways.now n) }
{
    let mut marks = vec![in alloc; false; ways.len()]?;
    for name in 0..ways.len() {
        let end = ways.end(name);
        mark(&mut marks, end, ways.way(end).leads_on());
    }
    Ok(marks)
}

/// Whether a name is marked.
fn is_marked(marks: &[bool], name: usize) -> bool
    ensures { result ≡ slice_index_or marks.now name false }
{
    match marks.get(name) {
        Some(marked) => *marked,
        None => false,
    }
}

/// A use by which a name is aligned, where that is marked.
fn test_use(marks: &[bool], used: &Use, breaches: &mut Breaches)
    ensures { breaches.new ≡ least_with breaches.old
        (breach_if (slice_index_or marks.now used.now.name false) Cycle used.now.at) }
{
    breaches.note_if(is_marked(marks, used.name), Constraint::Cycle, used.at);
}

/// Names that are on a cycle, each at the use by which it is aligned.
#[tactic(auto, using(crate::proofs::FoundLemmas::least_with_laws))]
pub(crate) fn test_cycles(
    alloc: Global,
    ways: &Ways,
    first: &[Use],
    breaches: &mut Breaches,
) -> Result<(), AllocError>
    ensures { OnOk result (breaches.new
        ≡ least_with breaches.old (flat_map (cycle_breaches ways.now) first.now)) }
{
    let marks = marked_cycles(alloc, ways)?;
    for used in first {
        test_use(marks.as_slice(), used, breaches);
    }
    Ok(())
}
