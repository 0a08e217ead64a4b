//! A mapping text that is checked, layer by layer.

ghost use Rattle.std.specs.Prelude.{◌≡◌, map, IfOk, OnOk};
ghost use Rattle.hpf_syntax.specs.Plain.{item_tree};
ghost use Rattle.hpf_map.specs.Checked.{IsChecked};
ghost use Rattle.hpf_map.specs.Found.{least_with};
ghost use Rattle.hpf_map.specs.Refusal.{all_breaches};

use crate::alignments::test_aligns;
use crate::breaches::Breaches;
use crate::cycles::test_cycles;
use crate::dealing::test_all_formats;
use crate::distributions::test_distributes;
use crate::pipeline::test_pipeline;
use crate::program::Need;
use crate::shadows::first_shadows;
use crate::sound::sound_names;
use crate::stages::test_lines;
use crate::statements::{Statements, read_statements};
use crate::ways::{Ways, read_ways};
use hpf_syntax::Item;
use std::alloc::{AllocError, Global};
use std::collections::BTreeMap;

/// What a text declares, what its subscripts and widths say, how its names are mapped, and for each array with a shadow the
/// statement with its first SHADOW.
#[derive(Drop)]
pub(crate) struct Checked {
    pub statements: Statements,
    pub ways: Ways,
    pub first_shadows: BTreeMap<usize, usize>,
}

/// Checks statements layer by layer, and takes the breaches of all of them in.
#[tactic(auto, using(crate::proofs::FoundLemmas::least_with_laws), unfolding(crate::specs::Refusal::all_breaches))]
pub(crate) fn check_items(
    alloc: Global,
    items: &[Item],
    need: Need,
    breaches: &mut Breaches,
) -> Result<Checked, AllocError>
    ensures checked { IfOk result (IsChecked (map item_tree items.now)) }
    ensures breaches { OnOk result (breaches.new ≡ least_with breaches.old
        (all_breaches need (map item_tree items.now))) }
{
    sound_names();
    let statements = read_statements(alloc, items, breaches)?;
    test_aligns(
        alloc,
        &statements.names,
        items,
        statements.said.as_slice(),
        breaches,
    )?;
    test_distributes(&statements.names, items, breaches);
    test_all_formats(
        &statements.names,
        items,
        statements.widths.as_slice(),
        breaches,
    );
    let mapped = read_ways(alloc, &statements.names, items, breaches)?;
    test_cycles(alloc, &mapped.ways, mapped.first.as_slice(), breaches)?;
    test_pipeline(
        alloc,
        need,
        &statements.names,
        &mapped.ways,
        items,
        breaches,
    )?;
    let first_shadows = first_shadows(alloc, &statements.names, items, breaches)?;
    test_lines(&statements.names, statements.lines.as_slice(), breaches);
    Ok(Checked {
        statements,
        ways: mapped.ways,
        first_shadows,
    })
}
