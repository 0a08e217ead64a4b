//! What a mapping text means, or why it is refused.

ghost use Rattle.std.specs.Prelude.{◌≡◌, [], map, IfOk};
ghost use Rattle.hpf_syntax.specs.Plain.{item_tree};
ghost use Rattle.hpf_map.specs.Built.{not_built};
ghost use Rattle.hpf_map.specs.Checked.{IsChecked};
ghost use Rattle.hpf_map.specs.Mappings.{CanMapAll};
ghost use Rattle.hpf_map.specs.Program.{IsProgram};
ghost use Rattle.hpf_map.specs.Refusal.{all_breaches, Resolves};

use crate::breaches::Breaches;
use crate::built::are_built;
use crate::checked::{Checked, check_items};
use crate::counts::counts;
use crate::direct::direct_images;
use crate::landings::{Landing, all_landings};
use crate::mappings::Mapper;
use crate::program::{Need, Program};
use crate::shadows::Shadows;
use hpf_lex::{MapError, MapRefusal};
use hpf_syntax::{Item, Items};
use std::alloc::{AllocError, Global};

/// The refusal of a text with a form that isn't built.
fn not_built() -> MapRefusal
    ensures { result ≡ not_built }
{
    MapRefusal {
        code: 9,
        line: 1,
        column: 1,
    }
}

/// Where the arrays of a text without a breach lie in their ultimate bases.
fn landings_of(
    alloc: Global,
    items: &[Item],
    need: Need,
    checked: &Checked,
) -> Result<Vec<Option<Landing>>, AllocError>
    requires none { all_breaches need (map item_tree items.now) ≡ [] }
    requires checked { IsChecked (map item_tree items.now) checked.now }
    ensures { IfOk result (λ landings. CanMapAll (map item_tree items.now) landings.items) }
{
    let names = &checked.statements.names;
    let said = checked.statements.said.as_slice();
    let direct = direct_images(alloc, names, items, said, &checked.ways)?;
    all_landings(alloc, names, &checked.ways, direct.as_slice())
}

/// The program of a text without a breach.
fn program_of(
    alloc: Global,
    items: &[Item],
    need: Need,
    checked: Checked,
) -> Result<Program, AllocError>
    requires none { all_breaches need (map item_tree items.now) ≡ [] }
    requires checked { IsChecked (map item_tree items.now) checked }
    ensures { IfOk result (λ program. IsProgram (map item_tree items.now) program) }
{
    let landings = landings_of(alloc, items, need, &checked)?;
    let statements = checked.statements;
    let names = statements.names;
    let shadows = Shadows {
        widths: statements.shadows,
        first: checked.first_shadows,
    };
    let mapper = Mapper {
        names: &names,
        items,
        widths: statements.widths.as_slice(),
        landings: landings.as_slice(),
        shadows: &shadows,
    };
    let mappings = mapper.all_mappings(alloc)?;
    let stages = mapper.all_stages(alloc, statements.lines.as_slice())?;
    let counts = counts(alloc, &names, items)?;
    Ok(Program::new(names, mappings, stages, counts))
}

/// Resolves a text for what is needed of it: the mappings of its arrays, its stages and its counts. A text with a form that
/// isn't built is refused with code 9 at 1:1, and any other that breaks a constraint with the breach that comes first by
/// line, column and code.
#[tactic(auto, unfolding(crate::specs::Refusal::refusal, crate::specs::Found::least_with))]
pub fn resolve(alloc: Global, items: &Items, need: Need) -> Result<Program, MapError>
    // A text without a refusal has exactly its program, and any other has exactly its refusal.
    ensures { Resolves result need (map item_tree items.now) }
{
    let items = items.as_slice();
    if !are_built(items) {
        return Err(MapError::Refused(not_built()));
    }
    let mut breaches = Breaches::new();
    let checked = check_items(alloc, items, need, &mut breaches)?;
    match breaches.least() {
        Some(first) => Err(MapError::Refused(first)),
        None => Ok(program_of(alloc, items, need, checked)?),
    }
}
