//! The mapping of the array that the words name.

ghost use Rattle.std.specs.Prelude.{◌≡◌, ◌≢◌, map, Some, None, IfOk, IfErr};
ghost use Rattle.hpf_map.specs.declared.program.Need.{Need};
ghost use Rattle.hpf_map.specs.Refusal.{refusal};
ghost use Rattle.hpf_syntax.specs.Plain.{item_tree};
ghost use Rattle.hpf_status.specs.declared.status.Status.{Status};
ghost use Rattle.hpf_request.specs.Denials.{IsOfText};
ghost use Rattle.hpf_request.specs.Named.{IsNamed, IsUnnamed, mapping_named};

use hpf_lex::Word;
use hpf_map::{Need, Program, resolve};
use hpf_own::Mapping;
use hpf_status::Status;
use hpf_syntax::Items;
use hpf_words::Name;
use std::alloc::Global;

/// The mapping of the array of statements by this name. They are refused for what they mean, or else with code 2
/// where the name is no mapped array.
pub(crate) fn mapping_of(alloc: Global, items: &Items, name: &Name<'_>) -> Result<Mapping, Status>
    ensures accepted { IfOk result (λ mapping. refusal Need.Mapping (map item_tree items.now) ≡ None) }
    ensures named { IfOk result (λ mapping. IsNamed (map item_tree items.now) name.now (Some mapping)) }
    ensures denied { IfErr result (λ status. status ≢ Status.OutOfMemory
        → IsUnnamed (map item_tree items.now) name.now status) }
    ensures kinds { IfErr result IsOfText }
{
    let program = resolve(alloc, items, Need::Mapping)?;
    match named(program, name) {
        Some(mapping) => Ok(mapping),
        None => Err(Status::Usage { code: 2 }),
    }
}

/// The mapping of the array of a program by this name.
fn named(program: Program, name: &Name<'_>) -> Option<Mapping>
    ensures { result ≡ mapping_named program name.now }
{
    match Word::from_bytes(name.as_str().as_bytes()) {
        Some(word) => program.into_mapping(&word),
        None => None,
    }
}
