//! What is asked for, together with what its map means.

ghost use Rattle.std.specs.Prelude.{◌≡◌, ◌≢◌, ◌⊎◌, ℕ, List, map, false, None, Err, IfOk, IfErr};
ghost use Rattle.hpf_status.specs.declared.status.Status.{Status};
ghost use Rattle.hpf_syntax.specs.Plain.{item_tree};
ghost use Rattle.hpf_words.specs.declared.asked.Asked.{Asked};
ghost use Rattle.hpf_words.specs.Words.{AsksFor};
ghost use Rattle.hpf_request.specs.declared.words.Action.{Action};
ghost use Rattle.hpf_request.specs.Decided.{Decided, Judged};
ghost use Rattle.hpf_request.specs.Denials.{IsDenial};
ghost use Rattle.hpf_request.specs.Loads.{LoadFails, LoadsNoFault, KeepsFiles};
ghost use Rattle.hpf_request.specs.Order.{Order, Granted, Denied};
ghost use Rattle.hpf_request.specs.Request.{deed_of, IsMet};
ghost use Rattle.hpf_request.specs.Stages.{has_stage};
ghost use Rattle.hpf_request.specs.Words.{built, spelled};

use crate::form::{Form, all_of, extents_of, form_of};
use crate::map::items_of;
use crate::named::mapping_of;
use crate::stages::has_stage;
use crate::words::{Action, command_of};
use hpf_io::Loader;
use hpf_lex::{MAX_TEXT, MapRefusal};
use hpf_map::{Counts, Need, resolve};
use hpf_own::{Held, Mapping};
use hpf_status::Status;
use hpf_syntax::Items;
use hpf_words::Name;
use std::alloc::Global;

/// What is asked for of a map.
#[derive(Drop)]
pub enum Request {
    /// The canonical text of these statements is printed.
    Show(Items),
    /// It is told how much the text declares.
    Check(Counts),
    /// The owners of each element of an array that is mapped so are told.
    Owners(Mapping),
    /// It is told what a processor holds of an array, of which it owns a part.
    Local {
        owned: Held,
        held: Held,
    },
    /// Frames run through the pipeline of this form.
    Run(Form),
    /// A file of so many frames of an array with these extents is made from a seed.
    Make {
        extents: Vec<u32>,
        frames: u32,
        seed: u32,
    },
}

/// The most elements that an array has whose frames run.
const MOST_ELEMENTS: u64 = 65536;

/// What is answered to a text that is well written, and whose array has more elements or that has a STAGE line.
const NOT_BUILT: MapRefusal = MapRefusal {
    code: 9,
    line: 1,
    column: 1,
};

/// What the words ask for of the map that they name, or the status by which it is refused.
pub fn request_of<L: Loader>(
    alloc: Global,
    words: &[String],
    texts: &mut L,
) -> Result<Request, Status>
    ensures granted { IfOk result (λ request.
        Order (spelled words.now) (L.state texts.new) (Granted (deed_of request))) }
    ensures met { IfOk result IsMet }
    ensures denied { (status : Status) → result ≡ Err status
        → status ≢ Status.LoadFault → status ≢ Status.OutOfMemory
        → Order (spelled words.now) (L.state texts.new) (Denied status) }
    ensures usage { ((asked : Asked) (name : List ℕ) → ¬ AsksFor (spelled words.now) asked name)
        → (result ≡ Err (Status.Usage 1)) ⊎ (result ≡ Err Status.OutOfMemory) }
    ensures not_built { (asked : Asked) (name : List ℕ) → AsksFor (spelled words.now) asked name
        → built asked ≡ None → (result ≡ Err (Status.Usage 9)) ⊎ (result ≡ Err Status.OutOfMemory) }
    ensures kinds { IfErr result IsDenial }

    // The loader.
    ensures load_fault { result ≡ Err Status.LoadFault
        → LoadFails (spelled words.now) (L.state texts.old) (L.state texts.new) }
    ensures loads { result ≢ Err Status.LoadFault → LoadsNoFault (L.state texts.old) (L.state texts.new) }
    ensures kept { KeepsFiles (L.state texts.old) (L.state texts.new) }
    ensures unasked { (result ≡ Err (Status.Usage 1)) ⊎ (result ≡ Err (Status.Usage 9)) → texts.new ≡ texts.old }
{
    let command = command_of(alloc, words)?;
    let text = texts.load(alloc, command.map, MAX_TEXT)?;
    request_in(alloc, command.action, text.as_slice())
}

/// What a text comes to for an action.
fn request_in(alloc: Global, action: Action<'_>, text: &[u8]) -> Result<Request, Status>
    ensures { Judged action.entry text.now result }
{
    let items = items_of(alloc, text)?;
    match action {
        Action::Show => Ok(Request::Show(items)),
        Action::Check => check_of(alloc, &items),
        Action::Owners { name } => owners_of(alloc, &items, &name),
        Action::Local { name, processor } => local_of(alloc, &items, &name, processor),
        Action::Run => run_of(alloc, &items),
        Action::Make { frames, seed } => make_of(alloc, &items, frames, seed),
    }
}

/// What statements come to that are to be checked.
fn check_of(alloc: Global, items: &Items) -> Result<Request, Status>
    ensures { Decided Action.Check (map item_tree items.now) result }
{
    let program = resolve(alloc, items, Need::Mapping)?;
    Ok(Request::Check(program.counts()))
}

/// What statements come to if the owners of an array are to be told.
fn owners_of(alloc: Global, items: &Items, name: &Name<'_>) -> Result<Request, Status>
    ensures { Decided (Action.Owners name.now) (map item_tree items.now) result }
{
    let mapping = mapping_of(alloc, items, name)?;
    Ok(Request::Owners(mapping))
}

/// What statements come to if the part of an array is to be told that a processor holds.
fn local_of(
    alloc: Global,
    items: &Items,
    name: &Name<'_>,
    processor: u32,
) -> Result<Request, Status>
    ensures { Decided (Action.Local name.now processor) (map item_tree items.now) result }
{
    let mapping = mapping_of(alloc, items, name)?;
    if processor >= mapping.procs() {
        return Err(Status::Usage { code: 3 });
    }
    let owned = mapping.owned(alloc, processor)?;
    let held = mapping.held(alloc, processor)?;
    Ok(Request::Local { owned, held })
}

/// What statements come to whose frames are to run.
fn run_of(alloc: Global, items: &Items) -> Result<Request, Status>
    ensures { Decided Action.Run (map item_tree items.now) result }
{
    if has_stage(items.as_slice()) {
        return Err(Status::from(NOT_BUILT));
    }
    run_of_one(alloc, items)
}

/// What statements of one stage come to whose frames are to run.
fn run_of_one(alloc: Global, items: &Items) -> Result<Request, Status>
    requires { has_stage (map item_tree items.now) ≡ false }
    ensures { Decided Action.Run (map item_tree items.now) result }
{
    let program = resolve(alloc, items, Need::Pipeline)?;
    let mapping = &program.stage(0).mapping;
    let all = all_of(alloc, mapping)?;
    if all.count() > MOST_ELEMENTS {
        return Err(Status::from(NOT_BUILT));
    }
    let form = form_of(alloc, mapping, &all)?;
    Ok(Request::Run(form))
}

/// What statements come to for which frames are to be made.
fn make_of(alloc: Global, items: &Items, frames: u32, seed: u32) -> Result<Request, Status>
    ensures { Decided (Action.Make frames seed) (map item_tree items.now) result }
{
    let program = resolve(alloc, items, Need::Pipeline)?;
    let extents = extents_of(alloc, program.stage(0).mapping.bounds())?;
    Ok(Request::Make {
        extents,
        frames,
        seed,
    })
}
