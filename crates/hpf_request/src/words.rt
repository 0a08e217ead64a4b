//! The words of the command line, as far as what they ask for is built.

ghost use Rattle.std.specs.Prelude.{◌≡◌, ◌≢◌, ◌⊎◌, List, ℕ, None, Err, IfOk, IfErr};
ghost use Rattle.hpf_io.specs.States.{LoaderState};
ghost use Rattle.hpf_words.specs.declared.asked.Asked.{Asked};
ghost use Rattle.hpf_words.specs.Words.{AsksFor};
ghost use Rattle.hpf_status.specs.declared.status.Status.{Status};
ghost use Rattle.hpf_request.specs.Denials.{IsOfWords};
ghost use Rattle.hpf_request.specs.Order.{Order, Denied};
ghost use Rattle.hpf_request.specs.Words.{Asks, built, spelled};

use hpf_status::Status;
use hpf_words::{Asked, Name, one_line, read_words};
use std::alloc::Global;

/// What is done with a map.
#[derive(Debug, Drop)]
pub enum Action<'a> {
    /// It is told whether it is accepted, and how much it declares.
    Check,
    /// Its canonical text is printed.
    Show,
    /// The owners of each element of an array are told.
    Owners { name: Name<'a> },
    /// It is told what a processor holds of an array.
    Local { name: Name<'a>, processor: u32 },
    /// Frames run through its pipeline.
    Run,
    /// A file of so many frames for its pipeline is made from a seed.
    Make { frames: u32, seed: u32 },
}

/// An action, and the name of the map that it is for.
#[derive(Debug, Drop)]
pub(crate) struct Command<'a> {
    pub(crate) action: Action<'a>,
    pub(crate) map: &'a str,
}

/// What the words ask for. They are refused where they ask for nothing, and where they ask for what isn't built.
pub(crate) fn command_of(alloc: Global, words: &[String]) -> Result<Command<'_>, Status>
    ensures found { IfOk result (λ command. Asks (spelled words.entry.now) command.action command.map.now) }
    ensures denied { (status : Status) → result ≡ Err status → status ≢ Status.OutOfMemory
        → (loader : LoaderState) → Order (spelled words.entry.now) loader (Denied status) }
    ensures usage { ((asked : Asked) (name : List ℕ) → ¬ AsksFor (spelled words.entry.now) asked name)
        → (result ≡ Err (Status.Usage 1)) ⊎ (result ≡ Err Status.OutOfMemory) }
    ensures not_built { (asked : Asked) (name : List ℕ) → AsksFor (spelled words.entry.now) asked name
        → built asked ≡ None → (result ≡ Err (Status.Usage 9)) ⊎ (result ≡ Err Status.OutOfMemory) }
    ensures kinds { IfErr result IsOfWords }
{
    // Words ask for one thing.
    one_line();
    match read_words(alloc, words) {
        Ok(line) => match built(line.asked) {
            Some(action) => Ok(Command {
                action,
                map: line.map,
            }),
            None => Err(Status::Usage { code: 9 }),
        },
        Err(error) => Err(Status::from(error)),
    }
}

/// The action that is asked for, where it is built.
fn built<'a>(asked: Asked<'a>) -> Option<Action<'a>>
    ensures { result ≡ built asked.entry }
{
    match asked {
        Asked::Check => Some(Action::Check),
        Asked::Show => Some(Action::Show),
        Asked::Owners { name } => Some(Action::Owners { name }),
        Asked::Local { name, processor } => Some(Action::Local { name, processor }),
        Asked::Run { .. } => Some(Action::Run),
        Asked::Make { frames, seed } => Some(Action::Make { frames, seed }),
        _ => None,
    }
}
