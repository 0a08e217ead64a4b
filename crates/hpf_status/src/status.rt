//! How a call of the program ends, and the line that tells it.

ghost use Rattle.std.specs.Prelude.{◌≡◌, ◌+◌, ◌≤◌, ◌++◌, length, Option, IfSome};
ghost use Rattle.arrayvec.specs.ArrayString.{array_string_len};
ghost use Rattle.hpf_io.specs.Writes.{Writes};
ghost use Rattle.hpf_status.specs.StatusText.{status_number, status_text, named};
ghost use Rattle.std.specs.Option.{option_map};

use crate::line::{LONGEST, Line, plain, push_number};
use crate::names::{input_name, map_name};
use hpf_io::{Failed, LoadError, Sink, write_all};
use hpf_lex::{MapError, MapRefusal};
use hpf_words::WordsError;
use std::alloc::AllocError;

/// What the command line looks like.
const USAGE: &str =
    "hpfturn ACTION MAP [NAME] [--workers N] [--stage N] [--proc N] [--seed N] [--frames N]";

/// How the program ends.
#[derive(Clone, Copy, Debug, PartialEq, Eq)]
pub enum Status {
    /// All was done.
    Ok,
    /// The words ask for nothing that the program does (1), or for what isn't built (9); the text maps no array by
    /// that name (2), or the array has no such processor (3).
    Usage { code: u8 },
    /// The mapping text is refused at this place, whose line and column count from 1.
    MapRefused { code: u8, line: u32, column: u32 },
    /// The file of frames is refused at this offset in bytes.
    InputRefused { code: u8, offset: u64 },
    /// A plan of so many elements passes the limit.
    PlanTooLarge { elements: u64 },
    /// A read of the frames failed.
    ReadFault,
    /// A write of the answer or of the notes failed.
    WriteFault,
    /// The mapping text could not be loaded.
    LoadFault,
    /// There is too little memory.
    OutOfMemory,
}

impl Status {
    /// The number that the program exits with, from 0 to 8.
    pub fn number(&self) -> u8
        ensures { result ≡ status_number self.now }
    {
        match self {
            Status::Ok => 0,
            Status::Usage { .. } => 1,
            Status::MapRefused { .. } => 2,
            Status::InputRefused { .. } => 3,
            Status::PlanTooLarge { .. } => 4,
            Status::ReadFault => 5,
            Status::WriteFault => 6,
            Status::LoadFault => 7,
            Status::OutOfMemory => 8,
        }
    }
}

impl From<MapRefusal> for Status {
    ghost use Rattle.std.specs.Prelude.{◌≡◌};
    ghost use Rattle.hpf_status.specs.Statuses.{refusal_status};

    ghost from_gives = { λ r status. status ≡ refusal_status r };

    fn from(refusal: MapRefusal) -> Status {
        Status::MapRefused {
            code: refusal.code,
            line: refusal.line,
            column: refusal.column,
        }
    }
}

impl From<MapError> for Status {
    ghost use Rattle.std.specs.Prelude.{◌≡◌};
    ghost use Rattle.hpf_status.specs.Statuses.{text_status};

    ghost from_gives = { λ e status. status ≡ text_status e };

    fn from(error: MapError) -> Status {
        match error {
            MapError::Refused(refusal) => Status::from(refusal),
            MapError::Memory(_) => Status::OutOfMemory,
        }
    }
}

impl From<AllocError> for Status {
    ghost use Rattle.std.specs.Prelude.{◌≡◌};
    ghost use Rattle.hpf_status.specs.declared.status.Status.TheVariants.{OutOfMemory};

    ghost from_gives = { λ _ status. status ≡ OutOfMemory };

    fn from(_error: AllocError) -> Status {
        Status::OutOfMemory
    }
}

impl From<WordsError> for Status {
    ghost use Rattle.std.specs.Prelude.{◌≡◌};
    ghost use Rattle.hpf_status.specs.Statuses.{words_status};

    ghost from_gives = { λ e status. status ≡ words_status e };

    fn from(error: WordsError) -> Status {
        match error {
            WordsError::Refused => Status::Usage { code: 1 },
            WordsError::Memory(_) => Status::OutOfMemory,
        }
    }
}

impl From<LoadError> for Status {
    ghost use Rattle.std.specs.Prelude.{◌≡◌};
    ghost use Rattle.hpf_status.specs.Statuses.{load_status};

    ghost from_gives = { λ e status. status ≡ load_status e };

    fn from(error: LoadError) -> Status {
        match error {
            LoadError::Failed => Status::LoadFault,
            LoadError::Memory(_) => Status::OutOfMemory,
        }
    }
}

/// Writes the line that tells the status, and nothing for `Ok`.
pub fn status_line<N: Sink>(status: &Status, notes: &mut N) -> Result<(), Failed>
    ensures { Writes (N.state notes.old) (N.state notes.new) result (status_text status.now) }
{
    let line = text_of(*status);
    write_all(notes, line.as_str().as_bytes())
}

/// The line of the status.
fn text_of(status: Status) -> Line
    ensures { result.bytes ≡ status_text status }
{
    match status {
        Status::Ok => Line::new(),
        Status::Usage { code } => usage_text(code),
        Status::MapRefused { code, line, column } => map_text(code, line, column),
        Status::InputRefused { code, offset } => input_text(code, offset),
        Status::PlanTooLarge { elements } => plan_text(elements),
        Status::ReadFault => plain("read fault\n"),
        Status::WriteFault => plain("write fault\n"),
        Status::LoadFault => plain("load fault\n"),
        Status::OutOfMemory => plain("out of memory\n"),
    }
}

/// Appends a blank and the name, where there is one.
fn push_name(line: &mut Line, name: Option<&str>)
    requires short { IfSome name (λ text. length text.now ≤ 20) }
    requires room { array_string_len line.old + 21 ≤ LONGEST }
    ensures bytes { line.new.bytes ≡ line.old.bytes ++ named (option_map (λ text. text.now) name.entry) }
    ensures len { array_string_len line.new ≤ array_string_len line.old + 21 }
{
    if let Some(text) = name {
        line.push_str(" ");
        line.push_str(text);
    }
}

fn usage_text(code: u8) -> Line
    ensures { result.bytes ≡ status_text (Status.Usage code) }
{
    let mut line = plain("usage ");
    push_number(&mut line, u64::from(code));
    line.push_str(": ");
    line.push_str(USAGE);
    line.push_str("\n");
    line
}

fn map_text(code: u8, at_line: u32, column: u32) -> Line
    ensures { result.bytes ≡ status_text (Status.MapRefused code at_line column) }
{
    let mut line = plain("map refused ");
    push_number(&mut line, u64::from(code));
    push_name(&mut line, map_name(code));
    line.push_str(" at ");
    push_number(&mut line, u64::from(at_line));
    line.push_str(":");
    push_number(&mut line, u64::from(column));
    line.push_str("\n");
    line
}

fn input_text(code: u8, offset: u64) -> Line
    ensures { result.bytes ≡ status_text (Status.InputRefused code offset) }
{
    let mut line = plain("input refused ");
    push_number(&mut line, u64::from(code));
    push_name(&mut line, input_name(code));
    line.push_str(" at ");
    push_number(&mut line, offset);
    line.push_str("\n");
    line
}

fn plan_text(elements: u64) -> Line
    ensures { result.bytes ≡ status_text (Status.PlanTooLarge elements) }
{
    let mut line = plain("plan too large: ");
    push_number(&mut line, elements);
    line.push_str(" elements\n");
    line
}
