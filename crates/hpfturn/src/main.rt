//! The program: its words, the files and the standard streams of the system, given to the one call that does the rest.
#![tactic(auto)]

ghost use Rattle.std.specs.Prelude.{◌≡◌, ◌≢◌};
ghost use Rattle.std.specs.IoError.{error_kind};
ghost use Rattle.hpf_status.specs.Statuses.{words_status};
ghost use Rattle.hpf_status.specs.declared.status.Status.{Status};

use hpf_cmd::{WordsError, run_program};
use hpf_io::{FileLoader, StdSink, StdSource};
use std::alloc::AllocError;
use std::io::ErrorKind;
use std::process::ExitCode;
use std::{env, io};

/// Ends with the number that `run_program` gives.
fn main(rt: HostRuntime) -> ExitCode {
    let number = run_program(
        rt.alloc(),
        words_of(&rt),
        &mut FileLoader::new(&rt),
        &mut StdSource::new(rt.stdin()),
        &mut StdSink::new(rt.stdout()),
        &mut StdSink::new(rt.stderr()),
    );
    ExitCode::from(number)
}

/// The words of the command line, the program's name first.
fn words_of(rt: &HostRuntime) -> Result<Vec<String>, WordsError> {
    let words = env::args(rt).map_err(|error| words_error(&error))?;
    Ok(words.collect(rt.alloc())?)
}

/// Why the words couldn't be taken: words that aren't text are a faulty command line.
fn words_error(error: &io::Error) -> WordsError
    ensures memory { error_kind error.now ≡ ErrorKind.OutOfMemory → words_status result ≡ Status.OutOfMemory }
    ensures refused { error_kind error.now ≢ ErrorKind.OutOfMemory → words_status result ≡ Status.Usage 1 }
{
    match error.kind() {
        ErrorKind::OutOfMemory => WordsError::from(AllocError),
        _ => WordsError::Refused,
    }
}
