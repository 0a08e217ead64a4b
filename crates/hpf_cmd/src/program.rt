//! What the program does with what the system gives it.

ghost use Rattle.hpf_request.specs.Words.{spelled};
ghost use Rattle.hpf_stream.specs.Outside.{outside, moment};
ghost use Rattle.hpf_cmd.specs.Runs.{Called, Runs};

use crate::command::command_one;
use hpf_io::{Loader, Sink, Source};
use hpf_status::{Status, report};
use hpf_words::WordsError;
use std::alloc::Global;

/// Does what the words ask for, writes the line that tells its end to `notes`, and gives the number that the program
/// ends with. Words that couldn't be read are a faulty command line, or want of memory. Always returns.
pub fn run_program<L: Loader, S: Source, K: Sink, N: Sink>(
    alloc: Global,
    words: Result<Vec<String>, WordsError>,
    texts: &mut L,
    frames: &mut S,
    out: &mut K,
    notes: &mut N,
) -> u8
    ensures { Runs (λ words. spelled words.items) L.state (outside S.state K.state N.state) words
        texts.old texts.new (moment frames.old out.old notes.old) (moment frames.new out.new notes.new) result }
{
    let status = call(alloc, words, texts, frames, out, notes);
    report(&status, notes)
}

/// Does what the words ask for, where they could be read.
fn call<L: Loader, S: Source, K: Sink, N: Sink>(
    alloc: Global,
    words: Result<Vec<String>, WordsError>,
    texts: &mut L,
    frames: &mut S,
    out: &mut K,
    notes: &mut N,
) -> Status
    ensures { Called (λ words. spelled words.items) L.state (outside S.state K.state N.state) words
        texts.old texts.new (moment frames.old out.old notes.old) (moment frames.new out.new notes.new) result }
{
    match words {
        Ok(words) => command_one(alloc, &words, texts, frames, out, notes),
        Err(error) => Status::from(error),
    }
}
