//! The call that the program makes.

ghost use Rattle.hpf_request.specs.Words.{spelled};
ghost use Rattle.hpf_stream.specs.Outside.{outside, moment};
ghost use Rattle.hpf_cmd.specs.Promises.{Promises};

use crate::perform::perform;
use hpf_io::{Loader, Sink, Source};
use hpf_request::{one_verdict, request_of};
use hpf_status::Status;
use std::alloc::Global;

/// Does what the words ask for, on one thread. `show MAP` writes the canonical text of the map to `out`, `check MAP`
/// how much it declares, `owners MAP NAME` the owners of each element of an array, and `local MAP NAME --proc N` what
/// a processor holds of it. `make MAP --frames N` writes a file of frames made from a seed to `out`. `run MAP` reads
/// frames from `frames`, writes the frames that leave the pipeline of the map to `out`, and then the marks of its
/// processors to `notes`. Always returns.
pub fn command_one<L: Loader, S: Source, K: Sink, N: Sink>(
    alloc: Global,
    words: &[String],
    texts: &mut L,
    frames: &mut S,
    out: &mut K,
    notes: &mut N,
) -> Status
    ensures { Promises L.state (outside S.state K.state N.state) (spelled words.now) texts.old texts.new
        (moment frames.old out.old notes.old) (moment frames.new out.new notes.new) result }
{
    one_verdict();
    match request_of(alloc, words, texts) {
        Ok(request) => perform(alloc, request, frames, out, notes),
        Err(status) => status,
    }
}
