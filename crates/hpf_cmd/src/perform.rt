//! Does what is asked for.

ghost use Rattle.std.specs.Prelude.{◌≡◌, ◌≢◌, map};
ghost use Rattle.hpf_request.specs.Request.{IsMet, deed_of};
ghost use Rattle.hpf_stream.specs.Outside.{outside, moment};
ghost use Rattle.hpf_syntax.specs.Canonical.{canonical};
ghost use Rattle.hpf_syntax.specs.Parsed.{IsParsed};
ghost use Rattle.hpf_syntax.specs.Plain.{item_tree};
ghost use Rattle.hpf_cmd.specs.Does.{Does, Untouched};
ghost use Rattle.hpf_cmd.specs.Ended.{IsOfDeed};
ghost use Rattle.hpf_cmd.specs.Shows.{Shows};

use crate::check::tell_counts;
use crate::make::make_frames;
use crate::print::flushed;
use crate::run::run_form;
use crate::tell::{tell_owners, tell_part};
use hpf_io::{Sink, Source, write_all};
use hpf_request::Request;
use hpf_status::Status;
use hpf_syntax::{Items, print};
use std::alloc::Global;

/// Does what is asked for: prints a text to `out`, makes frames for it, or runs frames from `frames` to `out` and tells
/// their marks to `notes`.
pub(crate) fn perform<S: Source, K: Sink, N: Sink>(
    alloc: Global,
    request: Request,
    frames: &mut S,
    out: &mut K,
    notes: &mut N,
) -> Status
    requires { IsMet request }
    ensures done { result ≢ Status.OutOfMemory → Does (outside S.state K.state N.state)
        (moment frames.old out.old notes.old) (moment frames.new out.new notes.new) (deed_of request) result }
    ensures kinds { IsOfDeed result }
    ensures memory { result ≡ Status.OutOfMemory
        → Untouched (moment frames.old out.old notes.old) (moment frames.new out.new notes.new) }
{
    match request {
        Request::Show(items) => show(alloc, &items, out),
        Request::Check(counts) => tell_counts(counts, out),
        Request::Owners(mapping) => tell_owners(&mapping, out),
        Request::Local { owned, held } => tell_part(&owned, &held, out),
        Request::Run(form) => run_form(alloc, form, frames, out, notes),
        Request::Make {
            extents,
            frames,
            seed,
        } => make_frames(extents.as_slice(), frames, seed, out),
    }
}

/// Prints the canonical text of these statements.
fn show<K: Sink>(alloc: Global, items: &Items, out: &mut K) -> Status
    requires { IsParsed (map item_tree items.now) }
    ensures shown { result ≢ Status.OutOfMemory
        → Shows (K.state out.old) (K.state out.new) (canonical (map item_tree items.now)) result }
    ensures kinds { IsOfDeed result }
    ensures memory { result ≡ Status.OutOfMemory → out.new ≡ out.old }
{
    let Ok(text) = print(alloc, items) else {
        return Status::OutOfMemory;
    };
    let given = write_all(out, text.as_slice());
    flushed(given, out)
}
