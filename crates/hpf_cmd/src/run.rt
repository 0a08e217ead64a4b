//! A run of a form: each frame leaves as it came, and the marks of all processors are told.

ghost use Rattle.std.specs.Prelude.{◌≡◌, ◌≢◌, []};
ghost use Rattle.hpf_frame.specs.FrameFile.{elements};
ghost use Rattle.hpf_request.specs.Deed.{Stream};
ghost use Rattle.hpf_request.specs.Parts.{HaveTaken, places};
ghost use Rattle.hpf_request.specs.Pipeline.{flow_of};
ghost use Rattle.hpf_stream.specs.Outside.{outside, moment};
ghost use Rattle.hpf_cmd.specs.Does.{Does, Untouched};
ghost use Rattle.hpf_cmd.specs.Ended.{IsOfDeed};

use crate::ended::ended;
use crate::marks::mark_lines;
use hpf_frame::{write_end, write_frame, write_header};
use hpf_io::{Failed, Sink, Source};
use hpf_request::{Form, Part, add_frame};
use hpf_status::Status;
use hpf_stream::{Consumer, stream};
use std::alloc::Global;

/// The parts of an array with these extents, with their marks so far.
#[derive(Drop)]
pub(crate) struct Run<'a> {
    extents: &'a [u32],
    parts: Vec<Part>,
}

impl Consumer for Run<'_> {
    ghost flow = { λ run. flow_of (record { extents = run.extents.now; parts = places run.parts.items }) };

    ghost has_taken = { λ run frames. HaveTaken run.extents.now run.parts.items frames };

    fn begin<K: Sink>(&self, out: &mut K) -> Result<(), Failed> {
        write_header(out, self.extents)
    }

    fn take<K: Sink>(&mut self, number: u32, frame: &[i32], out: &mut K) -> Result<(), Failed> {
        add_frame(&mut self.parts, number, frame);
        write_frame(out, number, frame)
    }

    fn close<K: Sink>(&self, count: u32, out: &mut K) -> Result<(), Failed> {
        write_end(out, count)
    }

    fn note<N: Sink>(&self, notes: &mut N) -> Result<(), Failed> {
        mark_lines(&self.parts, notes)
    }
}

/// Runs the frames of a form, and tells the marks of its parts.
pub(crate) fn run_form<S: Source, K: Sink, N: Sink>(
    alloc: Global,
    form: Form,
    frames: &mut S,
    out: &mut K,
    notes: &mut N,
) -> Status
    requires taken { HaveTaken form.extents.items form.parts.items [] }
    requires elements { form.elements ≡ elements form.extents.items }
    ensures done { result ≢ Status.OutOfMemory → Does (outside S.state K.state N.state)
        (moment frames.old out.old notes.old) (moment frames.new out.new notes.new)
        (Stream (flow_of (record { extents = form.extents.items; parts = places form.parts.items }))) result }
    ensures kinds { IsOfDeed result }
    // Want of memory comes before anything else.
    ensures memory { result ≡ Status.OutOfMemory
        → Untouched (moment frames.old out.old notes.old) (moment frames.new out.new notes.new) }
{
    let Form {
        extents,
        elements,
        parts,
    } = form;
    let Ok(mut frame) = vec![in alloc; 0; elements as usize] else {
        return Status::OutOfMemory;
    };
    let extents = extents.as_slice();
    let mut run = Run { extents, parts };
    ended(stream(&mut run, extents, &mut frame, frames, out, notes))
}
