//! Frames on their way from a source, through a consumer, to a sink.

ghost use Rattle.std.specs.Prelude.{◌≡◌, ℕ, ℤ, ◌<◌, ◌≤◌, ◌^◌, [], ◌∷◌, ◌++◌, List, true, false, length, Ok, Err, IfErr, OnOk};
ghost use Rattle.hpf_frame.specs.FrameFile.{version_one, AreExtents, elements};
ghost use Rattle.hpf_stream.specs.Outside.{outside, moment, Flushes};
ghost use Rattle.hpf_stream.specs.Flow.{whole};
ghost use Rattle.hpf_stream.specs.Passes.{Passes};
ghost use Rattle.hpf_stream.specs.Ends.{Halts, ReadsFile};
ghost use Rattle.hpf_stream.specs.Streams.{Streams};

use crate::consumer::Consumer;
use crate::stop::Stop;
use hpf_frame::{Next, Progress, read_frame, read_header};
use hpf_io::{Sink, Source};

/// Reads the next frame into `frame`, and hands it to the consumer. False at the end of the input.
fn pass_frame<C: Consumer, S: Source, K: Sink>(
    consumer: &mut C,
    frame: &mut [i32],
    at: &mut Progress,
    frames: &mut S,
    out: &mut K,
) -> Result<bool, Stop>
    requires live { at.old.live ≡ true }
    requires offset { at.old.offset ≤ 2 ^ 62 }
    requires some { 0 < length frame.old }
    requires few { length frame.old ≤ 2 ^ 24 }
    requires size { length frame.old ≡ elements (C.flow consumer.old).enters }
    requires known { (all : List (List ℤ)) × C.has_taken consumer.old all }
    ensures passed { Passes (C.flow consumer.old) (length frame.old) at.old at.new frame.new
        (S.state frames.old) (S.state frames.new) (K.state out.old) (K.state out.new) result }
    ensures same { C.flow consumer.new ≡ C.flow consumer.old }
    ensures taken { (all : List (List ℤ)) → C.has_taken consumer.old all → length all ≡ at.old.frames
        → ((result ≡ Ok true → C.has_taken consumer.new (all ++ frame.new ∷ []))
        × (result ≡ Ok false → C.has_taken consumer.new all)) }
{
    let number = at.frames;
    match read_frame(frames, at, frame)? {
        Next::End => Ok(false),
        Next::Frame => {
            consumer.take(number, frame, out)?;
            Ok(true)
        }
    }
}

/// Reads all frames, hands them to the consumer, closes and flushes what it gives for them.
fn pass_frames<C: Consumer, S: Source, K: Sink>(
    consumer: &mut C,
    extents: &[u32],
    frame: &mut [i32],
    frames: &mut S,
    out: &mut K,
) -> Result<(), Stop>
    requires enters { extents.now ≡ (C.flow consumer.old).enters }
    requires extents { AreExtents extents.now }
    requires size { length frame.old ≡ elements extents.now }
    requires none { C.has_taken consumer.old [] }
    ensures passed { OnOk result ((all : List (List ℤ))
        × ReadsFile version_one (C.flow consumer.old).enters all (S.state frames.old) (S.state frames.new)
        × Flushes (K.state out.old) (K.state out.new) (whole (C.flow consumer.old) version_one all)
        × C.has_taken consumer.new all) }
    ensures stopped { IfErr result (λ stop. Halts (C.flow consumer.old)
        (S.state frames.old) (S.state frames.new) (K.state out.old) (K.state out.new) (Err stop)) }
    ensures same { C.flow consumer.new ≡ C.flow consumer.old }
{
    let mut at = read_header(frames, extents)?;
    consumer.begin(out)?;
    while pass_frame(consumer, frame, &mut at, frames, out)? {}
    consumer.close(at.frames, out)?;
    out.flush()?;
    Ok(())
}

/// Reads all frames through the consumer to `out`, flushes that, and then gives the lines for them to `notes`. The
/// frames have these extents, and each is read into `frame`. It stops where the input is refused, or the source or a
/// sink fails.
pub fn stream<C: Consumer, S: Source, K: Sink, N: Sink>(
    consumer: &mut C,
    extents: &[u32],
    frame: &mut [i32],
    frames: &mut S,
    out: &mut K,
    notes: &mut N,
) -> Result<(), Stop>
    requires enters { extents.now ≡ (C.flow consumer.old).enters }
    requires extents { AreExtents extents.now }
    requires size { length frame.old ≡ elements extents.now }
    requires none { C.has_taken consumer.old [] }
    ensures { Streams (outside S.state K.state N.state) (C.flow consumer.old)
        (moment frames.old out.old notes.old) (moment frames.new out.new notes.new) result }
{
    pass_frames(consumer, extents, frame, frames, out)?;
    consumer.note(notes)?;
    Ok(())
}
