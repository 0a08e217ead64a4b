//! A generated file, a piece after another.

ghost use Rattle.std.specs.Prelude.{◌≡◌, ◌+◌, ◌<◌, ◌≤◌, ◌++◌, [], length};
ghost use Rattle.hpf_gen.specs.Left.{IsNext, AreFrames, left, elements_left, records_left};

use crate::ready::{PIECE_VALUES, Ready};
use crate::value::make_values;
use hpf_frame::head_of;

/// What frames are made: how many elements each has, their seed, and their number.
#[derive(Clone, Copy)]
pub(crate) struct Frames {
    pub(crate) size: u32,
    pub(crate) seed: u32,
    pub(crate) count: u32,
}

/// What comes next in the file: the record of a frame, or the end behind the last; the elements of a frame from one on; or
/// nothing.
#[derive(Clone, Copy)]
pub(crate) enum Next {
    Record(u32),
    Elements { frame: u32, from: u32 },
    Over,
}

/// A piece of the file, with what comes next behind it.
pub(crate) struct Piece {
    pub(crate) ready: Ready,
    pub(crate) next: Next,
}

/// The piece that comes next, of some bytes where anything does.
pub(crate) fn next_piece(frames: Frames, next: Next) -> Piece
    requires frames { AreFrames frames }
    requires next { IsNext frames next }
    ensures same { result.ready ++ left frames result.next ≡ left frames next }
    ensures next { IsNext frames result.next }
    ensures some { length result.ready ≡ 0 → left frames result.next ≡ [] }
{
    match next {
        Next::Record(frame) => head(frames, frame),
        Next::Elements { frame, from } => elements(frames, frame, from),
        Next::Over => Piece {
            ready: Ready::empty(),
            next: Next::Over,
        },
    }
}

/// The mark and number of a frame, or the end.
fn head(frames: Frames, frame: u32) -> Piece
    requires frames { AreFrames frames }
    requires next { IsNext frames (Next.Record frame) }
    ensures same { result.ready ++ left frames result.next ≡ left frames (Next.Record frame) }
    ensures next { IsNext frames result.next }
    ensures some { 0 < length result.ready }
{
    if frame == frames.count {
        Piece {
            ready: Ready::of(&head_of(0, frame)),
            next: Next::Over,
        }
    } else {
        Piece {
            ready: Ready::of(&head_of(1, frame)),
            next: Next::Elements { frame, from: 0 },
        }
    }
}

/// The elements of a frame from one on, as many as there is room for.
fn elements(frames: Frames, frame: u32, from: u32) -> Piece
    requires frames { AreFrames frames }
    requires next { IsNext frames (Next.Elements frame from) }
    ensures same { result.ready ++ left frames result.next ≡ left frames (Next.Elements frame from) }
    ensures next { IsNext frames result.next }
    ensures some { 0 < length result.ready }
{
    let count = (frames.size - from).min(PIECE_VALUES as u32);
    let mut room = [0; PIECE_VALUES];
    make_values(frames.seed, frame, from, count, &mut room);
    Piece {
        ready: Ready::of_values(&room[..count as usize]),
        next: behind(frames, frame, from + count),
    }
}

/// What comes behind the elements of a frame up to this one.
fn behind(frames: Frames, frame: u32, from: u32) -> Next
    requires frame { frame < frames.count }
    requires from { from ≤ frames.size }
    ensures same { left frames result ≡ elements_left frames frame from ++ records_left frames (frame + 1) }
    ensures next { IsNext frames result }
{
    if from == frames.size {
        Next::Record(frame + 1)
    } else {
        Next::Elements { frame, from }
    }
}
