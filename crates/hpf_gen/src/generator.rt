//! The source of generated frames.

ghost use Rattle.std.specs.Prelude.{◌≡◌, ◌≤◌, ◌<◌, ◌++◌, [], length, take, drop, Some, IfOk, IsOk};
ghost use Rattle.hpf_frame.specs.FrameFile.{version_one, AreExtents, elements};
ghost use Rattle.hpf_gen.specs.Generated.{generated};
ghost use Rattle.hpf_io.specs.Bytes.{IsOver};

use crate::piece::{Frames, Next, Piece, next_piece};
use crate::ready::Ready;
use hpf_frame::{LONGEST_HEADER, put_header};
use hpf_io::{Failed, Source};
use std::marker::Model;

/// A source of a frame file whose values are made from a seed. It takes no memory and never fails. It is seen as the list of
/// the bytes that are left.
#[derive(Drop)]
pub struct GenSource {
    frames: Frames,
    ready: Ready,
    next: Next,
}

impl Model for GenSource {
    ghost use Rattle.std.specs.Prelude.{ℕ, List, ◌++◌};
    ghost use Rattle.hpf_gen.specs.Left.{IsGoing, left};

    ghost Value = { List ℕ };

    ghost view = { λ g. g.ready ++ left g.frames g.next };

    ghost invariant = { λ g. IsGoing g.frames g.next };
}

impl GenSource {
    /// The file of so many frames of an array with these extents, made from this seed.
    pub fn new(extents: &[u32], seed: u32, frames: u32) -> GenSource
        requires { AreExtents extents.now }
        ensures { result ≡ generated version_one extents.now seed frames }
    {
        let mut header = [0; LONGEST_HEADER];
        let len = put_header(extents, &mut header);
        let frames = Frames {
            size: size_of(extents),
            seed,
            count: frames,
        };
        GenSource {
            frames,
            ready: Ready::of(&header[..len]),
            next: Next::Record(0),
        }
    }

    /// Moves some bytes, where any are left, into the front of `into`, and answers how many.
    pub fn take(&mut self, into: &mut [u8]) -> usize
        ensures within { result ≤ length into.old }
        ensures moved { self.old ≡ take result into.new ++ self.new }
        ensures rest { drop result into.new ≡ drop result into.old }
        ensures ended { result ≡ 0 → 0 < length into.old → self.new ≡ [] }
    {
        if self.ready.is_empty() {
            let Piece { ready, next } = next_piece(self.frames, self.next);
            self.ready = ready;
            self.next = next;
        }
        self.ready.take(into)
    }
}

impl Source for GenSource {
    ghost state = { λ g. record { left = Some g; faults = 0 } };

    fn read(&mut self, into: &mut [u8]) -> Result<usize, Failed>
        ensures sure { IsOk result }
        ensures within { IfOk result (λ n. n ≤ length into.old) }
        ensures moved { IfOk result (λ n. self.old ≡ take n into.new ++ self.new) }
        ensures rest { IfOk result (λ n. drop n into.new ≡ drop n into.old) }
        ensures ended { IfOk result (λ n. n ≡ 0 → 0 < length into.old → IsOver (record { left = Some self.new; faults = 0 })) }
    {
        Ok(self.take(into))
    }

    ghost use Rattle.std.proofs.Common.{arith};

    ghost told_below_last = { λ s e. absurd (Prim.omega arith) };
}

/// How many elements an array with these extents has.
fn size_of(extents: &[u32]) -> u32
    requires { AreExtents extents.now }
    ensures { result ≡ elements extents.now }
{
    let mut size = 1;
    for extent in extents {
        size *= *extent;
    }
    size
}
