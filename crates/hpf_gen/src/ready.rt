//! Bytes that are made and not yet read.

ghost use Rattle.std.specs.Prelude.{◌≡◌, ◌≤◌, ◌*◌, Bool, nat_eq, min, take, drop, length, []};
ghost use Rattle.std.specs.List.{flat_map};
ghost use Rattle.hpf_frame.specs.FrameFile.{version_one, element};

use hpf_frame::encode;
use std::marker::Model;

/// How many bytes are made at a time.
pub(crate) const PIECE: usize = 8192;

/// How many values are.
pub(crate) const PIECE_VALUES: usize = PIECE / 4;

/// Bytes that are made and not yet read. They are seen as their list.
#[derive(Drop)]
pub(crate) struct Ready {
    bytes: [u8; PIECE],
    at: usize,
    end: usize,
}

impl Model for Ready {
    ghost use Rattle.std.specs.Prelude.{ℕ, List, ◌≤◌, take, drop, length};
    ghost use Rattle.hpf_gen.specs.Left.{IsCut};

    ghost Value = { List ℕ };

    ghost view = { λ r. drop r.at (take r.end r.bytes) };

    ghost invariant = { λ r. IsCut r.at r.end (length r.bytes) };
}

impl Ready {
    /// No bytes.
    pub(crate) fn empty() -> Ready
        ensures { result ≡ [] }
    {
        Ready {
            bytes: [0; PIECE],
            at: 0,
            end: 0,
        }
    }

    /// These bytes.
    pub(crate) fn of(piece: &[u8]) -> Ready
        requires { length piece.now ≤ PIECE }
        ensures { result ≡ piece.now }
    {
        let mut bytes = [0; PIECE];
        bytes[..piece.len()].copy_from_slice(piece);
        Ready {
            bytes,
            at: 0,
            end: piece.len(),
        }
    }

    /// The bytes of these values.
    pub(crate) fn of_values(values: &[i32]) -> Ready
        requires { 4 * length values.now ≤ PIECE }
        ensures { result ≡ flat_map (element version_one) values.now }
    {
        let mut bytes = [0; PIECE];
        encode(values, &mut bytes);
        Ready {
            bytes,
            at: 0,
            end: 4 * values.len(),
        }
    }

    /// Whether there are none.
    pub(crate) fn is_empty(&self) -> bool
        ensures { result ≡ nat_eq (length self.now) 0 }
    {
        self.at == self.end
    }

    /// Moves as many as there are and fit into the front of `into`, and answers how many.
    pub(crate) fn take(&mut self, into: &mut [u8]) -> usize
        ensures count { result ≡ min (length into.old) (length self.old) }
        ensures moved { take result into.new ≡ take result self.old }
        ensures left { self.new ≡ drop result self.old }
        ensures rest { drop result into.new ≡ drop result into.old }
    {
        let left = &self.bytes[self.at..self.end];
        let count = into.len().min(left.len());
        into[..count].copy_from_slice(&left[..count]);
        self.at += count;
        count
    }
}
