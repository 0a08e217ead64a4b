//! What one processor holds of an array.

ghost use Rattle.std.specs.Prelude.{◌≡◌, ◌+◌, ◌-◌, ◌*◌, ◌^◌, ◌<◌, pos, ◌+ℤ◌, ◌*ℤ◌, [], ◌∷◌, ◌++◌, length, IfOk};
ghost use Rattle.std.specs.Int.{w64, int_wrap};
ghost use Rattle.hpf_request.specs.Parts.{IsWithin, marked_by};

use std::alloc::{AllocError, Global};
use std::marker::Model;

/// The places of the elements that a processor holds, counted from 1, in order, and the mark of its values in the
/// frames so far.
#[derive(Drop)]
pub struct Part {
    positions: Vec<u32>,
    mark: i64,
}

impl Model for Part {
    ghost use Rattle.std.specs.Int.{w64, cast_unsigned};
    ghost use Rattle.hpf_request.specs.Parts.{Holding};

    ghost Value = { Holding };

    ghost view = { λ part. record { positions = part.positions.items; mark = cast_unsigned w64 part.mark } };
}

impl Part {
    /// A part that holds nothing.
    pub(crate) fn new(alloc: Global) -> Part
        ensures { result ≡ record { positions = []; mark = 0 } }
    {
        Part {
            positions: Vec::new(alloc),
            mark: 0,
        }
    }

    /// Gives the part one further position.
    pub(crate) fn push(&mut self, position: u32) -> Result<(), AllocError>
        ensures { IfOk result (λ _. self.new
            ≡ record self.old { positions = self.old.positions ++ position ∷ [] }) }
    {
        self.positions.push(position)?;
        Ok(())
    }

    /// Adds the values at the part's positions to its mark. The frame has this number, counted from 0.
    pub(crate) fn add(&mut self, number: u32, frame: &[i32])
        requires { IsWithin (length frame.now) self.old }
        ensures { self.new ≡ marked_by number frame.now self.old }
    {
        let mut mark = self.mark;
        for (before, position) in self.positions.iter().enumerate() {
            let value = frame[*position as usize - 1];
            mark = with_value(mark, weight_of(number, before), value);
        }
        self.mark = mark;
    }

    /// How many elements the processor holds.
    pub fn held(&self) -> u64
        ensures { result ≡ length self.now.positions }
    {
        self.positions.len() as u64
    }

    /// The mark, below 2^64.
    pub fn sum(&self) -> u64
        ensures { result ≡ self.now.mark }
    {
        self.mark.cast_unsigned()
    }
}

/// The weight, modulo 2^64, of a value in the frame with this number that has so many values of its part before it.
fn weight_of(number: u32, before: usize) -> i64
    requires { before < 2 ^ 63 - 1 }
    ensures { result ≡ int_wrap w64 (pos ((number + 1) * (before + 1))) }
{
    (i64::from(number) + 1).wrapping_mul(before as i64 + 1)
}

/// The mark, modulo 2^64, once it has taken in the weighted value.
fn with_value(mark: i64, weight: i64, value: i32) -> i64
    ensures { result ≡ int_wrap w64 (mark +ℤ (weight *ℤ value)) }
{
    mark.wrapping_add(weight.wrapping_mul(i64::from(value)))
}
