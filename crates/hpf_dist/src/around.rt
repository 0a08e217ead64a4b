//! Positions around one that are sure to have its owner.

ghost use Rattle.std.specs.Prelude.{◌≡◌, ℕ, ◌-◌, ◌*◌, ◌%◌, ◌^◌, ◌<◌, ◌≤◌, ◌≤ℤ◌, pos, ◌+ℤ◌, ◌*ℤ◌};
ghost use Rattle.hpf_dist.specs.Spread.{owner_at};

use crate::axis::Axis;

/// How many positions directly below one and directly above it are sure to have its owner.
#[derive(Clone, Copy)]
pub(crate) struct Around {
    pub(crate) below: u64,
    pub(crate) above: u64,
}

impl Axis {
    /// How many of the positions `t`, `t + step`, `t + 2 * step` and so on, itself among them, are sure to have the owner
    /// of `t`.
    pub(crate) fn alike(&self, t: i64, step: i64) -> u64
        requires low { self.now.low ≤ℤ t }
        requires high { t ≤ℤ self.now.high }
        ensures some { 1 ≤ result }
        ensures small { result ≤ 2 ^ 32 }
        ensures same { (j : ℕ) → j < result → owner_at self.now (t +ℤ (pos j *ℤ step)) ≡ owner_at self.now t }
    {
        let around = self.around(self.positions_before(t));
        let room = if step < 0 { around.below } else { around.above };
        stretch(room, step.unsigned_abs())
    }
}

/// How many steps of this width stay within so many positions, with the one at the start; one where it has no width.
fn stretch(room: u64, width: u64) -> u64
    requires { room < 2 ^ 32 }
    ensures some { 1 ≤ result }
    ensures small { result ≤ 2 ^ 32 }
    ensures within { (j : ℕ) → j < result → j * width ≤ room }
{
    match room.checked_div(width) {
        Some(steps) => steps + 1,
        None => 1,
    }
}

/// The positions around the one with so many before it in blocks of this width.
pub(crate) fn in_block(before: u64, width: u64) -> Around
    requires { 1 ≤ width }
    ensures { result ≡ record { below = before % width; above = width - 1 - before % width } }
{
    let below = before % width;
    Around {
        below,
        above: width - 1 - below,
    }
}
