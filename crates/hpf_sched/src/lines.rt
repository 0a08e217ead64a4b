//! Moves made dimension by dimension.

ghost use Rattle.std.specs.Prelude.{◌≡◌, ◌*◌, ◌^◌, ◌<◌, ◌≤◌, ◌++◌, cond, length, map, get_or, Some, None, All, IfOk, OnOk, ℤ, pos, ◌+ℤ◌, unsigned_abs};
ghost use Rattle.hpf_num.specs.Runs.{has};
ghost use Rattle.hpf_sched.specs.Lines.{plus, crossed, side_move, side_moves, IsSmall};
ghost use Rattle.hpf_own.specs.Limits.{element_limit};

use crate::step::Move;
use hpf_num::Runs;
use std::alloc::{AllocError, Global};

/// Each of these moves with each of those, their places added up. The second varies fastest.
pub(crate) fn crossed(alloc: Global, lines: &[Move], side: &[Move]) -> Result<Vec<Move>, AllocError>
    requires lines { All (IsSmall 6) lines.now }
    requires side { All (IsSmall 1) side.now }
    ensures { IfOk result (λ moves. moves.items ≡ crossed lines.now side.now) }
{
    let mut moves = Vec::new(alloc);
    for line in lines {
        push_line(&mut moves, *line, side)?;
    }
    Ok(moves)
}

/// Appends one of them with each of those.
fn push_line(moves: &mut Vec<Move>, line: Move, side: &[Move]) -> Result<(), AllocError>
    requires line { IsSmall 6 line }
    requires side { All (IsSmall 1) side.now }
    ensures { OnOk result (moves.new.items ≡ moves.old.items ++ map (plus line) side.now) }
{
    for item in side {
        moves.push(Move {
            from: line.from + item.from,
            to: line.to + item.to,
        })?;
    }
    Ok(())
}

/// How the places of a part rise with its subscripts in one dimension, and by what a subscript of the receiver and the
/// corresponding one of the sender differ.
#[derive(Clone, Copy)]
pub(crate) struct Rise {
    pub(crate) shift: i64,
    pub(crate) from: u64,
    pub(crate) to: u64,
}

/// What the subscripts of one dimension add to the places, of those that the receiver holds and the sender owns.
pub(crate) fn side_moves(
    alloc: Global,
    owned: &Runs,
    held: &Runs,
    rise: Rise,
) -> Result<Vec<Move>, AllocError>
    requires owned { length owned.now ≤ element_limit }
    requires held { length held.now ≤ element_limit }
    requires shift { unsigned_abs rise.shift ≤ 2 ^ 32 }
    requires from { rise.from ≤ element_limit }
    requires to { rise.to ≤ element_limit }
    ensures { IfOk result (λ moves. moves.items ≡ side_moves owned.now held.now rise.shift rise.from rise.to) }
{
    let mut moves = Vec::new(alloc);
    for k in 0..held.count() {
        if let Some(item) = side_move(owned, held, rise, k) {
            moves.push(item)?;
        }
    }
    Ok(moves)
}

/// What the subscript at place `k` adds to them, if it is one of these.
fn side_move(owned: &Runs, held: &Runs, rise: Rise, k: u64) -> Option<Move>
    requires place { k < length held.now }
    requires owned { length owned.now ≤ element_limit }
    requires held { length held.now ≤ element_limit }
    requires shift { unsigned_abs rise.shift ≤ 2 ^ 32 }
    requires from { rise.from ≤ element_limit }
    requires to { rise.to ≤ element_limit }
    ensures { let x = get_or held.now k (pos 0) in
        result ≡ cond (has owned.now (x +ℤ rise.shift)) (Some (side_move owned.now held.now rise.shift rise.from rise.to x)) None }
{
    let _ = held.count();
    let _ = owned.count();
    let i = held.nth(k)?;
    let j = owned.rank(i + rise.shift)?;
    Some(Move {
        from: j * rise.from,
        to: k * rise.to,
    })
}
