//! The routes from one mapping to another.

ghost use Rattle.std.specs.Prelude.{◌≡◌, ℕ, ◌^◌, ◌<◌, ◌≤◌, List, ℤ, length, map, take, All, IfOk};
ghost use Rattle.hpf_own.specs.Space.{product};
ghost use Rattle.hpf_own.specs.Lists.{IsPerm};
ghost use Rattle.hpf_own.specs.Mapping.{AreInLimits};
ghost use Rattle.hpf_own.specs.Held.{IsMadeOf, owned_part, held_part};
ghost use Rattle.hpf_own.specs.Correspondence.{ExtentsAgree};
ghost use Rattle.hpf_sched.specs.Lines.{IsSmall, box_moves, box_side};
ghost use Rattle.hpf_sched.specs.Transfer.{transfer};
ghost use Rattle.hpf_own.specs.Limits.{dimension_limit, element_limit};

use crate::chain::Chain;
use crate::lines::{Rise, crossed, side_moves};
use crate::route::Route;
use crate::step::Move;
use hpf_own::{Bounds, Held, Mapping, Perm, laws};
use std::alloc::{AllocError, Global};

impl Route {
    /// What goes from processor `p` of `from` to processor `q` of `to`, under the permutation `perm`: the elements that `q`
    /// holds whose source has the sender `p`, in the element order of the receiver.
    pub fn plan(
        alloc: Global,
        from: &Mapping,
        to: &Mapping,
        perm: &Perm,
        p: u32,
        q: u32,
    ) -> Result<Route, AllocError>
        requires agree { ExtentsAgree from.now.bounds to.now.bounds perm.now }
        requires sender { p < product from.now.procs }
        requires receiver { q < product to.now.procs }
        ensures { IfOk result (λ route. route ≡ transfer from.now to.now perm.now p q) }
    {
        let owned = from.owned(alloc, p)?;
        let held = to.held(alloc, q)?;
        Route::between(alloc, from, &owned, p, to, &held, q, perm)
    }

    /// The same, from the parts of both: what `p` owns, and what `q` holds.
    pub fn between(
        alloc: Global,
        from: &Mapping,
        owned: &Held,
        p: u32,
        to: &Mapping,
        held: &Held,
        q: u32,
        perm: &Perm,
    ) -> Result<Route, AllocError>
        requires agree { ExtentsAgree from.now.bounds to.now.bounds perm.now }
        requires sender { p < product from.now.procs }
        requires receiver { q < product to.now.procs }
        requires owned { owned.now ≡ owned_part from.now p }
        requires held { held.now ≡ held_part to.now q }
        ensures { IfOk result (λ route. route ≡ transfer from.now to.now perm.now p q) }
    {
        laws::element_order();
        laws::correspondence();
        laws::one_sender();
        laws::places();
        let bounds = to.bounds();
        let before = from.bounds();
        let _ = perm.as_slice();
        let _ = (held.rank(), owned.rank());
        let _ = held.runs(0);
        let _ = owned.runs(0);
        if !from.sends(p) {
            return Ok(Route::of(Chain::new(alloc)));
        }
        let moves = moves_between(alloc, before, owned, bounds, held, perm)?;
        let chain = joined(alloc, moves.as_slice())?;
        Ok(Route::of(chain))
    }
}

/// The moves between these parts, of all dimensions together.
fn moves_between(
    alloc: Global,
    before: &Bounds,
    owned: &Held,
    bounds: &Bounds,
    held: &Held,
    perm: &Perm,
) -> Result<Vec<Move>, AllocError>
    requires before { AreInLimits before.now }
    requires bounds { AreInLimits bounds.now }
    requires agree { ExtentsAgree before.now bounds.now perm.now }
    requires owned { owned.now.rank ≡ length perm.now }
    requires held { held.now.rank ≡ length perm.now }
    ensures moves { IfOk result (λ moves. (os hs : List (List ℤ)) → IsMadeOf owned.now os → IsMadeOf held.now hs
        → moves.items ≡ box_moves (box_side before.now bounds.now perm.now os hs) 0 (length perm.now)) }
    ensures small { IfOk result (λ moves. All (IsSmall dimension_limit) moves.items) }
{
    let mut moves = Vec::new(alloc);
    moves.push(Move { from: 0, to: 0 })?;
    let mut d = held.rank();
    while d > 0 {
        d -= 1;
        let side = moves_along(alloc, before, owned, bounds, held, perm, d)?;
        moves = crossed(alloc, moves.as_slice(), side.as_slice())?;
    }
    Ok(moves)
}

/// What the subscripts of dimension `d` of the receiving array add to the places.
fn moves_along(
    alloc: Global,
    before: &Bounds,
    owned: &Held,
    bounds: &Bounds,
    held: &Held,
    perm: &Perm,
    d: u32,
) -> Result<Vec<Move>, AllocError>
    requires before { AreInLimits before.now }
    requires bounds { AreInLimits bounds.now }
    requires agree { ExtentsAgree before.now bounds.now perm.now }
    requires owned { owned.now.rank ≡ length perm.now }
    requires held { held.now.rank ≡ length perm.now }
    requires dimension { d < length perm.now }
    ensures moves { IfOk result (λ moves. (os hs : List (List ℤ)) → IsMadeOf owned.now os → IsMadeOf held.now hs
        → moves.items ≡ box_side before.now bounds.now perm.now os hs d) }
    ensures small { IfOk result (λ moves. All (IsSmall 1) moves.items) }
{
    laws::places();
    laws::products();
    let _ = (owned.rank(), held.rank());
    let e = perm.as_slice()[d as usize] - 1;
    let rise = Rise {
        shift: before.at(e).low - bounds.at(d).low,
        from: stride(owned, e),
        to: stride(held, d),
    };
    side_moves(alloc, owned.runs(e), held.runs(d), rise)
}

/// By how much the place of an element rises with the place of its subscript in dimension `d`.
fn stride(part: &Held, d: u32) -> u64
    requires { d < part.now.rank }
    ensures stride { (sides : List (List ℤ)) → IsMadeOf part.now sides → result ≡ product (take d (map length sides)) }
    ensures few { result ≤ element_limit }
{
    laws::places();
    laws::products();
    let _ = part.rank();
    let mut stride = 1;
    for e in 0..d {
        stride *= part.runs(e).count();
    }
    stride
}

/// These moves, one after another.
fn joined(alloc: Global, moves: &[Move]) -> Result<Chain, AllocError>
    requires { All (IsSmall dimension_limit) moves.now }
    ensures { IfOk result (λ chain. chain ≡ moves.now) }
{
    let mut chain = Chain::new(alloc);
    for item in moves {
        chain.push(item.from, item.to)?;
    }
    Ok(chain)
}
