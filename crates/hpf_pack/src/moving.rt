//! Values move by steps. No memory is taken.

ghost use Rattle.std.specs.Prelude.{◌≡◌, ◌≢◌, ℕ, ◌+◌, ◌<◌, ◌≤◌, length, slice_get, Some, All};
ghost use Rattle.hpf_sched.specs.declared.step.Move.{Move};
ghost use Rattle.hpf_pack.specs.Packing.{packed, copied};

use hpf_sched::Route;

/// Writes the values at the sender's places of a route, in its order.
pub fn pack(route: &Route, from: &[i32], into: &mut [i32])
    requires places { All (λ move. move.from < length from.now) route.now }
    requires room { length into.old ≡ length route.now }
    ensures { into.new ≡ packed route.now from.now }
{
    hpf_sched::laws::whole_steps();
    let mut at = 0;
    for k in 0..route.steps() {
        let step = route.step(k);
        let count = step.length as usize;
        let first = step.from as usize;
        copy(from, first, into, at, count);
        at += count;
    }
}

/// Writes these values, of which there is one for each element of a route in its order, at the receiver's places. All other
/// places stay as they are.
pub fn unpack(route: &Route, from: &[i32], into: &mut [i32])
    requires values { length from.now ≡ length route.now }
    requires places { All (λ move. move.to < length into.old) route.now }
    ensures written { (k : ℕ) (move : Move) → slice_get route.now k ≡ Some move
        → slice_get into.new move.to ≡ slice_get from.now k }
    ensures others { (place : ℕ) → ((k : ℕ) (move : Move) → slice_get route.now k ≡ Some move → move.to ≢ place)
        → slice_get into.new place ≡ slice_get into.old place }
{
    hpf_sched::laws::whole_steps();
    let _ = route.elements();
    let mut at = 0;
    for k in 0..route.steps() {
        let step = route.step(k);
        let count = step.length as usize;
        let first = step.to as usize;
        copy(from, at, into, first, count);
        at += count;
    }
}

/// Copies so many values from place `first` on to place `at` and those behind it.
fn copy(from: &[i32], first: usize, into: &mut [i32], at: usize, count: usize)
    requires from { first + count ≤ length from.now }
    requires into { at + count ≤ length into.old }
    ensures { into.new ≡ copied from.now first into.old at count }
{
    into[at..at + count].copy_from_slice(&from[first..first + count]);
}
