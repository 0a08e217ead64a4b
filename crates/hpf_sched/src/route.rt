//! Routes between parts.

ghost use Rattle.std.specs.Prelude.{◌≡◌, ◌^◌, ◌<◌, length, slice_get, Some, All, IfOk};
ghost use Rattle.hpf_sched.specs.Moves.{moves, runs, straight, EntersInOrder};

use crate::chain::Chain;
use crate::step::Step;
use std::alloc::{AllocError, Global};
use std::marker::Model;

/// Which elements move from one part to another. It is seen as the list of their moves, each with the place in the part
/// that it leaves and the place in the part that it enters, in the order of the places entered. No place is entered twice.
#[derive(Drop)]
pub struct Route {
    steps: Vec<Step>,
    elements: u64,
}

impl Model for Route {
    ghost use Rattle.std.specs.Prelude.{List};
    ghost use Rattle.hpf_sched.specs.declared.step.Move.{Move};
    ghost use Rattle.hpf_sched.specs.Moves.{moves, IsKeptAs};

    ghost Value = { List Move };

    ghost view = { λ route. moves route.steps.items };

    ghost invariant = { λ route. IsKeptAs route.steps.items route.elements };
}

impl Route {
    /// Each of so many places leads to itself.
    pub fn straight(alloc: Global, count: u64) -> Result<Route, AllocError>
        ensures { IfOk result (λ route. route ≡ straight count) }
    {
        let mut steps = Vec::new(alloc);
        if count > 0 {
            let whole = Step {
                from: 0,
                to: 0,
                length: count,
            };
            steps.push(whole)?;
        }
        Ok(Route {
            steps,
            elements: count,
        })
    }

    /// The number of elements that move.
    pub fn elements(&self) -> u64
        ensures count { result ≡ length self.now }
        ensures order { EntersInOrder self.now }
    {
        self.elements
    }

    /// The number of steps: the stretches, as long as possible, in which both places rise by one.
    pub fn steps(&self) -> u64
        ensures { result ≡ length (runs self.now) }
    {
        self.steps.len() as u64
    }

    /// The step with number `k`, from 0 and in order.
    pub fn step(&self, k: u64) -> Step
        requires { k < length (runs self.now) }
        ensures { slice_get (runs self.now) k ≡ Some result }
    {
        self.steps[k as usize]
    }

    /// The route of these moves.
    pub(crate) fn of(chain: Chain) -> Route
        requires order { EntersInOrder chain }
        requires small { All (λ move. move.to < 2 ^ 63) chain }
        ensures { result ≡ chain }
    {
        let steps = chain.into_steps();
        let elements = total(steps.as_slice());
        Route { steps, elements }
    }
}

/// The number of moves of these steps.
fn total(steps: &[Step]) -> u64
    requires { length (moves steps.now) < 2 ^ 64 }
    ensures { result ≡ length (moves steps.now) }
{
    let mut elements = 0;
    for step in steps {
        elements += step.length;
    }
    elements
}
