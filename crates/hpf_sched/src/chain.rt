//! Moves one after another, kept as their runs.

ghost use Rattle.std.specs.Prelude.{◌≡◌, ◌+◌, ◌^◌, ◌<◌, ◌++◌, ◌∷◌, [], OnOk, IsTrue, ◌↔◌};
ghost use Rattle.hpf_sched.specs.declared.step.Move.{Move};
ghost use Rattle.hpf_sched.specs.Moves.{moves, AreLongest};

use crate::step::Step;
use std::alloc::{AllocError, Global};
use std::marker::Model;

/// Moves in the order in which they came. It is seen as the list of them.
#[derive(Drop)]
pub(crate) struct Chain {
    steps: Vec<Step>,
}

impl Model for Chain {
    ghost use Rattle.std.specs.Prelude.{List};
    ghost use Rattle.hpf_sched.specs.declared.step.Move.{Move};
    ghost use Rattle.hpf_sched.specs.Moves.{moves, AreLongest};

    ghost Value = { List Move };

    ghost view = { λ chain. moves chain.steps.items };

    ghost invariant = { λ chain. AreLongest chain.steps.items };
}

impl Chain {
    /// No move yet.
    pub(crate) fn new(alloc: Global) -> Chain
        ensures { result ≡ [] }
    {
        Chain {
            steps: Vec::new(alloc),
        }
    }

    /// Appends a move between these places.
    pub(crate) fn push(&mut self, from: u64, to: u64) -> Result<(), AllocError>
        requires { from < 2 ^ 63 }
        ensures { OnOk result (self.new ≡ self.old ++ record { from = from; to = to } ∷ []) }
    {
        let count = self.steps.len();
        if count > 0 && self.steps[count - 1].ends_at(from, to) {
            self.steps[count - 1].length += 1;
            return Ok(());
        }
        let step = Step {
            from,
            to,
            length: 1,
        };
        self.steps.push(step)?;
        Ok(())
    }

    /// The runs of the moves.
    pub(crate) fn into_steps(self) -> Vec<Step>
        ensures moves { moves result.items ≡ self }
        ensures longest { AreLongest result.items }
    {
        self.steps
    }
}

impl Step {
    /// Whether the places behind its last are these.
    fn ends_at(&self, from: u64, to: u64) -> bool
        ensures { IsTrue result ↔ ((from ≡ self.now.from + self.now.length) × (to ≡ self.now.to + self.now.length)) }
    {
        self.from <= from
            && from - self.from == self.length
            && self.to <= to
            && to - self.to == self.length
    }
}
