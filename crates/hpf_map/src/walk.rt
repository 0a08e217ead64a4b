//! Walks from name to name.

ghost use Rattle.std.specs.Prelude.{◌≡◌, ℕ, Bool, IfOk, if◌then◌else◌};
ghost use Rattle.hpf_map.specs.Ends.{target};
ghost use Rattle.hpf_map.specs.Ways.{step, walk_end};

use crate::way::{Way, way_at};
use std::alloc::{AllocError, Global};
use std::marker::Model;

/// Where one comes to from each name, by the places of names. It is seen as the list of where one comes to from the
/// first names. One stays at any other.
#[derive(Drop)]
pub(crate) struct Walk {
    targets: Vec<usize>,
}

impl Model for Walk {
    ghost use Rattle.std.specs.Prelude.{ℕ, List};

    ghost Value = { List ℕ };

    ghost view = { λ w. w.targets.items };
}

impl Walk {
    /// The walk of no steps.
    fn nowhere(alloc: Global) -> Walk
        ensures { (n : ℕ) → target result n ≡ n }
    {
        Walk {
            targets: Vec::new(alloc),
        }
    }

    /// The walk of one step, from alignee to base.
    fn step(alloc: Global, ways: &[Way]) -> Result<Walk, AllocError>
        ensures { IfOk result (λ w. (n : ℕ) → target w n ≡ step ways.now n) }
    {
        let mut targets = Vec::new(alloc);
        for (name, way) in ways.iter().enumerate() {
            targets.push(way.step_from(name))?;
        }
        Ok(Walk { targets })
    }

    /// Where one comes to from the name at this place.
    pub(crate) fn target(&self, name: usize) -> usize
        ensures { result ≡ target self.now name }
    {
        match self.targets.get(name) {
            Some(target) => *target,
            None => name,
        }
    }

    /// This walk, and then the other.
    fn then(&self, alloc: Global, other: &Walk) -> Result<Walk, AllocError>
        ensures { IfOk result (λ w. (n : ℕ) → target w n ≡ target other.now (target self.now n)) }
    {
        let mut targets = Vec::new(alloc);
        for name in 0..self.targets.len().max(other.targets.len()) {
            targets.push(other.target(self.target(name)))?;
        }
        Ok(Walk { targets })
    }

    /// This walk, and then the other where that is asked for.
    fn then_if(self, alloc: Global, go_on: bool, other: &Walk) -> Result<Walk, AllocError>
        ensures { IfOk result (λ w. (n : ℕ) → target w n
            ≡ (if go_on then target other.now (target self n) else target self n)) }
    {
        if go_on {
            self.then(alloc, other)
        } else {
            Ok(self)
        }
    }

    /// The walk to the end, which takes as many steps as there are names. The stride is doubled again and again.
    pub(crate) fn to_the_end(alloc: Global, ways: &[Way]) -> Result<Walk, AllocError>
        ensures { IfOk result (λ w. (n : ℕ) → target w n ≡ walk_end ways.now n) }
    {
        let mut walk = Walk::nowhere(alloc);
        let mut stride = Walk::step(alloc, ways)?;
        let mut left = ways.len();
        while left > 0 {
            walk = walk.then_if(alloc, left % 2 == 1, &stride)?;
            stride = stride.then(alloc, &stride)?;
            left /= 2;
        }
        Ok(walk)
    }
}
