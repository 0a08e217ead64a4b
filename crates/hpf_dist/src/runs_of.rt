//! The integers whose positions a processor owns.

ghost use Rattle.std.specs.Prelude.{◌≡◌, ◌-◌, ◌^◌, ◌≤◌, IfOk, unsigned_abs};
ghost use Rattle.hpf_num.specs.Runs.{IsInLimits};
ghost use Rattle.hpf_dist.specs.Shares.{is_share, shares};
ghost use Rattle.hpf_num.specs.Limits.{integer_limit};

use crate::axis::Axis;
use hpf_num::{Run, Runs};
use std::alloc::{AllocError, Global};

impl Axis {
    /// The integers `i` in `bounds` whose position `a * i + b` lies in the dimension and is owned by the processor of
    /// coordinate `c`.
    pub fn runs_of(
        &self,
        alloc: Global,
        c: u32,
        a: i64,
        b: i64,
        bounds: Run,
    ) -> Result<Runs, AllocError>
        requires factor { unsigned_abs a ≤ integer_limit }
        requires offset { unsigned_abs b ≤ 2 ^ 62 }
        requires limits { IsInLimits bounds }
        ensures { IfOk result (λ runs. runs ≡ shares self.now c a b bounds) }
    {
        let mut runs = Runs::new(alloc);
        for k in 0..bounds.extent() {
            let i = bounds.at(k);
            if self.is_share(c, a * i + b) {
                runs.push(alloc, Run { low: i, high: i })?;
            }
        }
        Ok(runs)
    }

    /// Whether `t` is a position of the dimension that the processor of coordinate `c` owns.
    fn is_share(&self, c: u32, t: i64) -> bool
        ensures { result ≡ is_share self.now c t }
    {
        self.has(t) && self.owner(t) == c
    }
}
