//! A run of integers.

ghost use Rattle.std.specs.Prelude.{◌≡◌, ◌<◌, pos, ◌+ℤ◌};
ghost use Rattle.hpf_num.specs.Run.{extent};
ghost use Rattle.hpf_num.specs.Runs.{IsSmall, IsInLimits};

/// The integers from `low` to `high`, both among them. Where `low` is above `high` there are none.
#[derive(Clone, Copy, Debug, PartialEq, Eq)]
pub struct Run {
    pub low: i64,
    pub high: i64,
}

impl Run {
    /// How many integers the run has.
    pub fn extent(self) -> u64
        requires limits { IsInLimits self }
        ensures { result ≡ extent self }
    {
        if self.low <= self.high {
            (self.high - self.low) as u64 + 1
        } else {
            0
        }
    }

    /// The integer of the run at place `k`, from 0.
    pub fn at(self, k: u64) -> i64
        requires limits { IsInLimits self }
        requires place { k < extent self }
        ensures integer { result ≡ self.low +ℤ pos k }
        ensures small { IsSmall result }
    {
        self.low + k as i64
    }
}
