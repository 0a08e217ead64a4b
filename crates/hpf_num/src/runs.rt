//! Ascending lists of different integers.

ghost use Rattle.std.specs.Prelude.{◌≡◌, ℕ, ◌+◌, ◌-◌, ◌^◌, ◌<◌, ◌≤◌, ◌++◌, [], ◌∷◌, cond, not, length, take, get_or, slice_get, Some, All, OnOk, OnErr, IfOk, IfSome, IsNone, ◌↔◌, Contains, IsSome, pos, ℤ, ◌+ℤ◌, ◌-ℤ◌, ◌≤ℤ◌, ◌<ℤ◌, unsigned_abs, MatchOption};
ghost use Rattle.std.specs.List.{list_any};
ghost use Rattle.hpf_num.specs.Run.{integers};
ghost use Rattle.hpf_num.specs.Runs.{IsSmall, IsInLimits, AreMembers, has, common, is_near, widened, preimage, starts, IsRunAt, IsStart, IsLast};
ghost use Rattle.hpf_num.specs.Limits.{integer_limit};

use crate::run::Run;
use std::alloc::{AllocError, Global};
use std::marker::Model;

/// Different integers from `-(2^31 - 1)` to `2^31 - 1`, called its members. It is seen as the ascending list of them.
#[derive(Drop)]
pub struct Runs {
    members: Vec<i64>,
}

impl Model for Runs {
    ghost use Rattle.std.specs.Prelude.{List, ℤ};
    ghost use Rattle.hpf_num.specs.Runs.{AreMembers};

    ghost Value = { List ℤ };

    ghost view = { λ runs. runs.members.items };

    ghost invariant = { λ runs. AreMembers runs.members.items };
}

impl Runs {
    /// No member yet.
    pub fn new(alloc: Global) -> Runs
        ensures { result ≡ [] }
    {
        Runs {
            members: Vec::new(alloc),
        }
    }

    /// Appends the integers of a run, which lies above every member. Where there is no memory, the list stays as it was.
    pub fn push(&mut self, _alloc: Global, run: Run) -> Result<(), AllocError>
        requires above { All (λ i. i <ℤ run.low) self.old }
        requires limits { IsInLimits run }
        ensures ok { OnOk result (self.new ≡ self.old ++ integers run) }
        ensures err { OnErr result (self.new ≡ self.old) }
    {
        let before = self.members.len();
        let pushed = push_all(&mut self.members, run);
        if pushed.is_err() {
            self.members.truncate(before);
        }
        pushed
    }

    /// The number of members.
    pub fn count(&self) -> u64
        ensures count { result ≡ length self.now }
        ensures members { AreMembers self.now }
    {
        self.members.len() as u64
    }

    /// The number of runs that the members form, each as long as possible.
    pub fn runs(&self) -> u64
        ensures { result ≡ length (starts self.now) }
    {
        let mut count = 0;
        for place in 0..self.members.len() {
            count += u64::from(self.starts_at(place));
        }
        count
    }

    /// The run with number `k`, from 0 and from below. None where there are no more than `k`.
    pub fn run(&self, k: u64) -> Option<Run>
        ensures none { IsNone result ↔ (length (starts self.now) ≤ k) }
        ensures run { IfSome result (IsRunAt self.now k) }
    {
        let first = self.start(k)?;
        let last = self.last_from(first);
        Some(Run {
            low: self.members[first],
            high: self.members[last],
        })
    }

    /// The member at place `k`, from 0. None where there are no more than `k`.
    pub fn nth(&self, k: u64) -> Option<i64>
        ensures { result ≡ slice_get self.now k }
    {
        self.members.as_slice().get(k as usize).copied()
    }

    /// The place of `i` among the members, from 0. None where it isn't one.
    pub fn rank(&self, i: i64) -> Option<u64>
        ensures place { IfSome result (λ k. slice_get self.now k ≡ Some i) }
        ensures member { IsSome result ↔ Contains self.now i }
    {
        let below = self.below(i);
        if below < self.members.len() && self.members[below] == i {
            Some(below as u64)
        } else {
            None
        }
    }

    /// The members that are members of `other` too.
    pub fn meet(&self, alloc: Global, other: &Runs) -> Result<Runs, AllocError>
        ensures { IfOk result (λ runs. runs ≡ common self.now other.now) }
    {
        let mut both = Runs::new(alloc);
        for i in self.members.as_slice() {
            both.keep(*i, other.has(*i))?;
        }
        Ok(both)
    }

    /// The integers in `bounds` that lie at most `low` below or at most `high` above a member.
    pub fn widen(&self, alloc: Global, low: u64, high: u64, bounds: Run) -> Result<Runs, AllocError>
        requires low { low ≤ integer_limit }
        requires high { high ≤ integer_limit }
        requires limits { IsInLimits bounds }
        ensures { IfOk result (λ runs. runs ≡ widened self.now low high bounds) }
    {
        let mut near = Runs::new(alloc);
        for k in 0..bounds.extent() {
            let i = bounds.at(k);
            near.keep(i, self.has_near(i, low, high))?;
        }
        Ok(near)
    }

    /// The integers `i` in `bounds` for which `a * i + b` is a member.
    pub fn preimage(&self, alloc: Global, a: i64, b: i64, bounds: Run) -> Result<Runs, AllocError>
        requires factor { unsigned_abs a ≤ integer_limit }
        requires offset { unsigned_abs b ≤ 2 ^ 62 }
        requires limits { IsInLimits bounds }
        ensures { IfOk result (λ runs. runs ≡ preimage self.now a b bounds) }
    {
        let mut found = Runs::new(alloc);
        for k in 0..bounds.extent() {
            let i = bounds.at(k);
            found.keep(i, self.has(a * i + b))?;
        }
        Ok(found)
    }

    /// Appends `i`, which lies above every member, where `passes` says so.
    fn keep(&mut self, i: i64, passes: bool) -> Result<(), AllocError>
        requires above { All (λ j. j <ℤ i) self.old }
        requires small { IsSmall i }
        ensures ok { OnOk result (self.new ≡ self.old ++ cond passes (i ∷ []) []) }
        ensures err { OnErr result (self.new ≡ self.old) }
    {
        if passes {
            self.members.push(i)?;
        }
        Ok(())
    }

    /// Whether `i` is a member.
    fn has(&self, i: i64) -> bool
        ensures { result ≡ has self.now i }
    {
        let below = self.below(i);
        below < self.members.len() && self.members[below] == i
    }

    /// Whether `i` lies at most `low` below or at most `high` above a member.
    fn has_near(&self, i: i64, low: u64, high: u64) -> bool
        requires low { low ≤ integer_limit }
        requires high { high ≤ integer_limit }
        requires small { IsSmall i }
        ensures { result ≡ list_any (λ j. is_near low high j i) self.now }
    {
        let below = self.below(i - high as i64);
        below < self.members.len() && self.members[below] <= i + low as i64
    }

    /// Whether a run begins at this place.
    fn starts_at(&self, place: usize) -> bool
        requires { place < length self.now }
        ensures { result ≡ not (has self.now (get_or self.now place (pos 0) -ℤ pos 1)) }
    {
        place == 0 || self.members[place - 1] != self.members[place] - 1
    }

    /// The place at which the run with number `k` begins.
    fn start(&self, k: u64) -> Option<usize>
        ensures { MatchOption result (length (starts self.now) ≤ k) (λ place. IsStart self.now k place) }
    {
        let mut before = 0;
        for place in 0..self.members.len() {
            if self.starts_at(place) {
                if before == k {
                    return Some(place);
                }
                before += 1;
            }
        }
        None
    }

    /// The place at which a run ends that has the member at place `first`.
    fn last_from(&self, first: usize) -> usize
        requires { first < length self.now }
        ensures { IsLast self.now first result }
    {
        let count = self.members.len();
        for place in first + 1..count {
            if self.starts_at(place) {
                return place - 1;
            }
        }
        count - 1
    }

    /// How many members are below `i`.
    fn below(&self, i: i64) -> usize
        ensures count { result ≤ length self.now }
        ensures below { (k : ℕ) → k < result → get_or self.now k (pos 0) <ℤ i }
        ensures others { (k : ℕ) → result ≤ k → k < length self.now → i ≤ℤ get_or self.now k (pos 0) }
        ensures members { AreMembers self.now }
    {
        let mut low = 0;
        let mut high = self.members.len();
        while low < high {
            let middle = low + (high - low) / 2;
            if self.members[middle] < i {
                low = middle + 1;
            } else {
                high = middle;
            }
        }
        low
    }
}

/// Appends the integers of a run. Where there is no memory, some of them are appended.
fn push_all(items: &mut Vec<i64>, run: Run) -> Result<(), AllocError>
    requires limits { IsInLimits run }
    ensures ok { OnOk result (items.new.items ≡ items.old.items ++ integers run) }
    ensures err { OnErr result (take (length items.old.items) items.new.items ≡ items.old.items) }
{
    for k in 0..run.extent() {
        items.push(run.at(k))?;
    }
    Ok(())
}
