//! Where bytes come from.

ghost use Rattle.std.specs.Prelude.{◌≡◌, ℕ, ◌<◌, ◌≤◌, List, [], length, take, Some, None, IfOk, OnErr};
ghost use Rattle.hpf_io.specs.States.{SourceState};
ghost use Rattle.hpf_io.specs.Counts.{Counted, last_count};
ghost use Rattle.hpf_io.specs.Bytes.{Takes, TakesNothing, IsOver};

use crate::failed::Failed;

/// A source of bytes, in order.
pub trait Source {
    /// The bytes that it has left, and how often a read has failed.
    ghost state: { Self → SourceState };

    /// Reads some bytes into the front of `into`, and answers how many. 0 for a piece that isn't empty means the end.
    fn read(&mut self, into: &mut [u8]) -> Result<usize, Failed>
        ensures within { IfOk result (λ n. n ≤ length into.old) }
        ensures taken { IfOk result (λ n. Takes (state self.old) (state self.new) (take n into.new)) }
        ensures ended { IfOk result (λ n. n ≡ 0 → 0 < length into.old → IsOver (state self.new)) }

        // A read that failed takes nothing, and is counted.
        ensures kept { OnErr result (TakesNothing (state self.old) (state self.new)) }
        ensures counted { Counted (state self.old).faults (state self.new).faults result };

    /// Only a source that tells nothing can have counted to the last value.
    ghost told_below_last: { (s : Self) → (state s).faults ≡ last_count → (state s).left ≡ None };
}
