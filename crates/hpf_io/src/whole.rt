//! Whole pieces, however a source or a sink cuts them.

ghost use Rattle.std.specs.Prelude.{◌≡◌, ◌≤◌, ◌<◌, List, ℕ, [], length, take, Some, IfOk, OnErr};
ghost use Rattle.hpf_io.specs.Counts.{Counted};
ghost use Rattle.hpf_io.specs.Bytes.{Takes, TakesFewer, IsOver};
ghost use Rattle.hpf_io.specs.Writes.{Writes};

use crate::failed::Failed;
use crate::sink::Sink;
use crate::source::Source;

/// Fills `into`, or reads to the end, and answers how many bytes it got. On `Failed` fewer were read than `into` has.
pub fn read_full<S: Source>(from: &mut S, into: &mut [u8]) -> Result<usize, Failed>
    ensures within { IfOk result (λ n. n ≤ length into.old) }
    ensures taken { IfOk result (λ n. Takes (S.state from.old) (S.state from.new) (take n into.new)) }
    ensures ended { IfOk result (λ n. n < length into.old → IsOver (S.state from.new)) }
    ensures fewer { OnErr result (TakesFewer (S.state from.old) (S.state from.new) (length into.old)) }
    ensures counted { Counted (S.state from.old).faults (S.state from.new).faults result }
{
    let mut filled = 0;
    while filled < into.len() {
        let count = from.read(&mut into[filled..])?;
        if count == 0 {
            return Ok(filled);
        }
        filled += count;
    }
    Ok(filled)
}

/// Gives the whole piece. On `Failed` a front of it was given.
pub fn write_all<K: Sink>(out: &mut K, bytes: &[u8]) -> Result<(), Failed>
    ensures { Writes (K.state out.old) (K.state out.new) result bytes.now }
{
    let mut written = 0;
    while written < bytes.len() {
        written += out.write(&bytes[written..])?;
    }
    Ok(())
}
