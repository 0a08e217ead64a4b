//! Tells how a text went that was given to a sink.

ghost use Rattle.std.specs.Prelude.{◌≡◌, ℕ, List, OnOk, IfErr};
ghost use Rattle.hpf_io.specs.States.{SinkState};
ghost use Rattle.hpf_io.specs.Writes.{Writes};
ghost use Rattle.hpf_stream.specs.Outside.{Flushes, Fails};
ghost use Rattle.hpf_cmd.specs.Shows.{Shows};

use crate::ended::ended;
use hpf_io::{Failed, Sink};
use hpf_status::Status;
use hpf_stream::Stop;

/// Flushes the sink behind a text that was given to it, where it was given whole, and tells how that ended.
pub(crate) fn flushed<K: Sink>(given: Result<(), Failed>, out: &mut K) -> Status
    ensures { (before : SinkState) (text : List ℕ)
        → Writes before (K.state out.old) given text
        → Shows before (K.state out.new) text result }
{
    ended(flush_behind(given, out))
}

/// Flushes the sink behind a text that was given to it, where it was given whole.
fn flush_behind<K: Sink>(given: Result<(), Failed>, out: &mut K) -> Result<(), Stop>
    ensures flushed { OnOk result ((before : SinkState) (text : List ℕ) → Writes before (K.state out.old) given text
        → Flushes before (K.state out.new) text) }
    ensures failed { IfErr result (λ stop. (before : SinkState) (text : List ℕ) → Writes before (K.state out.old) given text
        → (stop ≡ Stop.Output) × Fails before (K.state out.new) text) }
{
    match given {
        Ok(()) => {
            out.flush()?;
            Ok(())
        }
        Err(_) => Err(Stop::Output),
    }
}
