//! What is told of a text that is accepted.

ghost use Rattle.std.specs.Prelude.{◌≡◌};
ghost use Rattle.hpf_io.specs.Writes.{Writes};
ghost use Rattle.hpf_request.specs.CountsText.{counts_text};
ghost use Rattle.hpf_cmd.specs.Shows.{Shows};

use crate::print::flushed;
use hpf_io::{Failed, Sink, write_all};
use hpf_map::Counts;
use hpf_status::{Line, Status, plain, push_number};

/// Prints how much a text declares, and how many stages it has.
pub(crate) fn tell_counts<K: Sink>(counts: Counts, out: &mut K) -> Status
    ensures { Shows (K.state out.old) (K.state out.new) (counts_text counts) result }
{
    let given = write_counts(counts, out);
    flushed(given, out)
}

/// Writes the line of the counts.
fn write_counts<K: Sink>(counts: Counts, out: &mut K) -> Result<(), Failed>
    ensures { Writes (K.state out.old) (K.state out.new) result (counts_text counts) }
{
    write_all(out, counts_line(counts).as_str().as_bytes())
}

/// The line of the counts.
fn counts_line(counts: Counts) -> Line
    ensures { result.bytes ≡ counts_text counts }
{
    let mut line = plain("accepted arrays ");
    push_number(&mut line, u64::from(counts.arrays));
    line.push_str(" templates ");
    push_number(&mut line, u64::from(counts.templates));
    line.push_str(" arrangements ");
    push_number(&mut line, u64::from(counts.arrangements));
    line.push_str(" stages ");
    push_number(&mut line, u64::from(counts.stages));
    line.push_str("\n");
    line
}
