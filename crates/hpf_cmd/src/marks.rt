//! The lines of all marks.

ghost use Rattle.std.specs.Prelude.{◌≡◌, ◌≤◌, ℕ, ℤ, List, length};
ghost use Rattle.hpf_io.specs.Writes.{Writes};
ghost use Rattle.hpf_request.specs.MarkLines.{lines_of};

use hpf_io::{Failed, Sink};
use hpf_report::mark_line;
use hpf_request::Part;

/// Writes a line for each processor's mark, in order.
pub(crate) fn mark_lines<N: Sink>(parts: &[Part], notes: &mut N) -> Result<(), Failed>
    requires { length parts.now ≤ 64 }
    ensures { Writes (N.state notes.old) (N.state notes.new) result (lines_of 0 parts.now) }
{
    for (proc, part) in parts.iter().enumerate() {
        mark_line(0, proc as u32, part.held(), part.sum(), notes)?;
    }
    Ok(())
}
