//! The line of a mark.

ghost use Rattle.std.specs.Prelude.{◌≡◌, ◌+◌, ◌≤◌, ◌++◌};
ghost use Rattle.arrayvec.specs.ArrayString.{array_string_len};
ghost use Rattle.hpf_io.specs.Writes.{Writes};
ghost use Rattle.hpf_report.specs.MarkLine.{mark_line};

use crate::gathered::{Gathered, ROOM, give, push_number, push_small};
use hpf_io::{Failed, Sink};

/// The most bytes that a line has.
const LONGEST_LINE: usize = 128;

/// Writes the line of one processor's mark: its stage and number, how many elements it held, and its sum.
pub fn mark_line<K: Sink>(
    stage: u32,
    proc: u32,
    held: u64,
    sum: u64,
    out: &mut K,
) -> Result<(), Failed>
    ensures { Writes (K.state out.old) (K.state out.new) result (mark_line stage proc held sum) }
{
    let mut gathered = Gathered::new();
    push_mark(&mut gathered, stage, proc, held, sum);
    give(&gathered, out)
}

/// Appends the line of one processor's mark.
fn push_mark(gathered: &mut Gathered, stage: u32, proc: u32, held: u64, sum: u64)
    requires room { array_string_len gathered.old + LONGEST_LINE ≤ ROOM }
    ensures bytes { gathered.new.bytes ≡ gathered.old.bytes ++ mark_line stage proc held sum }
{
    gathered.push_str("mark ");
    push_small(gathered, stage);
    gathered.push_str(" ");
    push_small(gathered, proc);
    gathered.push_str(" held ");
    push_number(gathered, held);
    gathered.push_str(" sum ");
    push_number(gathered, sum);
    gathered.push_str("\n");
}
