//! The line of a part: the values that a processor holds of a frame.

ghost use Rattle.std.specs.Prelude.{◌≡◌, ◌+◌, ◌≤◌, ◌++◌};
ghost use Rattle.arrayvec.specs.ArrayString.{array_string_len};
ghost use Rattle.hpf_io.specs.Writes.{Writes};
ghost use Rattle.hpf_report.specs.Gathers.{Gathers};
ghost use Rattle.hpf_report.specs.PartText.{part_head, part_line, value_text};

use crate::gathered::{Gathered, ROOM, give, make_room, push_signed, push_small};
use hpf_io::{Failed, Sink};

/// The most bytes that stand before the values.
const LONGEST_HEAD: usize = 32;

/// The most bytes that a value has, with the blank before it.
const LONGEST_VALUE: usize = 24;

/// Writes the line of a part: the numbers of the frame and of the processor, and each value that it holds, in the order of
/// its local places.
pub fn part_line<K: Sink>(frame: u32, proc: u32, values: &[i32], out: &mut K) -> Result<(), Failed>
    ensures { Writes (K.state out.old) (K.state out.new) result (part_line frame proc values.now) }
{
    let mut gathered = Gathered::new();
    gather_part(&mut gathered, frame, proc, values, out)?;
    give(&gathered, out)
}

/// Gathers the line of a part behind what is gathered. Of all that is gathered, what has no room leaves.
pub fn gather_part<K: Sink>(
    gathered: &mut Gathered,
    frame: u32,
    proc: u32,
    values: &[i32],
    out: &mut K,
) -> Result<(), Failed>
    ensures { Gathers (K.state out.old) (K.state out.new) gathered.old.bytes gathered.new.bytes result (part_line frame proc values.now) }
{
    make_room(gathered, LONGEST_HEAD, out)?;
    push_head(gathered, frame, proc);
    for value in values {
        make_room(gathered, LONGEST_VALUE, out)?;
        push_value(gathered, *value);
    }
    make_room(gathered, 1, out)?;
    gathered.push_str("\n");
    Ok(())
}

/// Appends what stands before the values.
fn push_head(gathered: &mut Gathered, frame: u32, proc: u32)
    requires room { array_string_len gathered.old + LONGEST_HEAD ≤ ROOM }
    ensures bytes { gathered.new.bytes ≡ gathered.old.bytes ++ part_head frame proc }
{
    push_small(gathered, frame);
    gathered.push_str(" ");
    push_small(gathered, proc);
    gathered.push_str(":");
}

/// Appends a blank and a value.
fn push_value(gathered: &mut Gathered, value: i32)
    requires room { array_string_len gathered.old + LONGEST_VALUE ≤ ROOM }
    ensures bytes { gathered.new.bytes ≡ gathered.old.bytes ++ value_text value }
{
    gathered.push_str(" ");
    push_signed(gathered, i64::from(value));
}
