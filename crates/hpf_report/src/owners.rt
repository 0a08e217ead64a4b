//! The text of the owners of all elements.

ghost use Rattle.std.specs.Prelude.{◌≡◌, ◌+◌, ◌≤◌, ◌++◌, length};
ghost use Rattle.arrayvec.specs.ArrayString.{array_string_len};
ghost use Rattle.hpf_io.specs.Writes.{Writes};
ghost use Rattle.hpf_own.specs.Space.{LiesIn};
ghost use Rattle.hpf_own.specs.Owners.{owners};
ghost use Rattle.hpf_report.specs.OwnersText.{owner_text, owners_line, owners_text};
ghost use Rattle.std.specs.List.{flat_map};

use crate::gathered::{Gathered, ROOM, give, make_room, push_small};
use crate::index::push_index;
use hpf_io::{Failed, Sink};
use hpf_own::laws::element_order;
use hpf_own::{Mapping, OwnerSet};

/// The most bytes that a line has.
const LONGEST_LINE: usize = 1024;

/// Writes a line for each element of the array, in element order: its index, and the numbers of its owners, ascending.
pub fn owners_text<K: Sink>(mapping: &Mapping, out: &mut K) -> Result<(), Failed>
    ensures { Writes (K.state out.old) (K.state out.new) result (owners_text mapping.now) }
{
    // (there are few enough elements to be counted)
    element_order();
    let mut gathered = Gathered::new();
    let bounds = mapping.bounds();
    let mut subscripts = [0; 7];
    let index = &mut subscripts[..bounds.rank() as usize];
    bounds.first_index(index);
    // (the place of the index: it rises to the number of elements, so that the loop ends)
    let mut element = 0u64;
    let mut more = true;
    while more {
        make_room(&mut gathered, LONGEST_LINE, out)?;
        push_line(&mut gathered, mapping, index);
        more = bounds.next_index(index);
        element += 1;
    }
    give(&gathered, out)
}

/// Appends the line of an element.
fn push_line(gathered: &mut Gathered, mapping: &Mapping, index: &[i64])
    requires index { LiesIn mapping.now.bounds index.now }
    requires short { length index.now ≤ 7 }
    requires room { array_string_len gathered.old + LONGEST_LINE ≤ ROOM }
    ensures { gathered.new.bytes ≡ gathered.old.bytes ++ owners_line mapping.now index.now }
{
    push_index(gathered, index);
    push_owners(gathered, &mapping.owner_set(index));
    gathered.push_str("\n");
}

/// Appends a blank and a number for each owner.
fn push_owners(gathered: &mut Gathered, owners: &OwnerSet)
    requires few { length owners.now ≤ 64 }
    requires room { array_string_len gathered.old + 704 ≤ ROOM }
    ensures bytes { gathered.new.bytes ≡ gathered.old.bytes ++ flat_map owner_text owners.now }
    ensures len { array_string_len gathered.new ≤ array_string_len gathered.old + 704 }
{
    for p in owners.as_slice() {
        push_owner(gathered, *p);
    }
}

/// Appends a blank and the number of a processor.
fn push_owner(gathered: &mut Gathered, p: u32)
    requires { array_string_len gathered.old + 11 ≤ ROOM }
    ensures bytes { gathered.new.bytes ≡ gathered.old.bytes ++ owner_text p }
    ensures len { array_string_len gathered.new ≤ array_string_len gathered.old + 11 }
{
    gathered.push_str(" ");
    push_small(gathered, p);
}
