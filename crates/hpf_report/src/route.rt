//! The text of a route, and the line of the planned number.

ghost use Rattle.std.specs.Prelude.{◌≡◌, ◌+◌, ◌≤◌, ◌++◌};
ghost use Rattle.arrayvec.specs.ArrayString.{array_string_len};
ghost use Rattle.hpf_io.specs.Writes.{Writes};
ghost use Rattle.hpf_report.specs.Gathers.{Gathers};
ghost use Rattle.hpf_report.specs.RouteText.{route_line, run_line, route_text, planned_line};

use crate::gathered::{Gathered, ROOM, give, make_room, push_number, push_small};
use hpf_io::{Failed, Sink};
use hpf_sched::{Route, Step};

/// The most bytes that a line has.
const LONGEST_LINE: usize = 128;

/// Writes the line of a route, from processor `p` to processor `q` over the hop with this number, with its numbers of
/// elements and of runs, and then a line for each run: the place in the sender's part, the place in the receiver's, and
/// the number of elements.
pub fn route_text<K: Sink>(
    hop: u32,
    p: u32,
    q: u32,
    route: &Route,
    out: &mut K,
) -> Result<(), Failed>
    ensures { Writes (K.state out.old) (K.state out.new) result (route_text hop p q route.now) }
{
    let mut gathered = Gathered::new();
    gather_route(&mut gathered, hop, p, q, route, out)?;
    give(&gathered, out)
}

/// Gathers the text of a route behind what is gathered. Of all that is gathered, what has no room leaves.
pub fn gather_route<K: Sink>(
    gathered: &mut Gathered,
    hop: u32,
    p: u32,
    q: u32,
    route: &Route,
    out: &mut K,
) -> Result<(), Failed>
    ensures { Gathers (K.state out.old) (K.state out.new) gathered.old.bytes gathered.new.bytes result (route_text hop p q route.now) }
{
    make_room(gathered, LONGEST_LINE, out)?;
    push_route(gathered, hop, p, q, route);
    for k in 0..route.steps() {
        make_room(gathered, LONGEST_LINE, out)?;
        push_run(gathered, route.step(k));
    }
    Ok(())
}

/// Writes the line of the planned number of elements.
pub fn planned_line<K: Sink>(elements: u64, out: &mut K) -> Result<(), Failed>
    ensures { Writes (K.state out.old) (K.state out.new) result (planned_line elements) }
{
    let mut gathered = Gathered::new();
    push_planned(&mut gathered, elements);
    give(&gathered, out)
}

/// Gathers the line of the planned number behind what is gathered. Of all that is gathered, what has no room leaves.
pub fn gather_planned<K: Sink>(
    gathered: &mut Gathered,
    elements: u64,
    out: &mut K,
) -> Result<(), Failed>
    ensures { Gathers (K.state out.old) (K.state out.new) gathered.old.bytes gathered.new.bytes result (planned_line elements) }
{
    make_room(gathered, LONGEST_LINE, out)?;
    push_planned(gathered, elements);
    Ok(())
}

/// Appends the line of a route.
fn push_route(gathered: &mut Gathered, hop: u32, p: u32, q: u32, route: &Route)
    requires room { array_string_len gathered.old + LONGEST_LINE ≤ ROOM }
    ensures bytes { gathered.new.bytes ≡ gathered.old.bytes ++ route_line hop p q route.now }
{
    gathered.push_str("hop ");
    push_small(gathered, hop);
    gathered.push_str(" from ");
    push_small(gathered, p);
    gathered.push_str(" to ");
    push_small(gathered, q);
    gathered.push_str(" elements ");
    push_number(gathered, route.elements());
    gathered.push_str(" runs ");
    push_number(gathered, route.steps());
    gathered.push_str("\n");
}

/// Appends the line of a run.
fn push_run(gathered: &mut Gathered, step: Step)
    requires room { array_string_len gathered.old + LONGEST_LINE ≤ ROOM }
    ensures bytes { gathered.new.bytes ≡ gathered.old.bytes ++ run_line step }
{
    gathered.push_str("run ");
    push_number(gathered, step.from);
    gathered.push_str(" ");
    push_number(gathered, step.to);
    gathered.push_str(" ");
    push_number(gathered, step.length);
    gathered.push_str("\n");
}

/// Appends the line of the planned number.
fn push_planned(gathered: &mut Gathered, elements: u64)
    requires room { array_string_len gathered.old + LONGEST_LINE ≤ ROOM }
    ensures bytes { gathered.new.bytes ≡ gathered.old.bytes ++ planned_line elements }
{
    gathered.push_str("planned ");
    push_number(gathered, elements);
    gathered.push_str("\n");
}
