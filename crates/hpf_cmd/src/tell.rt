//! Tells who owns the elements of an array, and what a processor holds of it.

ghost use Rattle.std.specs.Prelude.{◌≡◌};
ghost use Rattle.hpf_report.specs.LocalText.{local_text};
ghost use Rattle.hpf_report.specs.OwnersText.{owners_text};
ghost use Rattle.hpf_cmd.specs.Shows.{Shows};

use crate::print::flushed;
use hpf_io::Sink;
use hpf_own::{Held, Mapping};
use hpf_report::{local_text, owners_text};
use hpf_status::Status;

/// Prints the owners of each element of an array that is mapped so.
pub(crate) fn tell_owners<K: Sink>(mapping: &Mapping, out: &mut K) -> Status
    ensures { Shows (K.state out.old) (K.state out.new) (owners_text mapping.now) result }
{
    let given = owners_text(mapping, out);
    flushed(given, out)
}

/// Prints what a processor holds of an array, of which it owns this much.
pub(crate) fn tell_part<K: Sink>(owned: &Held, held: &Held, out: &mut K) -> Status
    requires { owned.now.rank ≡ held.now.rank }
    ensures { Shows (K.state out.old) (K.state out.new) (local_text owned.now.indices held.now.indices) result }
{
    let given = local_text(owned, held, out);
    flushed(given, out)
}
