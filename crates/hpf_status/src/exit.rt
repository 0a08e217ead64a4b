//! How the program tells its end.

ghost use Rattle.std.specs.Prelude.{◌≡◌, Result};
ghost use Rattle.hpf_io.specs.Writes.{Writes};
ghost use Rattle.hpf_io.specs.declared.failed.Failed.{Failed};
ghost use Rattle.hpf_status.specs.StatusText.{status_number, status_text};

use crate::status::{Status, status_line};
use hpf_io::Sink;

/// Writes the line of the status to `notes`, and gives the number that the program ends with. Where the line can't be
/// written the number alone tells it.
pub fn report<N: Sink>(status: &Status, notes: &mut N) -> u8
    ensures number { result ≡ status_number status.now }
    ensures line { (told : Result (Unit {0}) Failed) × Writes (N.state notes.old) (N.state notes.new) told (status_text status.now) }
{
    let _ = status_line(status, notes);
    status.number()
}
