//! Makes a file of frames.

ghost use Rattle.std.specs.Prelude.{◌≡◌, ℕ, List};
ghost use Rattle.hpf_frame.specs.FrameFile.{version_one, AreExtents};
ghost use Rattle.hpf_gen.specs.Generated.{generated};
ghost use Rattle.hpf_io.specs.Writes.{Writes};
ghost use Rattle.hpf_cmd.specs.Shows.{Shows};

use crate::print::flushed;
use hpf_gen::GenSource;
use hpf_io::{Failed, Sink, write_all};
use hpf_status::Status;

/// How many bytes are given at a time.
const PIECE: usize = 8192;

/// Makes the file of so many frames of an array with these extents from a seed, and gives it while it is made.
pub(crate) fn make_frames<K: Sink>(extents: &[u32], frames: u32, seed: u32, out: &mut K) -> Status
    requires { AreExtents extents.now }
    ensures { Shows (K.state out.old) (K.state out.new) (generated version_one extents.now seed frames) result }
{
    let mut source = GenSource::new(extents, seed, frames);
    let given = give_all(&mut source, out);
    flushed(given, out)
}

/// Gives all bytes of a source, piece by piece.
fn give_all<K: Sink>(source: &mut GenSource, out: &mut K) -> Result<(), Failed>
    ensures { Writes (K.state out.old) (K.state out.new) result source.old }
{
    let mut piece = [0; PIECE];
    let mut count = source.take(&mut piece);
    while count > 0 {
        write_all(out, &piece[..count])?;
        count = source.take(&mut piece);
    }
    Ok(())
}
