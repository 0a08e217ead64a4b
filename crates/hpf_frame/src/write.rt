//! Writing a frame file.

ghost use Rattle.std.specs.Prelude.{◌≡◌, ◌≤◌, length};
ghost use Rattle.std.specs.List.{flat_map};
ghost use Rattle.hpf_io.specs.Writes.{Writes};
ghost use Rattle.hpf_frame.specs.FrameFile.{version_one, AreExtents, header, record_of, end_of, element};

use crate::bytes::{LONGEST_HEADER, PIECE, PIECE_VALUES, encode, head_of, put_header};
use hpf_io::{Failed, Sink, write_all};

/// Writes the header of a file of arrays with these extents.
pub fn write_header<K: Sink>(out: &mut K, extents: &[u32]) -> Result<(), Failed>
    requires { AreExtents extents.now }
    ensures { Writes (K.state out.old) (K.state out.new) result (header version_one extents.now) }
{
    let mut bytes = [0u8; LONGEST_HEADER];
    let len = put_header(extents, &mut bytes);
    write_all(out, &bytes[..len])
}

/// Writes the record of a frame: its number, and its values in element order.
pub fn write_frame<K: Sink>(out: &mut K, number: u32, values: &[i32]) -> Result<(), Failed>
    ensures { Writes (K.state out.old) (K.state out.new) result (record_of version_one number values.now) }
{
    write_all(out, &head_of(1, number))?;
    write_values(out, values)
}

/// Writes the values in pieces.
fn write_values<K: Sink>(out: &mut K, values: &[i32]) -> Result<(), Failed>
    ensures { Writes (K.state out.old) (K.state out.new) result (flat_map (element version_one) values.now) }
{
    let mut piece = [0u8; PIECE];
    let mut rest = values;
    while !rest.is_empty() {
        let (front, others) = rest.split_at(rest.len().min(PIECE_VALUES));
        encode(front, &mut piece);
        write_all(out, &piece[..4 * front.len()])?;
        rest = others;
    }
    Ok(())
}

/// Writes the end of a file of so many frames.
#[tactic(auto, unfolding(crate::specs::FrameFile::end_of))]
pub fn write_end<K: Sink>(out: &mut K, count: u32) -> Result<(), Failed>
    ensures { Writes (K.state out.old) (K.state out.new) result (end_of count) }
{
    write_all(out, &head_of(0, count))
}
