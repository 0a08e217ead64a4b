//! Reading a frame file.

ghost use Rattle.std.specs.Prelude.{◌≡◌, ◌≢◌, ◌↔◌, IsTrue, false, IfSome, IfNone, ◌<◌, ◌≤◌, ◌+◌, ◌*◌, ◌-◌, ◌^◌, ◌∷◌, [], ◌++◌, List, ℕ, true, length, Some, Ok, IfOk, OnOk, OnErr};
ghost use Rattle.std.specs.List.{flat_map};
ghost use Rattle.hpf_io.specs.Counts.{Counted};
ghost use Rattle.hpf_io.specs.Bytes.{Takes, TakesFewer, IsOver};
ghost use Rattle.hpf_frame.specs.FrameFile.{version_one, AreExtents, IsFrame, AreValues, header, header_length, record_of, record_length, end_of, element};
ghost use Rattle.hpf_frame.specs.Faults.{InHeader, IsFault, RecordFault};
ghost use Rattle.hpf_frame.specs.Answers.{OnRefused, OnReadFault, CountsFault, TakesWrong, OnFrame, OnEnd, UnlessFrame, head_bytes, EndsWithin, TakesOne, Whole};

use crate::bytes::{LONGEST_HEADER, PIECE, PIECE_VALUES, decode, number_of, put_header};
use crate::error::{InputError, Next, Progress};
use hpf_io::{Failed, Source, read_full};

/// No refusal says yet which field is wrong.
const NOT_BUILT: InputError = InputError::Refused { code: 0, offset: 0 };

/// Reads the header of a file of arrays with these extents. Refused where the bytes have another beginning,
/// and `ReadFault` where the source failed.
pub fn read_header<S: Source>(from: &mut S, extents: &[u32]) -> Result<Progress, InputError>
    requires { AreExtents extents.now }
    ensures start { IfOk result (λ at. at ≡ record { frames = 0; offset = header_length (length extents.now); live = true }) }
    ensures taken { OnOk result (Takes (S.state from.old) (S.state from.new) (header version_one extents.now)) }

    ensures refused { OnRefused result (λ code offset. TakesWrong (S.state from.old) (S.state from.new) (header_length (length extents.now) + 1)
        (λ held. IsFault extents.now held InHeader code offset)) }

    ensures fewer { OnReadFault result (TakesFewer (S.state from.old) (S.state from.new) (header_length (length extents.now))) }
    ensures counted { CountsFault (S.state from.old).faults (S.state from.new).faults result }
{
    let len = 8 + 4 * extents.len();
    let mut bytes = [0u8; LONGEST_HEADER];
    let front = &mut bytes[..len];
    if !read_whole(from, front)? || !is_header(front, extents) {
        return Err(NOT_BUILT);
    }
    Ok(Progress {
        frames: 0,
        offset: len as u64,
        live: true,
    })
}

/// Whether the bytes are the header for these extents.
fn is_header(bytes: &[u8], extents: &[u32]) -> bool
    requires { length extents.now ≤ 7 }
    ensures { IsTrue result ↔ (bytes.now ≡ header version_one extents.now) }
{
    let mut expected = [0u8; LONGEST_HEADER];
    let len = put_header(extents, &mut expected);
    bytes == &expected[..len]
}

/// Fills `into`, and answers whether the source had so many bytes.
fn read_whole<S: Source>(from: &mut S, into: &mut [u8]) -> Result<bool, Failed>
    ensures whole { Whole result (Takes (S.state from.old) (S.state from.new) into.new) (EndsWithin (S.state from.old) (S.state from.new) (length into.old)) }

    ensures counted { Counted (S.state from.old).faults (S.state from.new).faults result }
    ensures fewer { OnErr result (TakesFewer (S.state from.old) (S.state from.new) (length into.old)) }
{
    Ok(read_full(from, into)? == into.len())
}

/// Reads the mark and the number of the next record or of the end.
fn read_head<S: Source>(from: &mut S, frame: u32) -> Result<Next, InputError>
    ensures taken { IfOk result (λ next. Takes (S.state from.old) (S.state from.new) (head_bytes next frame)) }
    ensures few { OnFrame result (frame < 2 ^ 32 - 1) }

    ensures refused { OnRefused result (λ code offset. TakesWrong (S.state from.old) (S.state from.new) 6
        (λ held. (size begins : ℕ) → RecordFault version_one size frame begins held code offset)) }

    ensures fewer { OnReadFault result (TakesFewer (S.state from.old) (S.state from.new) 5) }
    ensures counted { CountsFault (S.state from.old).faults (S.state from.new).faults result }
{
    let mut head = [0u8; 5];
    if !read_whole(from, &mut head)? {
        return Err(NOT_BUILT);
    }
    match judge_head(&head, frame) {
        Some(next) => Ok(next),
        None => Err(NOT_BUILT),
    }
}

/// What begins with this mark and number, where it is the next record or the end.
fn judge_head(head: &[u8], frame: u32) -> Option<Next>
    requires { length head.now ≡ 5 }
    ensures found { IfSome result (λ next. head.now ≡ head_bytes next frame) }
    ensures few { result ≡ Some Next.Frame → frame < 2 ^ 32 - 1 }
    ensures no_end { IfNone result (head.now ≢ head_bytes Next.End frame) }
    ensures no_record { IfNone result (frame < 2 ^ 32 - 1 → head.now ≢ head_bytes Next.Frame frame) }
{
    let count = number_of(&head[1..]);
    if count != frame {
        return None;
    }
    match head[0] {
        0 => Some(Next::End),
        1 if frame < u32::MAX => Some(Next::Frame),
        _ => None,
    }
}

/// Fills `into` with values, and answers whether the source had so many.
fn read_values<S: Source>(from: &mut S, into: &mut [i32]) -> Result<bool, Failed>
    requires { length into.old ≤ 2 ^ 24 }
    ensures whole { Whole result (Takes (S.state from.old) (S.state from.new) (flat_map (element version_one) into.new) × AreValues version_one into.new) (EndsWithin (S.state from.old) (S.state from.new) (4 * length into.old)) }

    ensures counted { Counted (S.state from.old).faults (S.state from.new).faults result }
    ensures fewer { OnErr result (TakesFewer (S.state from.old) (S.state from.new) (4 * length into.old)) }
{
    let mut piece = [0u8; PIECE];
    let mut filled = 0;
    while filled < into.len() {
        let count = (into.len() - filled).min(PIECE_VALUES);
        if !read_piece(
            from,
            &mut piece[..4 * count],
            &mut into[filled..filled + count],
        )? {
            return Ok(false);
        }
        filled += count;
    }
    Ok(true)
}

/// Fills `into` with values by way of the piece, and answers whether the source had so many.
fn read_piece<S: Source>(from: &mut S, piece: &mut [u8], into: &mut [i32]) -> Result<bool, Failed>
    requires { length piece.old ≡ 4 * length into.old }
    ensures whole { Whole result (Takes (S.state from.old) (S.state from.new) (flat_map (element version_one) into.new) × AreValues version_one into.new) (EndsWithin (S.state from.old) (S.state from.new) (4 * length into.old)) }

    ensures counted { Counted (S.state from.old).faults (S.state from.new).faults result }
    ensures fewer { OnErr result (TakesFewer (S.state from.old) (S.state from.new) (4 * length into.old)) }
{
    if !read_whole(from, piece)? {
        return Ok(false);
    }
    decode(piece, into);
    Ok(true)
}

/// Whether the source has ended. Where it has not, a byte is read.
fn has_ended<S: Source>(from: &mut S) -> Result<bool, Failed>
    ensures ended { Whole result (Takes (S.state from.old) (S.state from.new) [] × IsOver (S.state from.new)) (TakesOne (S.state from.old) (S.state from.new)) }

    ensures counted { Counted (S.state from.old).faults (S.state from.new).faults result }
    ensures fewer { OnErr result (TakesFewer (S.state from.old) (S.state from.new) (1)) }
{
    let mut byte = [0u8; 1];
    Ok(read_full(from, &mut byte)? == 0)
}

/// Reads the next frame into `into`, or the end. Refused where the bytes are neither, and `ReadFault` where the
/// source failed. After the end or an error nothing more may be read.
pub fn read_frame<S: Source>(
    from: &mut S,
    at: &mut Progress,
    into: &mut [i32],
) -> Result<Next, InputError>
    requires live { at.old.live ≡ true }
    requires offset { at.old.offset ≤ 2 ^ 62 }
    requires some { 0 < length into.old }
    requires few { length into.old ≤ 2 ^ 24 }

    ensures frame { OnFrame result (Takes (S.state from.old) (S.state from.new) (record_of version_one at.old.frames into.new)) }
    ensures values { OnFrame result (IsFrame version_one (length into.old) into.new) }
    ensures number { OnFrame result (at.old.frames < 2 ^ 32 - 1) }
    ensures next { OnFrame result (at.new ≡ record { frames = at.old.frames + 1; offset = at.old.offset + record_length version_one (length into.old); live = true }) }

    ensures end { OnEnd result (Takes (S.state from.old) (S.state from.new) (end_of at.old.frames)) }
    ensures over { OnEnd result (IsOver (S.state from.new)) }
    ensures kept { OnEnd result (into.new ≡ into.old) }
    ensures stopped { UnlessFrame result (at.new ≡ record at.old { live = false }) }

    ensures refused { OnRefused result (λ code offset. TakesWrong (S.state from.old) (S.state from.new) (record_length version_one (length into.old))
        (λ held. RecordFault version_one (length into.old) at.old.frames at.old.offset held code offset)) }

    ensures fewer { OnReadFault result (TakesFewer (S.state from.old) (S.state from.new) (record_length version_one (length into.old))) }
    ensures counted { CountsFault (S.state from.old).faults (S.state from.new).faults result }
{
    at.live = false;
    match read_head(from, at.frames)? {
        Next::Frame => {
            if !read_values(from, into)? {
                return Err(NOT_BUILT);
            }
            at.frames += 1;
            at.offset += 5 + 4 * into.len() as u64;
            at.live = true;
            Ok(Next::Frame)
        }
        Next::End => {
            if !has_ended(from)? {
                return Err(NOT_BUILT);
            }
            Ok(Next::End)
        }
    }
}
