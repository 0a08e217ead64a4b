//! The condition of a format.

ghost use Rattle.std.specs.Prelude.{◌≤◌, ◌↔◌, ℕ, IsTrue, MatchOption};
ghost use Rattle.std.specs.List.{Any};
ghost use Rattle.hpf_dist.specs.Axis.{AreProcs};
ghost use Rattle.hpf_dist.specs.Condition.{HasSmallNumbers, Suits, Breaks};

use crate::format::Format;
use crate::lengths::Lengths;
use crate::places::Places;
use crate::refusal::AxisRefusal;

/// Why the format doesn't suit so many positions and processors, if it doesn't.
pub(crate) fn refusal_of(extent: u64, procs: u32, format: &Format) -> Option<AxisRefusal>
    requires procs { AreProcs procs }
    requires widths { HasSmallNumbers format.now }
    ensures { MatchOption result (Suits extent procs format.now) (Breaks extent procs format.now) }
{
    match format {
        Format::Block(width) => block_refusal(extent, procs, *width),
        Format::Cyclic(width) => cyclic_refusal(*width),
        Format::GenBlock(lengths) => lengths_refusal(extent, procs, lengths),
        Format::Indirect(places) => places_refusal(extent, procs, places),
    }
}

/// The same for blocks of this width.
fn block_refusal(extent: u64, procs: u32, width: u64) -> Option<AxisRefusal>
    requires procs { AreProcs procs }
    requires widths { HasSmallNumbers (Format.Block width) }
    ensures { MatchOption result (Suits extent procs (Format.Block width)) (Breaks extent procs (Format.Block width)) }
{
    if width == 0 {
        Some(AxisRefusal::WidthZero)
    } else if width * u64::from(procs) < extent {
        Some(AxisRefusal::BlockTooSmall)
    } else {
        None
    }
}

/// The same for cycles of blocks of this width.
fn cyclic_refusal(width: u64) -> Option<AxisRefusal>
    ensures { (d n : ℕ) → MatchOption result (Suits d n (Format.Cyclic width)) (Breaks d n (Format.Cyclic width)) }
{
    if width == 0 {
        Some(AxisRefusal::WidthZero)
    } else {
        None
    }
}

/// The same for blocks of these lengths.
fn lengths_refusal(extent: u64, procs: u32, lengths: &Lengths) -> Option<AxisRefusal>
    ensures { MatchOption result (Suits extent procs (Format.GenBlock lengths.now)) (Breaks extent procs (Format.GenBlock lengths.now)) }
{
    if lengths.as_slice().len() != procs as usize {
        Some(AxisRefusal::LengthCount)
    } else if lengths.sum() < u128::from(extent) {
        Some(AxisRefusal::LengthSum)
    } else {
        None
    }
}

/// The same for these places.
fn places_refusal(extent: u64, procs: u32, places: &Places) -> Option<AxisRefusal>
    ensures { MatchOption result (Suits extent procs (Format.Indirect places.now)) (Breaks extent procs (Format.Indirect places.now)) }
{
    let places = places.as_slice();
    if places.len() as u64 != extent {
        Some(AxisRefusal::PlaceCount)
    } else if has_stray(places, procs) {
        Some(AxisRefusal::PlaceValue)
    } else {
        None
    }
}

/// Whether one of the places isn't below so many.
fn has_stray(places: &[u32], procs: u32) -> bool
    ensures { IsTrue result ↔ Any (λ place. procs ≤ place) places.now }
{
    places.iter().any(|place| *place >= procs)
}
