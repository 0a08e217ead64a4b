//! How the dimensions of a distributee are cut.

ghost use Rattle.std.specs.Prelude.{◌≡◌, ◌<◌, ◌≤◌, length, map, Some, IfOk, IfSome, option_map, option_copied};
ghost use Rattle.hpf_dist.specs.Axis.{AreBounds, AreProcs, before};
ghost use Rattle.hpf_dist.specs.Owner.{even_block};
ghost use Rattle.hpf_dist.specs.declared.format.Format.TheVariants as format;
ghost use Rattle.hpf_num.specs.Run.{or_zero};
ghost use Rattle.hpf_syntax.specs.Plain.{format_tree};
ghost use Rattle.hpf_map.specs.Cuts.{axis_of, IsMet, MeetsAll, cut_at};
ghost use Rattle.hpf_map.specs.Dealing.{over};
ghost use Rattle.hpf_map.specs.Formats.{format_of};
ghost use Rattle.hpf_map.specs.Mapped.{CanBeCut};
ghost use Rattle.hpf_map.specs.Seen.{seen};
ghost use Rattle.hpf_map.specs.Shapes.{extent, max_extent};
ghost use Rattle.hpf_map.specs.Sound.{IsSoundSpan};

use crate::dealing::Dealing;
use crate::distributions::{divided, divides};
use crate::formats::{list_of, or_zero};
use crate::name::{Span, Values};
use crate::names::Names;
use crate::paired::at_place;
use crate::shapes::extent;
use hpf_dist::{Axis, AxisRefusal, Format, Lengths, Places, even_width};
use hpf_own::Cut;
use hpf_syntax::FormatItem;
use std::alloc::{AllocError, Global};

/// Values as lengths.
fn lengths(alloc: Global, values: &[i32]) -> Result<Lengths, AllocError>
    ensures { IfOk result (λ lengths. lengths ≡ map or_zero values.now) }
{
    let mut lengths = Vec::with_capacity(alloc, values.len())?;
    for value in values {
        lengths.push(or_zero(*value))?;
    }
    Lengths::from_slice(alloc, lengths.as_slice())
}

/// Values as coordinates of a dimension of an arrangement with this lower bound.
fn places(alloc: Global, low: i32, values: &[i32]) -> Result<Places, AllocError>
    ensures { IfOk result (λ places. places ≡ map (before low) values.now) }
{
    let mut places = Vec::with_capacity(alloc, values.len())?;
    for value in values {
        places.push(before(low, *value))?;
    }
    Places::from_slice(alloc, places.as_slice())
}

/// How many positions lie from a lower bound to a position.
fn before(low: i32, position: i32) -> u32
    ensures { result ≡ before low position }
{
    (i64::from(position) - i64::from(low)).unsigned_abs() as u32
}

/// The value of a width that is written, as the width of blocks.
fn block_width(width: Option<i32>) -> Option<u64>
    ensures { result ≡ option_map or_zero width }
{
    match width {
        Some(width) => Some(u64::from(or_zero(width))),
        None => None,
    }
}

/// Blocks of this width.
fn blocks(width: Option<u64>) -> Option<Format>
    ensures { result ≡ option_map (λ w. format.Block w) width }
{
    match width {
        Some(width) => Some(Format::Block(width)),
        None => None,
    }
}

/// The same, dealt to the processors in turn.
fn cycles(width: Option<u64>) -> Option<Format>
    ensures { result ≡ option_map (λ w. format.Cyclic w) width }
{
    match width {
        Some(width) => Some(Format::Cyclic(width)),
        None => None,
    }
}

/// Blocks of these lengths.
fn general_blocks(alloc: Global, values: Option<&Values>) -> Result<Option<Format>, AllocError>
    ensures { IfOk result (λ f. f ≡ option_map (λ vs. format.GenBlock (map or_zero vs)) (option_copied values.entry)) }
{
    match values {
        Some(values) => Ok(Some(Format::GenBlock(lengths(alloc, values.as_slice())?))),
        None => Ok(None),
    }
}

/// Positions of which each has the owner that is told, in a dimension of the arrangement with this lower bound.
fn told_owners(
    alloc: Global,
    low: i32,
    values: Option<&Values>,
) -> Result<Option<Format>, AllocError>
    ensures { IfOk result (λ f. f ≡ option_map (λ vs. format.Indirect (map (before low) vs)) (option_copied values.entry)) }
{
    match values {
        Some(values) => Ok(Some(Format::Indirect(places(alloc, low, values.as_slice())?))),
        None => Ok(None),
    }
}

/// Blocks that divide so many positions evenly over so many processors.
fn even_blocks(positions: u64, procs: u32) -> Format
    requires some { 1 ≤ positions }
    requires few { positions ≤ max_extent }
    requires procs { AreProcs procs }
    ensures format { result ≡ even_block positions procs }
    ensures met { IsMet positions procs (Some result) }
{
    Format::Block(even_width(positions, procs))
}

/// How a format deals the positions of a dimension over a dimension of the arrangement. It is none for `*`.
#[tactic(auto, unfolding(crate::specs::Formats::format_of))]
fn format_of(
    alloc: Global,
    names: &Names,
    format: &FormatItem,
    width: Option<i32>,
    span: &Span,
    procs: &Span,
) -> Result<Option<Format>, AllocError>
    requires sound { IsSoundSpan max_extent span.now }
    requires procs { AreProcs (extent procs.now) }
    requires met { MeetsAll (format_tree format.now) (extent span.now) (extent procs.now)
        (format_of names.now (format_tree format.now) width (extent span.now) procs.now) }
    ensures format { IfOk result (λ f. f ≡ format_of names.now (format_tree format.now) width (extent span.now) procs.now) }
    ensures met { IfOk result (λ f. IfSome f (λ f. IsMet (extent span.now) (extent procs.now) (Some f))) }
{
    match format {
        FormatItem::Star(_) => Ok(None),
        FormatItem::Block(_, None) => Ok(Some(even_blocks(extent(span), extent(procs) as u32))),
        FormatItem::Block(_, Some(_)) => Ok(blocks(block_width(width))),
        FormatItem::Cyclic(_, None) => Ok(Some(Format::Cyclic(1))),
        FormatItem::Cyclic(_, Some(_)) => Ok(cycles(block_width(width))),
        FormatItem::GenBlock(_, name) => general_blocks(alloc, list_of(names, &name.word)),
        FormatItem::Indirect(_, name) => {
            told_owners(alloc, procs.low, list_of(names, &name.word))
        }
    }
}

/// A dimension that is divided so over a dimension of the arrangement.
fn axis_of(alloc: Global, span: &Span, procs: &Span, format: Format) -> Result<Axis, AllocError>
    requires bounds { AreBounds span.now.low span.now.high }
    requires procs { AreProcs (extent procs.now) }
    requires met { IsMet (extent span.now) (extent procs.now) (Some format) }
    ensures { IfOk result (λ axis. axis ≡ axis_of span.now procs.now format) }
{
    let low = i64::from(span.low);
    let high = i64::from(span.high);
    match Axis::new(alloc, low, high, extent(procs) as u32, format) {
        Ok(axis) => Ok(axis),
        Err(AxisRefusal::Memory(error)) => Err(error),
        Err(_) => unreachable!(),
    }
}

/// How a dimension is cut whose format divides it over the dimension of the arrangement with the number `dim`.
fn divided_cut(
    alloc: Global,
    dealing: &Dealing,
    root: &[Span],
    k: usize,
    dim: usize,
) -> Result<Cut, AllocError>
    requires cut { CanBeCut (seen dealing.now) root.now }
    requires below { k < length root.now }
    requires over { dim ≡ over (seen dealing.now).formats k }
    requires within { dim < length (seen dealing.now).target }
    ensures { IfOk result (λ cut. cut ≡ cut_at (seen dealing.now) root.now k) }
{
    let span = &root[k];
    let procs = &dealing.target[dim];
    let width = at_place(dealing.widths, k).copied();
    let format = &dealing.formats[k];
    match format_of(alloc, dealing.names, format, width, span, procs)? {
        Some(format) => Ok(Cut::Over {
            dim: dim as u32,
            axis: axis_of(alloc, span, procs, format)?,
        }),
        None => Ok(Cut::Whole),
    }
}

/// How the dimension with this number is cut.
pub(crate) fn cut_at(
    alloc: Global,
    dealing: &Dealing,
    root: &[Span],
    k: usize,
) -> Result<Cut, AllocError>
    requires cut { CanBeCut (seen dealing.now) root.now }
    requires below { k < length root.now }
    ensures { IfOk result (λ cut. cut ≡ cut_at (seen dealing.now) root.now k) }
{
    if !divides(&dealing.formats[k]) {
        return Ok(Cut::Whole);
    }
    let dim = divided(&dealing.formats[..k]);
    divided_cut(alloc, dealing, root, k, dim)
}
