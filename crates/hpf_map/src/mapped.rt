//! The mapping of an array, from its images in its ultimate base and how that is divided.

ghost use Rattle.std.specs.Prelude.{◌≡◌, ◌<◌, ◌≤◌, ◌^◌, List, Some, length, map, replicate, All, IfOk, option_copied};
ghost use Rattle.hpf_own.specs.KeptLists.{no_width};
ghost use Rattle.hpf_own.specs.Lists.{IsBounds, IsSizes};
ghost use Rattle.hpf_own.specs.Mapping.{IsSmallWidth};
ghost use Rattle.hpf_syntax.specs.Plain.{item_tree};
ghost use Rattle.hpf_map.specs.Mapped.{cut_dim, AreCut, CanBeCut, CanBeMapped, IsMapped, CanMap};
ghost use Rattle.hpf_map.specs.Ownership.{shape_at, IsMappingOf};
ghost use Rattle.hpf_map.specs.Seen.{seen};
ghost use Rattle.hpf_map.specs.Shaded.{or_none, IsShadow};
ghost use Rattle.hpf_map.specs.Shapes.{extent};
ghost use Rattle.hpf_map.specs.Spaces.{run_of};
ghost use Rattle.hpf_map.specs.Widths.{all_widths};
ghost use Rattle.hpf_map.specs.declared.name.Span.{Span};

use crate::cuts::cut_at;
use crate::dealing::{Dealing, dealing_by};
use crate::format_widths::FormatWidths;
use crate::landings::{Landing, name_shape};
use crate::name::Span;
use crate::names::Names;
use crate::shadow_widths::ShadowWidths;
use crate::shapes::extent;
use hpf_num::Run;
use hpf_own::{BaseDim, BaseDims, Bounds, Image, Mapping, Sizes, Width, Widths};
use hpf_syntax::Item;
use std::alloc::{AllocError, Global};

/// The integers of a dimension, as a run.
fn run_of(span: &Span) -> Run
    ensures { result ≡ run_of span.now }
{
    Run {
        low: i64::from(span.low),
        high: i64::from(span.high),
    }
}

/// Bounds as runs of integers.
fn runs(alloc: Global, array: &[Span]) -> Result<Vec<Run>, AllocError>
    ensures { IfOk result (λ runs. runs.items ≡ map run_of array.now) }
{
    let mut runs = Vec::new(alloc);
    for span in array {
        runs.push(run_of(span))?;
    }
    Ok(runs)
}

/// The bounds of an array.
fn bounds(alloc: Global, array: &[Span]) -> Result<Bounds, AllocError>
    requires { IsBounds (map run_of array.now) }
    ensures { IfOk result (λ bounds. bounds ≡ map run_of array.now) }
{
    let runs = runs(alloc, array)?;
    match Bounds::new(runs.as_slice()) {
        Some(bounds) => Ok(bounds),
        None => unreachable!(),
    }
}

/// The extents of the dimensions.
fn extents(alloc: Global, target: &[Span]) -> Result<Vec<u32>, AllocError>
    requires { All (λ s. extent s < 2 ^ 32) target.now }
    ensures { IfOk result (λ extents. extents.items ≡ map extent target.now) }
{
    let mut extents = Vec::new(alloc);
    for span in target {
        extents.push(extent(span) as u32)?;
    }
    Ok(extents)
}

/// The sizes of an arrangement.
fn sizes(alloc: Global, target: &[Span]) -> Result<Sizes, AllocError>
    requires small { All (λ s. extent s < 2 ^ 32) target.now }
    requires sizes { IsSizes (map extent target.now) }
    ensures { IfOk result (λ sizes. sizes ≡ map extent target.now) }
{
    let extents = extents(alloc, target)?;
    match Sizes::new(extents.as_slice()) {
        Some(sizes) => Ok(sizes),
        None => unreachable!(),
    }
}

/// No width, for so many dimensions.
fn no_widths(alloc: Global, rank: usize) -> Result<Vec<Width>, AllocError>
    ensures { IfOk result (λ widths. widths.items ≡ replicate rank no_width) }
{
    let mut widths = Vec::new(alloc);
    for _ in 0..rank {
        widths.push(Width { low: 0, high: 0 })?;
    }
    Ok(widths)
}

/// No shadow, for an array of so many dimensions.
#[tactic(auto, using(crate::proofs::MappedLemmas::short_shadow))]
fn no_shadow(alloc: Global, rank: usize) -> Result<Widths, AllocError>
    requires some { 1 ≤ rank }
    requires few { rank ≤ 7 }
    ensures { IfOk result (λ widths. widths ≡ replicate rank no_width) }
{
    let widths = no_widths(alloc, rank)?;
    match Widths::new(widths.as_slice()) {
        Some(widths) => Ok(widths),
        None => unreachable!(),
    }
}

/// A dimension of a base, with an image in it and how it is cut.
fn cut_dim(
    alloc: Global,
    dealing: &Dealing,
    root: &[Span],
    images: &[Image],
    e: usize,
) -> Result<BaseDim, AllocError>
    requires cut { CanBeCut (seen dealing.now) root.now }
    requires size { length images.now ≡ length root.now }
    requires dimension { e < length root.now }
    ensures { IfOk result (λ dim. dim ≡ cut_dim (seen dealing.now) root.now images.now e) }
{
    Ok(BaseDim {
        image: images[e],
        cut: cut_at(alloc, dealing, root, e)?,
    })
}

/// All dimensions of a base.
fn cut_dims(
    alloc: Global,
    dealing: &Dealing,
    root: &[Span],
    images: &[Image],
) -> Result<BaseDims, AllocError>
    requires cut { CanBeCut (seen dealing.now) root.now }
    requires size { length images.now ≡ length root.now }
    ensures { IfOk result (λ dims. AreCut (seen dealing.now) root.now images.now dims) }
{
    let mut dims = BaseDims::new(alloc);
    for e in 0..root.len() {
        dims.push(alloc, cut_dim(alloc, dealing, root, images, e)?)?;
    }
    Ok(dims)
}

/// The widths of a shadow for an array of so many dimensions: those that are given, or else no width.
fn shadow_of(alloc: Global, given: Option<&ShadowWidths>, rank: usize) -> Result<Widths, AllocError>
    requires some { 1 ≤ rank }
    requires few { rank ≤ 7 }
    requires size { length (or_none rank (option_copied given)) ≡ rank }
    ensures { IfOk result (λ widths. widths ≡ or_none rank (option_copied given.entry)) }
{
    let Some(given) = given else {
        return no_shadow(alloc, rank);
    };
    match Widths::new(given.as_slice()) {
        Some(widths) => Ok(widths),
        None => unreachable!(),
    }
}

/// The mapping of an array by its images in its ultimate base, which is cut so, with this shadow.
fn mapped(
    alloc: Global,
    array: &[Span],
    root: &[Span],
    dealing: &Dealing,
    images: &[Image],
    shadow: Widths,
) -> Result<Mapping, AllocError>
    requires shapes { CanBeMapped array.now root.now (seen dealing.now) images.now }
    requires size { length shadow ≡ length array.now }
    requires small { All IsSmallWidth shadow }
    ensures { IfOk result (λ m. IsMapped array.now root.now (seen dealing.now) images.now shadow m) }
{
    let bounds = bounds(alloc, array)?;
    let sizes = sizes(alloc, dealing.target)?;
    let dims = cut_dims(alloc, dealing, root, images)?;
    Ok(Mapping::new(bounds, dims, sizes, shadow))
}

/// The mapping of an array by where its elements lie in its ultimate base, where the widths of the formats of each statement have
/// these values, and those of the array's shadow are given.
pub(crate) fn array_mapping(
    alloc: Global,
    names: &Names,
    items: &[Item],
    widths: &[Option<FormatWidths>],
    array: usize,
    landing: &Landing,
    given: Option<&ShadowWidths>,
) -> Result<Mapping, AllocError>
    requires widths { widths.now ≡ all_widths (map item_tree items.now) }
    requires can { CanMap names.now (map item_tree items.now) array landing.now.base landing.now.statement
        landing.now.images }
    requires shadow { (spans : List Span) → shape_at names.now (map item_tree items.now) array ≡ Some spans
        → IsShadow names.now (map item_tree items.now) array (length spans)
        (or_none (length spans) (option_copied given)) }
    ensures { IfOk result (λ m. IsMappingOf names.now (map item_tree items.now) array landing.now.base
        landing.now.statement m) }
{
    let Some(shape) = name_shape(names, array) else {
        unreachable!()
    };
    let Some(root) = name_shape(names, landing.base) else {
        unreachable!()
    };
    let Some(dealing) = dealing_by(names, items, widths, landing.statement) else {
        unreachable!()
    };
    let shadow = shadow_of(alloc, given, shape.len())?;
    mapped(
        alloc,
        shape,
        root,
        &dealing,
        landing.images.as_slice(),
        shadow,
    )
}
