//! Where the elements of each array lie in its ultimate base.

ghost use Rattle.std.specs.Prelude.{◌≡◌, ◌<◌, ◌≤◌, ◌^◌, ℕ, List, [], ◌∷◌, length, map, IfOk, IfSome, IsSome, OnOk, OnErr, Option, Some, None, replicate, option_and_then, slice_set, option_copied, true, false};
ghost use Rattle.hpf_own.specs.declared.image.Image.{Image};
ghost use Rattle.hpf_map.specs.Composed.{AreSound, AreAligned, AreImages, ArePlain, composed};
ghost use Rattle.hpf_map.specs.Landings.{IsItself, AreThemselves, CanGoOn, ComesOf, name_shape, AlignedAt, AreClear, AreLandings, IsSettled, StaysSettled, Lands, CanLand};
ghost use Rattle.hpf_map.specs.Ways.{way_at, walk, walk_end, leads_on};
ghost use Rattle.hpf_map.specs.declared.way.Way.TheVariants.{Distributed};

use crate::compose::all_composed;
use crate::name::Span;
use crate::names::Names;
use crate::paired::at_place;
use crate::plain::all_plain;
use crate::spaces::meaning_shape;
use crate::way::Way;
use crate::ways::Ways;
use hpf_own::Image;
use std::alloc::{AllocError, Global};
use std::marker::Model;

/// Images of an array in a base, one for each dimension of the base. It is seen as the list of them.
#[derive(Drop)]
pub(crate) struct Images {
    images: Vec<Image>,
}

impl Model for Images {
    ghost use Rattle.std.specs.Prelude.{List};
    ghost use Rattle.hpf_own.specs.declared.image.Image.{Image};

    ghost Value = { List Image };

    ghost view = { λ i. i.images.items };
}

impl Images {
    /// These images.
    pub(crate) fn new(images: Vec<Image>) -> Images
        ensures { result ≡ images.items }
    {
        Images { images }
    }

    /// The images, in order.
    pub(crate) fn as_slice(&self) -> &[Image]
        ensures { result.now ≡ self.now }
    {
        self.images.as_slice()
    }
}

/// Where the elements of an array lie in its ultimate base.
#[derive(Drop)]
pub(crate) struct Landing {
    /// The place of the ultimate base among the names.
    pub base: usize,
    /// The place of the statement that distributes it.
    pub statement: usize,
    pub images: Images,
}

/// The image of a dimension in itself.
fn itself(array: &[Span], dim: u32) -> Image
    requires sound { AreSound array.now }
    requires dimension { dim < length array.now }
    ensures { IsItself array.now dim result }
{
    let Span { low, high } = array[dim as usize];
    if low < high {
        Image::Along { dim, a: 1, b: 0 }
    } else {
        Image::Fixed(i64::from(low))
    }
}

/// The images of an array in itself.
fn all_itself(alloc: Global, array: &[Span]) -> Result<Images, AllocError>
    requires sound { AreSound array.now }
    requires short { length array.now ≤ 7 }
    ensures { IfOk result (λ images. AreThemselves array.now images) }
{
    let mut images = Vec::new(alloc);
    for dim in 0..array.len() {
        images.push(itself(array, dim as u32))?;
    }
    Ok(Images::new(images))
}

/// Where an array lies in the ultimate base of its base, by its images in the base and where that lies.
fn onward(
    alloc: Global,
    array: &[Span],
    images: &Images,
    landing: &Landing,
) -> Result<Landing, AllocError>
    requires { CanGoOn array.now images.now landing.now.images }
    ensures base { IfOk result (λ l. l.base ≡ landing.now.base) }
    ensures statement { IfOk result (λ l. l.statement ≡ landing.now.statement) }
    ensures images { IfOk result (λ l. ComesOf array.now images.now landing.now.images l.images) }
{
    let first = all_plain(alloc, array, images.as_slice())?;
    let second = landing.images.as_slice();
    let images = all_composed(alloc, array, first.as_slice(), second)?;
    Ok(Landing {
        base: landing.base,
        statement: landing.statement,
        images: Images::new(images),
    })
}

/// The shape of a name, where it is free.
pub(crate) fn name_shape(names: &Names, n: usize) -> Option<&[Span]>
    ensures { option_copied result ≡ name_shape names.now n }
{
    match names.as_slice().get(n) {
        Some(name) => match meaning_shape(&name.meaning) {
            Some(shape) => Some(shape.as_slice()),
            None => None,
        },
        None => None,
    }
}

/// The landing of a name that a statement distributes.
fn here(alloc: Global, array: &[Span], n: usize, statement: usize) -> Result<Landing, AllocError>
    requires sound { AreSound array.now }
    requires short { length array.now ≤ 7 }
    ensures base { IfOk result (λ l. l.base ≡ n) }
    ensures statement { IfOk result (λ l. l.statement ≡ statement) }
    ensures images { IfOk result (λ l. AreThemselves array.now l.images) }
{
    Ok(Landing {
        base: n,
        statement,
        images: all_itself(alloc, array)?,
    })
}

/// The landing of a name, where a statement distributes it or the landing of its base is listed.
fn landed(
    alloc: Global,
    names: &Names,
    ways: &Ways,
    direct: &[Option<Images>],
    landings: &[Option<Landing>],
    n: usize,
) -> Result<Option<Landing>, AllocError>
    requires clear { AreClear names.now ways.now direct.now }
    requires listed { AreLandings names.now ways.now direct.now landings.now }
    ensures lands { IfOk result (λ o. IfSome o (λ l. Lands names.now ways.now direct.now n l.base l.statement l.images)) }
    ensures some { IfOk result (λ o. CanLand ways.now landings.now n → IsSome o) }
{
    let Some(array) = name_shape(names, n) else {
        return Ok(None);
    };
    match ways.way(n) {
        Way::Distributed(statement) => Ok(Some(here(alloc, array, n, statement)?)),
        Way::Aligned {
            base: Some(base),
            ..
        } => {
            let Some(images) = at_place(direct, n) else {
                return Ok(None);
            };
            let Some(landing) = at_place(landings, base) else {
                return Ok(None);
            };
            Ok(Some(onward(alloc, array, images, landing)?))
        }
        Way::Aligned { .. } | Way::Unmapped => Ok(None),
    }
}

/// Lists the landing of a name, where a statement distributes it or the landing of its base is listed.
fn list_one(
    alloc: Global,
    names: &Names,
    ways: &Ways,
    direct: &[Option<Images>],
    landings: &mut Vec<Option<Landing>>,
    n: usize,
) -> Result<(), AllocError>
    requires clear { AreClear names.now ways.now direct.now }
    requires listed { AreLandings names.now ways.now direct.now landings.old.items }
    requires below { n < length landings.old.items }
    ensures listed { OnOk result (AreLandings names.now ways.now direct.now landings.new.items) }
    ensures kept { OnOk result (StaysSettled landings.old.items landings.new.items) }
    ensures settled { OnOk result (CanLand ways.now landings.old.items n → IsSettled landings.new.items n) }
{
    if let Some(landing) = landed(alloc, names, ways, direct, landings.as_slice(), n)? {
        landings[n] = Some(landing);
    }
    Ok(())
}

/// Lists the landing of a name, and before it those of the names on the way to its ultimate base, which is reached in so
/// many steps at most.
#[tactic(auto, using(crate::proofs::LandingLemmas::walk_on, crate::proofs::LandingLemmas::walk_stays))]
fn settle(
    alloc: Global,
    names: &Names,
    ways: &Ways,
    direct: &[Option<Images>],
    landings: &mut Vec<Option<Landing>>,
    n: usize,
    steps: usize,
) -> Result<(), AllocError>
    requires clear { AreClear names.now ways.now direct.now }
    requires listed { AreLandings names.now ways.now direct.now landings.old.items }
    requires many { length landings.old.items ≡ length names.now }
    requires below { n < length names.now }
    requires ends { leads_on (way_at ways.now (walk ways.now steps n)) ≡ false }
    ensures listed { OnOk result (AreLandings names.now ways.now direct.now landings.new.items) }
    ensures kept { OnOk result (StaysSettled landings.old.items landings.new.items) }
    ensures settled { OnOk result ((k : ℕ) → way_at ways.now (walk ways.now steps n) ≡ Distributed k → IsSettled landings.new.items n) }
{
    if at_place(landings.as_slice(), n).is_some() {
        return Ok(());
    }
    match ways.way(n) {
        Way::Distributed(_) => list_one(alloc, names, ways, direct, landings, n),
        Way::Aligned {
            base: Some(base),
            ..
        } => {
            if steps == 0 {
                return Ok(());
            }
            settle(alloc, names, ways, direct, landings, base, steps - 1)?;
            list_one(alloc, names, ways, direct, landings, n)?;
            Ok(())
        }
        Way::Aligned { base: None, .. } => Ok(()),
        Way::Unmapped => Ok(()),
    }
}

/// No landing for any of so many names.
fn no_landings(alloc: Global, count: usize) -> Result<Vec<Option<Landing>>, AllocError>
    ensures { IfOk result (λ landings. landings.items ≡ replicate count None) }
{
    let mut landings = Vec::new(alloc);
    for _ in 0..count {
        landings.push(None)?;
    }
    Ok(landings)
}

/// Where the elements of each array lie in its ultimate base: none for a name whose ultimate base no statement distributes.
#[tactic(auto, using(crate::proofs::LandingLemmas::none_listed, crate::proofs::LandingLemmas::kept_on))]
pub(crate) fn all_landings(
    alloc: Global,
    names: &Names,
    ways: &Ways,
    direct: &[Option<Images>],
) -> Result<Vec<Option<Landing>>, AllocError>
    requires clear { AreClear names.now ways.now direct.now }
    requires many { length ways.now ≡ length names.now }
    requires ends { (n : ℕ) → n < length names.now → leads_on (way_at ways.now (walk_end ways.now n)) ≡ false }
    ensures count { IfOk result (λ landings. length landings.items ≡ length names.now) }
    ensures lands { IfOk result (λ landings. AreLandings names.now ways.now direct.now landings.items) }
    ensures settled { IfOk result (λ landings. (n k : ℕ) → n < length names.now
        → way_at ways.now (walk_end ways.now n) ≡ Distributed k → IsSettled landings.items n) }
{
    let count = names.as_slice().len();
    let mut landings = no_landings(alloc, count)?;
    for n in 0..count {
        settle(alloc, names, ways, direct, &mut landings, n, ways.len())?;
    }
    Ok(landings)
}
