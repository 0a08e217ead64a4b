//! Where the elements of an array lie in the base of an ALIGN.

ghost use Rattle.std.specs.Prelude.{◌≡◌, ◌||◌, ◌≤◌, ◌+◌, ◌++◌, length, map, option_map, Some, None, IfOk, OnOk, option_copied, if◌then◌else◌, slice_index_or, replicate, ◌*ℤ◌, ◌+ℤ◌, ◌^◌, unsigned_abs};
ghost use Rattle.std.specs.List.{flat_map, list_any, range_with_len};
ghost use Rattle.hpf_map.specs.Alignments.{colons_from, colons, option_length, dummy_from, dummy_dimension, form_image, any_image, matched_image, image_in, colons_left, arranged, is_beyond, strays, no_span, Ordered, is_outside, whole_dimension, written_subscripts, position_breaches, images_between, count_breaches, alignee_breaches, align_breaches};
ghost use Rattle.hpf_map.specs.Found.{least_with};
ghost use Rattle.hpf_map.specs.Paired.{at_place, each_with};
ghost use Rattle.hpf_map.specs.Sound.{AreSoundNames};
ghost use Rattle.hpf_map.specs.Spaces.{run_of, counts_agree};
ghost use Rattle.hpf_map.specs.Uses.{is_dummy};
ghost use Rattle.hpf_own.specs.Space.{indices};
ghost use Rattle.hpf_syntax.specs.Plain.{item_tree, sub_tree};

use crate::breaches::Breaches;
use crate::constraint::Constraint;
use crate::name::{Shape, Span};
use crate::names::Names;
use crate::role::Role;
use crate::shapes::extent;
use crate::spaces::shape_of;
use crate::subscript::Subscript;
use crate::subscripts::Subscripts;
use crate::triplet::Triplet;
use hpf_lex::Word;
use hpf_own::Image;
use hpf_own::laws::element_order;
use hpf_syntax::{Item, List, SourceItem, Spot, SubItem};
use std::alloc::{AllocError, Global};

/// Adds the dimensions of the `:` sources, of which the first has this number.
fn add_colons(d: u32, sources: &[SourceItem], dims: &mut Vec<u32>) -> Result<(), AllocError>
    requires { d + length sources.now ≤ 7 }
    ensures { OnOk result (dims.new.items ≡ dims.old.items ++ colons_from d sources.now) }
{
    let Some((source, rest)) = sources.split_first() else {
        return Ok(());
    };
    if let SourceItem::Colon(_) = source {
        dims.push(d)?;
    }
    add_colons(d + 1, rest, dims)
}

/// Whether a source is this dummy.
fn is_dummy(word: &Word, source: &SourceItem) -> bool
    ensures { result ≡ is_dummy word.now source.now }
{
    match source {
        SourceItem::Dummy(dummy) => *word == dummy.word,
        SourceItem::Colon(_) | SourceItem::Star(_) => false,
    }
}

/// The dimension whose source is this dummy, of which the first has this number.
fn dummy_from(d: u32, sources: &[SourceItem], word: &Word) -> u32
    requires { d + length sources.now ≤ 7 }
    ensures { result ≡ dummy_from d sources.now word.now }
{
    match sources.split_first() {
        None => 0,
        Some((source, rest)) => {
            if is_dummy(word, source) {
                d
            } else {
                dummy_from(d + 1, rest, word)
            }
        }
    }
}

/// Adds so many dimensions, of which the first has this number.
fn add_dims(d: u32, count: u32, dims: &mut Vec<u32>) -> Result<(), AllocError>
    requires { d + count ≤ 7 }
    ensures { OnOk result (dims.new.items ≡ dims.old.items ++ range_with_len d count) }
{
    if count == 0 {
        return Ok(());
    }
    dims.push(d)?;
    add_dims(d + 1, count - 1, dims)?;
    Ok(())
}

/// The dimensions of the `:` sources of an array with this many dimensions.
fn colons(
    alloc: Global,
    rank: u32,
    sources: &Option<List<SourceItem>>,
) -> Result<Vec<u32>, AllocError>
    requires rank { rank ≤ 7 }
    requires sources { option_length sources.now ≤ 7 }
    ensures { IfOk result (λ dims. dims.items ≡ colons rank sources.now) }
{
    let mut dims = Vec::new(alloc);
    match sources {
        Some(sources) => add_colons(0, sources.as_slice(), &mut dims)?,
        None => add_dims(0, rank, &mut dims)?,
    }
    Ok(dims)
}

/// The dimension whose source is this dummy.
fn dummy_dimension(sources: &Option<List<SourceItem>>, word: &Word) -> u32
    requires { option_length sources.now ≤ 7 }
    ensures { result ≡ dummy_dimension sources.now word.now }
{
    match sources {
        Some(sources) => dummy_from(0, sources.as_slice(), word),
        None => 0,
    }
}

/// The position that a linear form gives.
fn form_image(
    sources: &Option<List<SourceItem>>,
    dummy: Option<Word>,
    coefficient: i32,
    constant: i32,
) -> Image
    requires { option_length sources.now ≤ 7 }
    ensures { result ≡ form_image sources.now dummy coefficient constant }
{
    match dummy {
        None => Image::Fixed(i64::from(constant)),
        Some(word) => Image::Along {
            dim: dummy_dimension(sources, &word),
            a: i64::from(coefficient),
            b: i64::from(constant),
        },
    }
}

/// Every position of a dimension.
fn any_image(base: Span) -> Image
    ensures { result ≡ any_image base }
{
    Image::Spread {
        first: i64::from(base.low),
        step: 1,
        count: extent(&base),
    }
}

/// The bounds of a dimension.
fn span_at(array: &[Span], dim: u32) -> Span
    ensures { result ≡ slice_index_or array.now dim no_span }
{
    match array.get(dim as usize) {
        Some(span) => *span,
        None => Span { low: 0, high: 0 },
    }
}

/// Where elements lie in a dimension whose triplet is matched with the first `:` source of these, if it is.
fn matched_image(array: &[Span], colons: &[u32], triplet: Triplet, base: Span) -> Option<Image>
    ensures { result ≡ matched_image array.now colons.now triplet.low triplet.high triplet.step base }
{
    match colons.first() {
        None => None,
        Some(dim) => {
            let span = span_at(array, *dim);
            if triplet.matches(base, span) {
                Some(triplet.image(base, *dim, span))
            } else {
                None
            }
        }
    }
}

/// Where elements lie in a dimension of the base, if the subscript is matched.
fn image_in(
    array: &[Span],
    sources: &Option<List<SourceItem>>,
    colons: &[u32],
    sub: Subscript,
    base: Span,
) -> Option<Image>
    requires { option_length sources.now ≤ 7 }
    ensures { result ≡ image_in array.now sources.now colons.now sub base }
{
    match sub {
        Subscript::Any => Some(any_image(base)),
        Subscript::Linear {
            dummy,
            coefficient,
            constant,
        } => Some(form_image(sources, dummy, coefficient, constant)),
        Subscript::Triplet { low, high, step } => {
            matched_image(array, colons, Triplet { low, high, step }, base)
        }
    }
}

/// What is left of the `:` sources behind a subscript.
fn colons_left(colons: &[u32], sub: Subscript) -> &[u32]
    ensures { result.now ≡ colons_left colons.now sub }
{
    match sub {
        Subscript::Triplet { .. } if !colons.is_empty() => &colons[1..],
        _ => colons,
    }
}

/// Adds the images in the dimensions of the base, and answers whether all subscripts are matched.
#[tactic(auto, unfolding(crate::specs::Alignments::arranged))]
fn arrange(
    array: &[Span],
    sources: &Option<List<SourceItem>>,
    colons: &[u32],
    subs: &[Subscript],
    base: &[Span],
    images: &mut Vec<Image>,
) -> Result<bool, AllocError>
    requires { option_length sources.now ≤ 7 }
    ensures { IfOk result (λ matched.
        option_map (λ rest. images.old.items ++ rest) (arranged array.now sources.now colons.now subs.now base.now)
        ≡ (if matched then Some images.new.items else None)) }
{
    let Some((sub, subs)) = subs.split_first() else {
        return Ok(colons.is_empty());
    };
    let Some((span, base)) = base.split_first() else {
        return Ok(colons.is_empty());
    };
    let Some(image) = image_in(array, sources, colons, *sub, *span) else {
        return Ok(false);
    };
    images.push(image)?;
    arrange(
        array,
        sources,
        colons_left(colons, *sub),
        subs,
        base,
        images,
    )
}

/// `a * subscript`.
fn times(a: i64, subscript: i32) -> i128
    ensures value { result ≡ a *ℤ subscript }
    ensures small { unsigned_abs result ≤ 2 ^ 96 }
{
    i128::from(a) * i128::from(subscript)
}

/// `product + b`.
fn plus(product: i128, b: i64) -> i128
    requires { unsigned_abs product ≤ 2 ^ 96 }
    ensures { result ≡ product +ℤ b }
{
    product + i128::from(b)
}

/// A position of a linear image.
fn position(a: i64, subscript: i32, b: i64) -> i128
    ensures { result ≡ a *ℤ subscript +ℤ b }
{
    plus(times(a, subscript), b)
}

/// Whether a position isn't the base's.
fn is_beyond(base: Span, position: i128) -> bool
    ensures { result ≡ is_beyond base position }
{
    position < i128::from(base.low) || i128::from(base.high) < position
}

/// The same of a fixed position.
fn is_fixed_beyond(position: i64, base: Span) -> bool
    ensures { result ≡ is_beyond base position }
{
    is_beyond(base, i128::from(position))
}

/// Whether an element at an end of a dimension is aligned with such a position.
fn an_end_strays(span: Span, a: i64, b: i64, base: Span) -> bool
    ensures { result ≡ (is_beyond base (a *ℤ span.low +ℤ b) || is_beyond base (a *ℤ span.high +ℤ b)) }
{
    is_beyond(base, position(a, span.low, b)) || is_beyond(base, position(a, span.high, b))
}

/// Whether some element of an array is aligned with such a position in a dimension of the base.
fn strays(array: &[Span], image: Image, base: Span) -> bool
    requires { Ordered array.now }
    ensures { result ≡ list_any (λ index. strays index image base) (indices (map run_of array.now)) }
{
    element_order();
    match image {
        Image::Along { dim, a, b } => an_end_strays(span_at(array, dim), a, b, base),
        Image::Fixed(position) => is_fixed_beyond(position, base),
        Image::Spread { .. } => false,
    }
}

/// Whether some element of an array is aligned with a position that isn't the base's, in some dimension.
#[tactic(auto, using(crate::proofs::OutsideLemmas::outside_laws))]
fn is_outside(array: &[Span], base: &[Span], images: &[Image]) -> bool
    requires { Ordered array.now }
    ensures { result ≡ is_outside array.now base.now images.now }
{
    let Some((image, images)) = images.split_first() else {
        return false;
    };
    let Some((span, base)) = base.split_first() else {
        return false;
    };
    strays(array, *image, *span) || is_outside(array, base, images)
}

/// Whether as many sources are written as an array has dimensions. Where none are, they stand for all.
pub(crate) fn sources_agree(sources: &Option<List<SourceItem>>, array: &[Span]) -> bool
    ensures { result ≡ counts_agree sources.now array.now }
{
    match sources {
        Some(sources) => sources.as_slice().len() == array.len(),
        None => true,
    }
}

/// The same of subscripts and a base.
#[tactic(auto, using(crate::proofs::AlignmentLemmas::subscripts_seen))]
pub(crate) fn subscripts_agree(subs: &Option<List<SubItem>>, base: &[Span]) -> bool
    ensures { result ≡ counts_agree (option_map (map sub_tree) subs.now) base.now }
{
    match subs {
        Some(subs) => subs.as_slice().len() == base.len(),
        None => true,
    }
}

/// The images of an array in its base, where the subscripts say this and are as many as they should be. It is none where
/// sources and triplets don't match.
pub(crate) fn images(
    alloc: Global,
    sources: &Option<List<SourceItem>>,
    said: &[Subscript],
    array: &[Span],
    base: &[Span],
) -> Result<Option<Vec<Image>>, AllocError>
    requires sources { option_length sources.now ≤ 7 }
    requires array { length array.now ≤ 7 }
    ensures { IfOk result (λ images. option_map (λ v. v.items) images
        ≡ arranged array.now sources.now (colons (length array.now) sources.now) said.now base.now) }
{
    let colons = colons(alloc, array.len() as u32, sources)?;
    let mut images = Vec::new(alloc);
    let matched = arrange(array, sources, colons.as_slice(), said, base, &mut images)?;
    Ok(if matched { Some(images) } else { None })
}

/// `:`, a triplet of which nothing is written.
pub(crate) const WHOLE: Subscript = Subscript::Triplet {
    low: None,
    high: None,
    step: None,
};

/// The subscripts of a base of this rank: these, or `:` in each dimension where none are written.
#[tactic(auto, using(crate::proofs::AlignmentLemmas::some_of_seven))]
pub(crate) fn written<'a>(
    subs: &Option<List<SubItem>>,
    said: &'a [Subscript],
    rank: usize,
    whole: &'a [Subscript],
) -> &'a [Subscript]
    requires rank { rank ≤ 7 }
    requires whole { whole.now ≡ replicate 7 whole_dimension }
    ensures { result.now ≡ written_subscripts rank (option_map (map sub_tree) subs.now) said.now }
{
    match subs {
        Some(_) => said,
        None => &whole[..rank],
    }
}

/// Sources and triplets that don't match, or a position outside the base.
#[tactic(auto, using(crate::proofs::FoundLemmas::least_with_laws))]
fn test_positions(
    alloc: Global,
    sources: &Option<List<SourceItem>>,
    subs: &Option<List<SubItem>>,
    said: &[Subscript],
    array: &[Span],
    base: &[Span],
    alignee: &Spot,
    breaches: &mut Breaches,
) -> Result<(), AllocError>
    requires array { length array.now ≤ 7 }
    requires base { length base.now ≤ 7 }
    requires ordered { Ordered array.now }
    ensures { OnOk result (breaches.new ≡ least_with breaches.old
        (position_breaches sources.now (option_map (map sub_tree) subs.now) alignee.now (Some array.now) (Some base.now)
        (images_between sources.now (option_map (map sub_tree) subs.now) (Some said.now) (Some array.now) (Some base.now)))) }
{
    if !sources_agree(sources, array) || !subscripts_agree(subs, base) {
        return Ok(());
    }
    let whole = [WHOLE; 7];
    let said = written(subs, said, base.len(), &whole);
    match images(alloc, sources, said, array, base)? {
        None => breaches.note(Constraint::Unlike, alignee.at),
        Some(images) => {
            let outside = is_outside(array, base, images.as_slice());
            breaches.note_if(outside, Constraint::Outside, alignee.at);
        }
    }
    Ok(())
}

/// Another number of sources than an array has dimensions, where its shape is free.
#[tactic(auto, using(crate::proofs::FoundLemmas::least_with_laws))]
fn test_source_count(
    sources: &Option<List<SourceItem>>,
    alignee: &Spot,
    array: Option<&Shape>,
    breaches: &mut Breaches,
)
    ensures { breaches.new ≡ least_with breaches.old
        (count_breaches sources.now alignee.now (option_copied array.entry)) }
{
    if let Some(array) = array {
        let broken = !sources_agree(sources, array.as_slice());
        breaches.note_if(broken, Constraint::Rank, alignee.at);
    }
}

/// Another number of subscripts than a base has dimensions, where its shape is free.
#[tactic(auto, using(crate::proofs::FoundLemmas::least_with_laws))]
fn test_subscript_count(
    subs: &Option<List<SubItem>>,
    base: &Spot,
    space: Option<&Shape>,
    breaches: &mut Breaches,
)
    ensures { breaches.new ≡ least_with breaches.old
        (count_breaches (option_map (map sub_tree) subs.now) base.now (option_copied space.entry)) }
{
    if let Some(space) = space {
        let broken = !subscripts_agree(subs, space.as_slice());
        breaches.note_if(broken, Constraint::Rank, base.at);
    }
}

/// The breaches of an alignee.
#[tactic(auto, using(crate::proofs::FoundLemmas::least_with_laws), unfolding(crate::specs::Alignments::alignee_breaches))]
fn test_alignee(
    alloc: Global,
    names: &Names,
    sources: &Option<List<SourceItem>>,
    base: &Spot,
    subs: &Option<List<SubItem>>,
    said: &Option<Subscripts>,
    alignee: &Spot,
    breaches: &mut Breaches,
) -> Result<(), AllocError>
    requires { AreSoundNames names.now }
    ensures { OnOk result (breaches.new ≡ least_with breaches.old
        (alignee_breaches names.now sources.now base.now (option_map (map sub_tree) subs.now) said.now alignee.now)) }
{
    let array = shape_of(names, Role::Array, &alignee.word);
    let space = shape_of(names, Role::Mapped, &base.word);
    test_source_count(sources, alignee, array, breaches);
    let Some(said) = said else {
        return Ok(());
    };
    let Some(array) = array else {
        return Ok(());
    };
    let Some(space) = space else {
        return Ok(());
    };
    test_positions(
        alloc,
        sources,
        subs,
        said.as_slice(),
        array.as_slice(),
        space.as_slice(),
        alignee,
        breaches,
    )
}

/// The breaches of alignees.
#[tactic(auto, using(crate::proofs::FoundLemmas::least_with_laws))]
fn test_alignees(
    alloc: Global,
    names: &Names,
    sources: &Option<List<SourceItem>>,
    base: &Spot,
    subs: &Option<List<SubItem>>,
    said: &Option<Subscripts>,
    alignees: &[Spot],
    breaches: &mut Breaches,
) -> Result<(), AllocError>
    requires { AreSoundNames names.now }
    ensures { OnOk result (breaches.new ≡ least_with breaches.old
        (flat_map (alignee_breaches names.now sources.now base.now (option_map (map sub_tree) subs.now) said.now) alignees.now)) }
{
    for alignee in alignees {
        test_alignee(alloc, names, sources, base, subs, said, alignee, breaches)?;
    }
    Ok(())
}

/// The breaches of an ALIGN whose subscripts say this.
#[tactic(auto, using(crate::proofs::FoundLemmas::least_with_laws), unfolding(crate::specs::Alignments::align_breaches))]
fn test_align(
    alloc: Global,
    names: &Names,
    item: &Item,
    said: &Option<Subscripts>,
    breaches: &mut Breaches,
) -> Result<(), AllocError>
    requires { AreSoundNames names.now }
    ensures { OnOk result (breaches.new ≡ least_with breaches.old (align_breaches names.now (item_tree item.now) said.now)) }
{
    let Item::Align {
        names: alignees,
        sources,
        base,
        subs,
    } = item
    else {
        return Ok(());
    };
    let space = shape_of(names, Role::Mapped, &base.word);
    test_subscript_count(subs, base, space, breaches);
    test_alignees(
        alloc,
        names,
        sources,
        base,
        subs,
        said,
        alignees.as_slice(),
        breaches,
    )
}

/// The breaches of an ALIGN of which the subscripts say what stands at a place.
fn test_align_at(
    alloc: Global,
    names: &Names,
    item: &Item,
    said: &[Option<Subscripts>],
    place: usize,
    breaches: &mut Breaches,
) -> Result<(), AllocError>
    requires { AreSoundNames names.now }
    ensures { OnOk result (breaches.new ≡ least_with breaches.old
        (align_breaches names.now (item_tree item.now) (at_place place said.now))) }
{
    if let Some(said) = said.get(place) {
        return test_align(alloc, names, item, said, breaches);
    }
    let nothing = None;
    test_align(alloc, names, item, &nothing, breaches)
}

/// The breaches of all ALIGN, whose subscripts say this, statement by statement.
#[tactic(auto, using(crate::proofs::FoundLemmas::least_with_laws))]
pub(crate) fn test_aligns(
    alloc: Global,
    names: &Names,
    items: &[Item],
    said: &[Option<Subscripts>],
    breaches: &mut Breaches,
) -> Result<(), AllocError>
    requires { AreSoundNames names.now }
    ensures { OnOk result (breaches.new ≡ least_with breaches.old
        (each_with (align_breaches names.now) (map item_tree items.now) said.now)) }
{
    for (k, item) in items.iter().enumerate() {
        test_align_at(alloc, names, item, said, k, breaches)?;
    }
    Ok(())
}
