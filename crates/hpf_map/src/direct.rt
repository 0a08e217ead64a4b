//! The images of each name in the base with which a statement aligns it.

ghost use Rattle.std.specs.Prelude.{◌≡◌, ◌≤◌, List, length, map, option_map, option_copied, IfOk, IfSome, Some};
ghost use Rattle.hpf_syntax.specs.Plain.{ItemTree, item_tree, sub_tree};
ghost use Rattle.hpf_map.specs.declared.name.Name.{Name};
ghost use Rattle.hpf_map.specs.Alignments.{images_between};
ghost use Rattle.hpf_map.specs.Direct.{images_along, direct_images};
ghost use Rattle.hpf_map.specs.Landings.{name_shape};
ghost use Rattle.hpf_map.specs.Ownership.{images_of, images_by};
ghost use Rattle.hpf_map.specs.Paired.{inner};
ghost use Rattle.hpf_map.specs.Sound.{AreSoundNames, AreGood};
ghost use Rattle.hpf_map.specs.Subscripts.{all_subscripts};

use crate::alignments::{WHOLE, images, sources_agree, subscripts_agree, written};
use crate::landings::{Images, name_shape};
use crate::name::Span;
use crate::names::Names;
use crate::paired::at_place;
use crate::subscript::Subscript;
use crate::subscripts::Subscripts;
use crate::way::Way;
use crate::ways::Ways;
use hpf_syntax::{Item, List, SourceItem, SubItem};
use std::alloc::{AllocError, Global};

/// The images of an array in its base, where the subscripts say this. It is none where there is a breach.
fn images_between(
    alloc: Global,
    sources: &Option<List<SourceItem>>,
    subs: &Option<List<SubItem>>,
    said: &[Subscript],
    array: &[Span],
    base: &[Span],
) -> Result<Option<Images>, AllocError>
    requires array { length array.now ≤ 7 }
    requires base { length base.now ≤ 7 }
    ensures { IfOk result (λ o. o ≡ inner (images_between sources.now (option_map (map sub_tree) subs.now)
        (Some said.now) (Some array.now) (Some base.now))) }
{
    if !sources_agree(sources, array) || !subscripts_agree(subs, base) {
        return Ok(None);
    }
    let whole = [WHOLE; 7];
    let said = written(subs, said, base.len(), &whole);
    match images(alloc, sources, said, array, base)? {
        None => Ok(None),
        Some(images) => Ok(Some(Images::new(images))),
    }
}

/// The images of an array in its base by a statement whose subscripts say this, where all of them are free.
fn images_of(
    alloc: Global,
    item: &Item,
    said: Option<&Subscripts>,
    array: Option<&[Span]>,
    base: Option<&[Span]>,
) -> Result<Option<Images>, AllocError>
    requires array { IfSome (option_copied array) AreGood }
    requires base { IfSome (option_copied base) AreGood }
    ensures { IfOk result (λ o. (names : List Name) (items : List ItemTree) → o ≡ images_of names items
        (Some (item_tree item.now)) (option_copied said.entry) (option_copied array.entry) (option_copied base.entry)) }
{
    let Item::Align { sources, subs, .. } = item else {
        return Ok(None);
    };
    let Some(said) = said else {
        return Ok(None);
    };
    let Some(array) = array else {
        return Ok(None);
    };
    let Some(base) = base else {
        return Ok(None);
    };
    images_between(alloc, sources, subs, said.as_slice(), array, base)
}

/// The shape of a name, where it is free.
fn good_shape(names: &Names, n: usize) -> Option<&[Span]>
    requires { AreSoundNames names.now }
    ensures shape { option_copied result ≡ name_shape names.now n }
    ensures good { IfSome (option_copied result) AreGood }
{
    name_shape(names, n)
}

/// The images of an array in its base by the statement at this place, where there is no breach.
#[tactic(auto, unfolding(crate::specs::Ownership::images_by))]
fn images_by(
    alloc: Global,
    names: &Names,
    items: &[Item],
    said: &[Option<Subscripts>],
    statement: usize,
    array: usize,
    base: usize,
) -> Result<Option<Images>, AllocError>
    requires sound { AreSoundNames names.now }
    requires said { said.now ≡ all_subscripts (map item_tree items.now) }
    ensures { IfOk result (λ o. o ≡ images_by names.now (map item_tree items.now) statement array base) }
{
    let Some(item) = items.get(statement) else {
        return Ok(None);
    };
    images_of(
        alloc,
        item,
        at_place(said, statement),
        good_shape(names, array),
        good_shape(names, base),
    )
}

/// The images of a name that goes this way in its base, where there are any.
fn images_along(
    alloc: Global,
    names: &Names,
    items: &[Item],
    said: &[Option<Subscripts>],
    n: usize,
    way: Way,
) -> Result<Option<Images>, AllocError>
    requires sound { AreSoundNames names.now }
    requires said { said.now ≡ all_subscripts (map item_tree items.now) }
    ensures { IfOk result (λ o. o ≡ images_along names.now (map item_tree items.now) n way) }
{
    match way {
        Way::Aligned {
            statement,
            base: Some(base),
        } => images_by(alloc, names, items, said, statement, n, base),
        Way::Aligned { base: None, .. } | Way::Distributed(_) | Way::Unmapped => Ok(None),
    }
}

/// The images of each name in the base with which its way leads on to: none for a name that is not aligned.
pub(crate) fn direct_images(
    alloc: Global,
    names: &Names,
    items: &[Item],
    said: &[Option<Subscripts>],
    ways: &Ways,
) -> Result<Vec<Option<Images>>, AllocError>
    requires sound { AreSoundNames names.now }
    requires said { said.now ≡ all_subscripts (map item_tree items.now) }
    ensures { IfOk result (λ direct. direct.items ≡ direct_images names.now (map item_tree items.now) ways.now) }
{
    let mut direct = Vec::new(alloc);
    for n in 0..names.as_slice().len() {
        direct.push(images_along(alloc, names, items, said, n, ways.way(n))?)?;
    }
    Ok(direct)
}
