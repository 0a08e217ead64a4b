//! Named constants.

ghost use Rattle.std.specs.Prelude.{◌≡◌, List, map, fold, OnOk};
ghost use Rattle.hpf_syntax.specs.Plain.{constant_tree};
ghost use Rattle.hpf_map.specs.Declarations.{threaded, with_constant, constant_breaches};
ghost use Rattle.hpf_map.specs.Found.{least_with};

use crate::breaches::Breaches;
use crate::constraint::Constraint;
use crate::declare::{chosen, dimensions, test_naming};
use crate::given::Given;
use crate::name::{Dimensions, Name};
use crate::names::Names;
use crate::scope::Scope;
use crate::shapes::MAX_EXTENT;
use hpf_syntax::Constant;
use std::alloc::{AllocError, Global};

/// Declares a constant, and takes in the breaches at it, in its bounds and in what it is given. Inside these it isn't
/// declared yet.
#[tactic(auto, using(crate::proofs::FoundLemmas::least_with_laws), unfolding(crate::specs::Declarations::with_constant, crate::specs::Declarations::constant_breaches, crate::specs::Declarations::constant_name, crate::specs::Declarations::has_wrong_rank))]
fn declare_constant(
    alloc: Global,
    names: &mut Names,
    common: &Dimensions,
    constant: &Constant,
    breaches: &mut Breaches,
) -> Result<(), AllocError>
    ensures names { OnOk result (names.new ≡ with_constant common.now names.old (constant_tree constant.now)) }
    ensures breaches { OnOk result (breaches.new ≡ least_with breaches.old
        (constant_breaches common.now names.old (constant_tree constant.now))) }
{
    test_naming(names, &constant.name, breaches);
    let scope = Scope::behind(names);
    let own = dimensions(
        alloc,
        &scope,
        MAX_EXTENT,
        constant.shape.as_slice(),
        breaches,
    )?;
    let given = Given::new(alloc, &scope, &constant.value, breaches)?;
    let bounds = chosen(alloc, common, own)?;
    let has_shape = bounds.count != 0;
    let is_full = names.is_full();
    let has_wrong_rank = given.breaks_rank(has_shape, &bounds.shape);
    breaches.note_if(has_wrong_rank, Constraint::Rank, constant.name.at);
    let free = !(is_full || has_wrong_rank);
    names.declare(Name {
        word: constant.name.word,
        free,
        meaning: given.meaning(has_shape, free, &bounds.shape),
    })
}

/// Declares constants one after another.
#[tactic(auto, using(crate::proofs::FoundLemmas::least_with_laws))]
pub(crate) fn declare_constants(
    alloc: Global,
    names: &mut Names,
    common: &Dimensions,
    list: &[Constant],
    breaches: &mut Breaches,
) -> Result<(), AllocError>
    ensures names { OnOk result
        (names.new ≡ fold (with_constant common.now) names.old (map constant_tree list.now)) }
    ensures breaches { OnOk result (breaches.new ≡ least_with breaches.old
        (threaded (with_constant common.now)
        (constant_breaches common.now) names.old (map constant_tree list.now))) }
{
    for constant in list {
        declare_constant(alloc, names, common, constant, breaches)?;
    }
    Ok(())
}
