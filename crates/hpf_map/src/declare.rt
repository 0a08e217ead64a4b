//! Variables, templates and arrangements.

ghost use Rattle.std.specs.Prelude.{◌≡◌, ◌==◌, List, [], ◌∷◌, ◌++◌, length, map, fold, IfOk, OnOk};
ghost use Rattle.std.specs.List.{list_any};
ghost use Rattle.hpf_syntax.specs.Plain.{bound_tree, declared_tree};
ghost use Rattle.hpf_map.specs.Declarations.{threaded, naming_breaches, chosen, shaped_name, inside, dimensions_of, common_limit, with_declared, declared_breaches};
ghost use Rattle.hpf_map.specs.Found.{least_with};
ghost use Rattle.hpf_map.specs.Shapes.{shape_breaches};

use crate::breaches::Breaches;
use crate::constraint::Constraint;
use crate::name::{Dimensions, Meaning, Name, Space};
use crate::names::Names;
use crate::scope::Scope;
use crate::shapes::{MAX_EXTENT, shape};
use hpf_lex::Word;
use hpf_syntax::{Bound, Declared, Spot};
use std::alloc::{AllocError, Global};

/// A name that is declared already, or that is the first too many.
#[tactic(auto, using(crate::proofs::FoundLemmas::least_with_laws), unfolding(crate::specs::Declarations::naming_breaches))]
pub(crate) fn test_naming(names: &Names, name: &Spot, breaches: &mut Breaches)
    ensures { breaches.new ≡ least_with breaches.old (naming_breaches names.now name.now) }
{
    match names.find(&name.word) {
        Some(_) => breaches.note(Constraint::Twice, name.at),
        None => breaches.note_if(names.is_full(), Constraint::Limit, name.at),
    }
}

/// What bounds give, and the breaches in them.
pub(crate) fn dimensions(
    alloc: Global,
    scope: &Scope,
    limit: u64,
    bounds: &[Bound],
    breaches: &mut Breaches,
) -> Result<Dimensions, AllocError>
    ensures dimensions { IfOk result (λ d. d ≡ dimensions_of limit scope.now (map bound_tree bounds.now)) }
    ensures breaches { OnOk result (breaches.new ≡ least_with breaches.old
        (shape_breaches scope.now limit (map bound_tree bounds.now))) }
{
    let shape = shape(alloc, scope, limit, bounds, breaches)?;
    Ok(Dimensions {
        count: bounds.len(),
        shape,
    })
}

/// A name's own bounds, which take the place of common ones.
pub(crate) fn chosen(
    alloc: Global,
    common: &Dimensions,
    own: Dimensions,
) -> Result<Dimensions, AllocError>
    ensures { IfOk result (λ d. d ≡ chosen common.now own) }
{
    if own.count == 0 {
        common.copy(alloc)
    } else {
        Ok(own)
    }
}

/// A name with these bounds.
#[tactic(auto, unfolding(crate::specs::Declarations::shaped_name))]
fn shaped_name(names: &Names, space: Space, bounds: Dimensions, word: Word) -> Name
    ensures { result ≡ shaped_name space bounds names.now word }
{
    let Dimensions { count, shape } = bounds;
    let free = !(names.is_full() || space.is_oversized(&shape));
    let shape = if free { shape } else { None };
    let meaning = if count == 0 {
        Meaning::Scalar
    } else {
        Meaning::Shaped(space, Dimensions { count, shape })
    };
    Name {
        word,
        free,
        meaning,
    }
}

/// A name inside its own bounds, where it is declared already and holds no shape.
#[tactic(auto, using(crate::proofs::DeclareLemmas::count_seen))]
fn unshaped(names: &Names, space: Space, declared: &Declared) -> Name
    ensures { names.now ++ result ∷ [] ≡ inside space names.now (declared_tree declared.now) }
{
    let bounds = Dimensions {
        count: declared.shape.as_slice().len(),
        shape: None,
    };
    shaped_name(names, space, bounds, declared.name.word)
}

/// Declares a name, and takes in the breaches at it and in its bounds.
#[tactic(auto, using(crate::proofs::FoundLemmas::least_with_laws), unfolding(crate::specs::Declarations::with_declared, crate::specs::Declarations::declared_breaches, crate::specs::Declarations::declared_dimensions))]
fn declare(
    alloc: Global,
    names: &mut Names,
    space: Space,
    common: &Dimensions,
    declared: &Declared,
    breaches: &mut Breaches,
) -> Result<(), AllocError>
    ensures names { OnOk result
        (names.new ≡ with_declared space common.now names.old (declared_tree declared.now)) }
    ensures breaches { OnOk result (breaches.new ≡ least_with breaches.old
        (declared_breaches space common.now names.old (declared_tree declared.now))) }
{
    test_naming(names, &declared.name, breaches);
    let itself = unshaped(names, space, declared);
    let own = dimensions(
        alloc,
        &Scope::inside(names, &itself),
        space.extent_limit(),
        declared.shape.as_slice(),
        breaches,
    )?;
    let bounds = chosen(alloc, common, own)?;
    breaches.note_if(
        space.is_oversized(&bounds.shape),
        Constraint::Limit,
        declared.name.at,
    );
    let name = shaped_name(names, space, bounds, declared.name.word);
    names.declare(name)
}

/// Declares names one after another.
#[tactic(auto, using(crate::proofs::FoundLemmas::least_with_laws))]
pub(crate) fn declare_all(
    alloc: Global,
    names: &mut Names,
    space: Space,
    common: &Dimensions,
    list: &[Declared],
    breaches: &mut Breaches,
) -> Result<(), AllocError>
    ensures names { OnOk result
        (names.new ≡ fold (with_declared space common.now) names.old (map declared_tree list.now)) }
    ensures breaches { OnOk result (breaches.new ≡ least_with breaches.old
        (threaded (with_declared space common.now)
        (declared_breaches space common.now) names.old (map declared_tree list.now))) }
{
    for declared in list {
        declare(alloc, names, space, common, declared, breaches)?;
    }
    Ok(())
}

/// Whether some variable has no bounds of its own.
fn uses_common(list: &[Declared]) -> bool
    ensures { result ≡ list_any (λ d. length d.shape == 0) (map declared_tree list.now) }
{
    for declared in list {
        if declared.shape.as_slice().is_empty() {
            return true;
        }
    }
    false
}

/// The greatest extent of common bounds: that of an array where some variable has none of its own.
pub(crate) fn common_limit(list: &[Declared]) -> u64
    ensures { result ≡ common_limit (map declared_tree list.now) }
{
    if uses_common(list) {
        Space::Array.extent_limit()
    } else {
        MAX_EXTENT
    }
}
