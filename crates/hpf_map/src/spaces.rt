//! The shapes of names that directives use, where they are free.

ghost use Rattle.std.specs.Prelude.{◌≡◌, ◌∷◌, option_copied, IfSome, not, ◌==◌, length};
ghost use Rattle.hpf_map.specs.Distributions.{count_differs};
ghost use Rattle.hpf_map.specs.Found.{least_with};
ghost use Rattle.hpf_map.specs.Sound.{AreSoundNames, AreGood};
ghost use Rattle.hpf_map.specs.Spaces.{meaning_shape, used_as, shape_of};

use crate::breaches::Breaches;
use crate::constraint::Constraint;
use crate::name::{Meaning, Name, Shape};
use crate::names::Names;
use crate::role::Role;
use hpf_lex::Word;
use hpf_syntax::Spot;

/// The shape that a meaning has, where that is free.
pub(crate) fn meaning_shape(meaning: &Meaning) -> Option<&Shape>
    ensures { option_copied result ≡ meaning_shape meaning.now }
{
    match meaning {
        Meaning::Shaped(_, dimensions) => dimensions.shape.as_ref(),
        Meaning::Scalar | Meaning::Constant(_) | Meaning::List(_) => None,
    }
}

/// What a word is that is used so, where neither the use nor the name has a breach.
pub(crate) fn used_as<'a>(names: &'a Names, role: Role, word: &Word) -> Option<&'a Name>
    ensures { option_copied result ≡ used_as names.now role word.now }
{
    match names.find(word) {
        Some(name) if name.free && role.suits(&name.meaning) => Some(name),
        _ => None,
    }
}

/// Its shape, where that is free too.
pub(crate) fn shape_of<'a>(names: &'a Names, role: Role, word: &Word) -> Option<&'a Shape>
    ensures shape { option_copied result ≡ shape_of names.now role word.now }
    ensures good { AreSoundNames names.now → IfSome (option_copied result) AreGood }
{
    match used_as(names, role, word) {
        Some(name) => meaning_shape(&name.meaning),
        None => None,
    }
}

/// Another number than a shape has dimensions, where that is free.
#[tactic(auto, using(crate::proofs::FoundLemmas::least_with_laws))]
pub(crate) fn test_count(count: usize, spot: &Spot, shape: Option<&Shape>, breaches: &mut Breaches)
    ensures { breaches.new ≡ least_with breaches.old (count_differs count spot.now (option_copied shape.entry)) }
{
    if let Some(shape) = shape {
        breaches.note_if(count != shape.as_slice().len(), Constraint::Rank, spot.at);
    }
}
