//! The arrangements among names, found by how many bounds they have.

ghost use Rattle.std.specs.Prelude.{◌≡◌, [], ◌∷◌, ◌++◌, List, length, Some};
ghost use Rattle.std.specs.Option.{option_or};
ghost use Rattle.hpf_map.specs.Arrangements.{bounds_of, AreOf};
ghost use Rattle.hpf_map.specs.Distributions.{is_arrangement, fits, is_broken};
ghost use Rattle.hpf_map.specs.declared.name.Name.{Name};

use crate::name::{Meaning, Name, Space};
use crate::spaces::meaning_shape;

/// More bounds than an arrangement without a breach has.
pub(crate) const COUNTS: usize = 8;

/// Whether a meaning is that of an arrangement.
fn is_arrangement(meaning: &Meaning) -> bool
    ensures { result ≡ is_arrangement meaning.now }
{
    matches!(meaning, Meaning::Shaped(Space::Arrangement, _))
}

/// How many bounds of an arrangement are written.
fn bounds_of(meaning: &Meaning) -> Option<usize>
    ensures { result ≡ bounds_of meaning.now }
{
    match meaning {
        Meaning::Shaped(Space::Arrangement, dimensions) => Some(dimensions.count),
        _ => None,
    }
}

/// Whether a name is an arrangement of which so many bounds are written.
pub(crate) fn fits(count: usize, name: &Name) -> bool
    ensures { result ≡ fits count name.now }
{
    match &name.meaning {
        Meaning::Shaped(Space::Arrangement, dimensions) => dimensions.count == count,
        _ => false,
    }
}

/// Whether a name is an arrangement that has a breach.
fn is_broken(name: &Name) -> bool
    ensures { result ≡ is_broken name.now }
{
    is_arrangement(&name.meaning) && !(name.free && meaning_shape(&name.meaning).is_some())
}

/// A place, or else this one.
fn or_place(first: Option<usize>, place: usize) -> Option<usize>
    ensures { result ≡ option_or first (Some place) }
{
    match first {
        Some(first) => Some(first),
        None => Some(place),
    }
}

/// The arrangements among names: for each number of bounds below eight the place of the first that has so many, and whether one
/// has a breach.
#[derive(Clone, Copy)]
pub(crate) struct Arrangements {
    pub first: [Option<usize>; COUNTS],
    pub broken: bool,
}

impl Arrangements {
    /// Those among no names.
    pub(crate) fn none() -> Arrangements
        ensures { AreOf [] result }
    {
        Arrangements {
            first: [None; COUNTS],
            broken: false,
        }
    }

    /// Takes in a name that stands behind the others, at this place.
    pub(crate) fn add(&mut self, name: &Name, place: usize)
        ensures { (names : List Name) → place ≡ length names → AreOf names self.old → AreOf (names ++ name.now ∷ []) self.new }
    {
        self.broken |= is_broken(name);
        match bounds_of(&name.meaning) {
            Some(count) => {
                if count < COUNTS {
                    self.first[count] = or_place(self.first[count], place);
                }
            }
            None => {}
        }
    }
}
