//! How much a text declares.

ghost use Rattle.std.specs.Prelude.{◌≡◌, map, min, length, IfOk};
ghost use Rattle.hpf_syntax.specs.Plain.{item_tree};
ghost use Rattle.hpf_map.specs.Layers.{names_of};
ghost use Rattle.hpf_map.specs.Program.{is_of, number_of, counted, counts_of};

use crate::name::{Meaning, Name, Space};
use crate::names::Names;
use crate::pipeline::lines;
use crate::program::Counts;
use hpf_syntax::Item;
use std::alloc::{AllocError, Global};

/// The number, or the greatest of 32 bits where it is greater.
fn counted(n: usize) -> u32
    ensures { result ≡ counted n }
{
    if n > 4294967295 { 4294967295 } else { n as u32 }
}

impl Space {
    /// Whether a meaning is that of such a space.
    fn is_of(self, meaning: &Meaning) -> bool
        ensures { result ≡ is_of self meaning.now }
    {
        match meaning {
            Meaning::Shaped(space, _) => *space == self,
            Meaning::Scalar | Meaning::Constant(_) | Meaning::List(_) => false,
        }
    }
}

/// How many of these names are such spaces.
fn number_of(space: Space, names: &[Name]) -> usize
    ensures { result ≡ number_of space names.now }
{
    let mut number = 0;
    for name in names {
        if space.is_of(&name.meaning) {
            number += 1;
        }
    }
    number
}

/// How many arrays, templates, arrangements and lines of the pipeline a text has, which declares these names.
pub(crate) fn counts(alloc: Global, names: &Names, items: &[Item]) -> Result<Counts, AllocError>
    requires { names.now ≡ names_of (map item_tree items.now) }
    ensures { IfOk result (λ counts. counts ≡ counts_of (map item_tree items.now)) }
{
    let lines = lines(alloc, items)?;
    Ok(Counts {
        arrays: counted(number_of(Space::Array, names.as_slice())),
        templates: counted(number_of(Space::Template, names.as_slice())),
        arrangements: counted(number_of(Space::Arrangement, names.as_slice())),
        stages: counted(lines.len()),
    })
}
