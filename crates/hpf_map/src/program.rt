//! What a mapping text gives.

ghost use Rattle.std.specs.Prelude.{◌≡◌, ◌<◌, ◌≤◌, length, slice_get, Some, option_copied};
ghost use Rattle.hpf_map.specs.Paired.{at_place};
ghost use Rattle.hpf_map.specs.Program.{mapping_in};

use crate::names::Names;
use crate::paired::at_place;
use hpf_lex::Word;
use hpf_own::{Mapping, Perm};
use std::marker::Model;

/// What a text is resolved for.
#[derive(Clone, Copy, Debug, PartialEq, Eq)]
pub enum Need {
    /// The mappings of its arrays.
    Mapping,
    /// The stages of a pipeline, so that a text without an INPUT line is refused.
    Pipeline,
}

/// How many arrays, templates and arrangements a text declares, and how many INPUT and STAGE lines it has.
#[derive(Clone, Copy, Debug, PartialEq, Eq)]
pub struct Counts {
    pub arrays: u32,
    pub templates: u32,
    pub arrangements: u32,
    pub stages: u32,
}

/// A stage of a pipeline, which an INPUT or a STAGE line makes.
#[derive(Drop)]
pub struct Stage {
    pub array: Word,
    pub mapping: Mapping,
    /// The dimensions of the array of the stage before that stand in its own, as PERMUTE gives them; else all in order.
    pub perm: Perm,
    /// How many buffers each channel into it has, from 1 to 8.
    pub buffers: u32,
}

/// What a text without a breach gives: the mappings of its arrays, its stages and its counts.
#[derive(Drop)]
pub struct Program {
    names: Names,
    /// The mapping of each name that is an array whose ultimate base is distributed.
    mappings: Vec<Option<Mapping>>,
    stages: Vec<Stage>,
    counts: Counts,
}

impl Model for Program {
    ghost use Rattle.hpf_map.specs.Program.{PlainProgram};

    ghost Value = { PlainProgram };

    ghost view = { λ p. record {
      names = p.names;
      mappings = p.mappings.items;
      stages = p.stages.items;
      counts = p.counts;
    } };

    ghost use Rattle.std.specs.Prelude.{◌≤◌, length};

    ghost invariant = { λ p. length p.stages.items ≤ 16 };
}

impl Program {
    /// A program of these parts. The mappings stand in the order of the names.
    pub(crate) fn new(
        names: Names,
        mappings: Vec<Option<Mapping>>,
        stages: Vec<Stage>,
        counts: Counts,
    ) -> Program
        requires few { length stages.items ≤ 16 }
        ensures { result ≡ record {
          names = names;
          mappings = mappings.items;
          stages = stages.items;
          counts = counts;
        } }
    {
        Program {
            names,
            mappings,
            stages,
            counts,
        }
    }

    /// How many stages there are, INPUT being the first.
    pub fn stages(&self) -> u32
        ensures { result ≡ length self.now.stages }
    {
        self.stages.len() as u32
    }

    /// The stage with this number, from 0.
    pub fn stage(&self, s: u32) -> &Stage
        requires { s < length self.now.stages }
        ensures { slice_get self.now.stages s ≡ Some result.now }
    {
        &self.stages[s as usize]
    }

    /// The mapping of an array. None where the word is no array whose ultimate base is distributed.
    pub fn mapping(&self, array: &Word) -> Option<&Mapping>
        ensures { option_copied result ≡ mapping_in self.now array.now }
    {
        match self.names.place(array) {
            Some(n) => at_place(self.mappings.as_slice(), n),
            None => None,
        }
    }

    /// The same, and nothing else of the program.
    pub fn into_mapping(self, array: &Word) -> Option<Mapping>
        ensures { result ≡ mapping_in self array.now }
    {
        match self.names.place(array) {
            Some(n) => taken(self.mappings, n),
            None => None,
        }
    }

    /// How many names and lines of each kind there are.
    pub fn counts(&self) -> Counts
        ensures { result ≡ self.now.counts }
    {
        self.counts
    }
}

/// The mapping that is listed at a place, taken out of the list.
fn taken(mut mappings: Vec<Option<Mapping>>, n: usize) -> Option<Mapping>
    ensures { result ≡ at_place n mappings.items }
{
    if n < mappings.len() {
        mappings.swap_remove(n)
    } else {
        None
    }
}
