//! The mappings of all arrays, and the stages of a pipeline.

ghost use Rattle.std.specs.Prelude.{◌≡◌, ◌<◌, ◌≤◌, length, map, unsigned_abs, All, IfOk, is_some};
ghost use Rattle.std.specs.List.{AllZip};
ghost use Rattle.hpf_syntax.specs.Plain.{item_tree};
ghost use Rattle.hpf_own.specs.Limits.{dimension_limit};
ghost use Rattle.hpf_map.specs.Mappings.{array_at, MapsAt, AreMappings, IsReadyLine, IsStageOf, CanPermute, CanHold};
ghost use Rattle.hpf_map.specs.Mapper.{IsMapper};
ghost use Rattle.hpf_map.specs.Program.{HasDims, HasBuffers};
ghost use Rattle.hpf_map.specs.Stages.{max_buffers};

use crate::format_widths::FormatWidths;
use crate::landings::Landing;
use crate::lines::{Entries, Line, Number};
use crate::mapped::array_mapping;
use crate::names::Names;
use crate::paired::at_place;
use crate::program::Stage;
use crate::role::Role;
use crate::shadows::Shadows;
use crate::uses_that_map::used_place;
use hpf_own::{Mapping, Perm};
use hpf_syntax::Item;
use std::alloc::{AllocError, Global};

/// How many buffers each channel into a stage has where BUFFERS isn't given.
const BUFFERS: u32 = 2;

/// Whether the name at a place is a free array.
fn is_array(names: &Names, n: usize) -> bool
    ensures { result ≡ is_some (array_at names.now n) }
{
    match names.as_slice().get(n) {
        Some(name) => name.free && Role::Array.suits(&name.meaning),
        None => false,
    }
}

/// What the mappings of a text are made of: its names and statements, the values of the widths in its formats, where its arrays
/// lie in their ultimate bases, and its shadows.
#[derive(Drop)]
pub(crate) struct Mapper<'a> {
    pub names: &'a Names,
    pub items: &'a [Item],
    pub widths: &'a [Option<FormatWidths>],
    pub landings: &'a [Option<Landing>],
    pub shadows: &'a Shadows,
}

impl Mapper<'_> {
    /// The mapping of the name at a place, where it is an array whose ultimate base is distributed.
    fn mapping_at(&self, alloc: Global, n: usize) -> Result<Option<Mapping>, AllocError>
        requires ready { IsMapper self.now }
        requires below { n < length self.now.names.now }
        ensures { IfOk result (λ m. MapsAt (map item_tree self.now.items.now) n m) }
    {
        if !is_array(self.names, n) {
            return Ok(None);
        }
        match at_place(self.landings, n) {
            Some(landing) => Ok(Some(array_mapping(
                alloc,
                self.names,
                self.items,
                self.widths,
                n,
                landing,
                self.shadows.given(n),
            )?)),
            None => Ok(None),
        }
    }

    /// The mappings of all names, in order.
    pub(crate) fn all_mappings(&self, alloc: Global) -> Result<Vec<Option<Mapping>>, AllocError>
        requires ready { IsMapper self.now }
        ensures { IfOk result (λ mappings. AreMappings (map item_tree self.now.items.now) mappings.items) }
    {
        let mut mappings = Vec::new(alloc);
        for n in 0..self.names.as_slice().len() {
            mappings.push(self.mapping_at(alloc, n)?)?;
        }
        Ok(mappings)
    }

    /// The stage of a line.
    fn stage(&self, alloc: Global, line: &Line) -> Result<Stage, AllocError>
        requires ready { IsMapper self.now }
        requires line { IsReadyLine (map item_tree self.now.items.now) line.now }
        ensures { IfOk result (λ stage. IsStageOf (map item_tree self.now.items.now) line.now stage) }
    {
        let Some(n) = used_place(self.names, Role::Array, &line.array.word) else {
            unreachable!()
        };
        match self.mapping_at(alloc, n)? {
            Some(mapping) => {
                let perm = perm_of(alloc, &line.permute, mapping.bounds().rank())?;
                Ok(Stage {
                    array: line.array.word,
                    mapping,
                    perm,
                    buffers: buffers_of(&line.buffers),
                })
            }
            None => unreachable!(),
        }
    }

    /// The stages of all lines, in order.
    pub(crate) fn all_stages(&self, alloc: Global, lines: &[Line]) -> Result<Vec<Stage>, AllocError>
        requires ready { IsMapper self.now }
        requires lines { All (IsReadyLine (map item_tree self.now.items.now)) lines.now }
        ensures { IfOk result (λ stages. AllZip (IsStageOf (map item_tree self.now.items.now)) lines.now stages.items) }
    {
        let mut stages = Vec::new(alloc);
        for line in lines {
            stages.push(self.stage(alloc, line)?)?;
        }
        Ok(stages)
    }
}

/// The dimensions that PERMUTE gives, or without it all dimensions of an array of this rank, in order.
fn perm_of(alloc: Global, permute: &Option<Entries>, rank: u32) -> Result<Perm, AllocError>
    requires some { 1 ≤ rank }
    requires few { rank ≤ dimension_limit }
    requires permute { CanPermute permute.now }
    ensures { IfOk result (λ perm. HasDims permute.now rank perm) }
{
    let Some(entries) = permute else {
        return Ok(Perm::identity(rank));
    };
    let Some(values) = &entries.values else {
        unreachable!()
    };
    let dims = dims_of(alloc, values.as_slice())?;
    match Perm::new(dims.as_slice()) {
        Some(perm) => Ok(perm),
        None => unreachable!(),
    }
}

/// Entries as dimensions.
fn dims_of(alloc: Global, values: &[i32]) -> Result<Vec<u32>, AllocError>
    ensures { IfOk result (λ dims. dims.items ≡ map unsigned_abs values.now) }
{
    let mut dims = Vec::new(alloc);
    for value in values {
        dims.push(value.unsigned_abs())?;
    }
    Ok(dims)
}

/// How many buffers each channel into a stage has.
fn buffers_of(buffers: &Option<Number>) -> u32
    requires { CanHold buffers.now }
    ensures is { HasBuffers buffers.now result }
    ensures some { 1 ≤ result }
    ensures few { result ≤ max_buffers }
{
    match buffers {
        Some(
            Number {
                value: Some(value),
                ..
            },
        ) => value.unsigned_abs(),
        Some(_) => unreachable!(),
        None => BUFFERS,
    }
}
