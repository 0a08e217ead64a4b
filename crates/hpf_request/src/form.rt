//! The form of a run: the extents of its array, and the places of the elements that each processor holds.

ghost use Rattle.std.specs.Prelude.{◌≡◌, ◌-◌, ◌^◌, ◌≤◌, ℕ, List, [], map, length, slice_index_or, Contains, IfOk, ℤ};
ghost use Rattle.hpf_frame.specs.FrameFile.{elements};
ghost use Rattle.hpf_num.specs.Run.{extent};
ghost use Rattle.hpf_own.specs.Mapping.{AreInLimits};
ghost use Rattle.hpf_own.specs.Space.{indices};
ghost use Rattle.hpf_request.specs.Form.{form_of, places_of};
ghost use Rattle.hpf_request.specs.Parts.{AreParts, HaveTaken, IsWithin, places};
ghost use Rattle.hpf_own.specs.Owners.{numbers};

use crate::part::Part;
use hpf_own::laws::element_order;
use hpf_own::{Bounds, Held, Mapping};
use std::alloc::{AllocError, Global};

/// The extents of an array, how many elements it has, and the part of each processor, with no mark yet.
#[derive(Drop)]
pub struct Form {
    pub extents: Vec<u32>,
    pub elements: u32,
    pub parts: Vec<Part>,
}

/// All elements of a mapped array.
pub(crate) fn all_of(alloc: Global, mapping: &Mapping) -> Result<Held, AllocError>
    ensures elements { IfOk result (λ all. all ≡ record { rank = length mapping.now.bounds; indices = indices mapping.now.bounds }) }
    ensures count { length (indices mapping.now.bounds) ≡ elements (map extent mapping.now.bounds) }
{
    element_order();
    Mapping::whole(alloc, *mapping.bounds())?.owned(alloc, 0)
}

/// The form of an array that is mapped so, all elements of which are these.
pub(crate) fn form_of(alloc: Global, mapping: &Mapping, all: &Held) -> Result<Form, AllocError>
    requires { all.now ≡ record { rank = length mapping.now.bounds; indices = indices mapping.now.bounds } }
    ensures is { IfOk result (λ form. record { extents = form.extents.items; parts = places form.parts.items } ≡ form_of mapping.now) }
    ensures elements { IfOk result (λ form. form.elements ≡ length (indices mapping.now.bounds)) }
    ensures met { IfOk result (λ form. HaveTaken form.extents.items form.parts.items []) }
{
    // There are as many elements as the extents multiplied.
    element_order();
    let extents = extents_of(alloc, mapping.bounds())?;
    let parts = parts_of(alloc, mapping, all)?;
    Ok(Form {
        extents,
        elements: all.count() as u32,
        parts,
    })
}

/// The extents of an array with these bounds.
pub(crate) fn extents_of(alloc: Global, bounds: &Bounds) -> Result<Vec<u32>, AllocError>
    requires { AreInLimits bounds.now }
    ensures { IfOk result (λ extents. extents.items ≡ map extent bounds.now) }
{
    let mut extents = Vec::new(alloc);
    for run in bounds.as_slice() {
        extents.push(run.extent() as u32)?;
    }
    Ok(extents)
}

/// The parts of all processors, among all elements of the array.
fn parts_of(alloc: Global, mapping: &Mapping, all: &Held) -> Result<Vec<Part>, AllocError>
    requires all { all.now ≡ record { rank = length mapping.now.bounds; indices = indices mapping.now.bounds } }
    requires few { length all.now.indices ≤ 2 ^ 24 }
    ensures { IfOk result (λ parts. AreParts (map (places_of mapping.now) (numbers mapping.now.procs)) [] parts.items) }
{
    // No element stands twice in the order.
    element_order();
    let mut parts = Vec::new(alloc);
    for p in 0..mapping.procs() {
        let held = mapping.held(alloc, p)?;
        let part = part_of(alloc, all, &held)?;
        parts.push(part)?;
    }
    Ok(parts)
}

/// The places of these elements among all, counted from 1.
fn part_of(alloc: Global, all: &Held, held: &Held) -> Result<Part, AllocError>
    requires rank { held.now.rank ≡ all.now.rank }
    requires few { length all.now.indices ≤ 2 ^ 24 }
    requires among { (index : List ℤ) → Contains held.now.indices index → Contains all.now.indices index }
    ensures unmarked { IfOk result (λ part. part.mark ≡ 0) }
    ensures within { IfOk result (IsWithin (length all.now.indices)) }
    ensures places { IfOk result (λ part. map (λ place. slice_index_or all.now.indices (place - 1) []) part.positions ≡ held.now.indices) }
{
    let mut part = Part::new(alloc);
    let mut room = vec![in alloc; 0; all.rank() as usize]?;
    let index = room.as_mut_slice();
    for k in 0..held.count() {
        held.nth(k, index);
        part.push(place_of(all, index))?;
    }
    Ok(part)
}

/// The place of an element among all, counted from 1.
fn place_of(all: &Held, index: &[i64]) -> u32
    requires rank { length index.now ≡ all.now.rank }
    requires few { length all.now.indices ≤ 2 ^ 24 }
    requires among { Contains all.now.indices index.now }
    ensures some { 1 ≤ result }
    ensures few { result ≤ length all.now.indices }
    ensures place { slice_index_or all.now.indices (result - 1) [] ≡ index.now }
{
    match all.place(index) {
        Some(place) => place as u32 + 1,
        None => unreachable!(),
    }
}
