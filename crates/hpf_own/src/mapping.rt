//! A mapping of an array onto processors.

mod parts;

ghost use Rattle.std.specs.Prelude.{◌≡◌, ◌+◌, ◌*◌, ◌^◌, ◌<◌, ◌≤◌, ℕ, List, ℤ, length, slice_index, All, IsTrue, IfOk, ◌↔◌, find};
ghost use Rattle.hpf_own.specs.Space.{LiesIn, product};
ghost use Rattle.hpf_own.specs.Lists.{IsBounds, IsSizes};
ghost use Rattle.hpf_own.specs.Mapping.{IsMapping, AreInLimits, IsSmallWidth, IsOnePosition, AreDims, divides};
ghost use Rattle.hpf_own.specs.Owners.{owns, owners, sender, sends, holds, IsLeast, LeadsOf, IsWhole};
ghost use Rattle.hpf_own.specs.OwnerSet.{IsSetOf, IsRepeated};
ghost use Rattle.hpf_dist.specs.Limits.{processor_limit};

use crate::base_dims::BaseDims;
use crate::bounds::Bounds;
use crate::common::{Common, common_over};
use crate::image::{BaseDim, Cut, Image};
use crate::limits::DIMENSIONS;
use crate::owner_set::OwnerSet;
use crate::procs::Procs;
use crate::sizes::Sizes;
use crate::widths::Widths;
use hpf_dist::{Axis, AxisRefusal, Format};
use std::alloc::{AllocError, Global};
use std::marker::Model;

/// Where the elements of an array lie on the processors of an arrangement. It is seen as its parts: the bounds of the
/// array, the dimensions of its base, the sizes of the arrangement and the widths of its shadow.
#[derive(Drop)]
pub struct Mapping {
    bounds: Bounds,
    dims: BaseDims,
    procs: Sizes,
    shadow: Widths,
    // the coordinates at which all elements lie, for each dimension of the arrangement that has such
    common: [Option<Common>; DIMENSIONS],
}

impl Model for Mapping {
    ghost use Rattle.hpf_own.specs.Mapping.{PlainMapping};
    ghost use Rattle.hpf_own.specs.Common.{IsKeptMapping};

    ghost Value = { PlainMapping };

    ghost view = { λ m. record { bounds = m.bounds; dims = m.dims; procs = m.procs; shadow = m.shadow } };

    ghost invariant = { λ m. IsKeptMapping (record { bounds = m.bounds; dims = m.dims; procs = m.procs; shadow = m.shadow }) m.common };
}

impl Mapping {
    /// A mapping of these parts. Each dimension of the array stands in one image at most, and each dimension of the
    /// arrangement in exactly one cut.
    pub fn new(bounds: Bounds, dims: BaseDims, procs: Sizes, shadow: Widths) -> Mapping
        requires limits { AreInLimits bounds }
        requires one_width { length shadow ≡ length bounds }
        requires widths { All IsSmallWidth shadow }
        requires dims { AreDims bounds dims procs }
        ensures { result ≡ record { bounds = bounds; dims = dims; procs = procs; shadow = shadow } }
    {
        // (bounds, dimensions and sizes are well formed, as every such list is)
        let _ = bounds.as_slice();
        let mut common = [None; DIMENSIONS];
        for e in 0..procs.as_slice().len() {
            common[e] = common_over(dims.as_slice(), e as u32);
        }
        Mapping {
            bounds,
            dims,
            procs,
            shadow,
            common,
        }
    }

    /// One processor that owns the whole array, with no shadow.
    pub fn whole(alloc: Global, bounds: Bounds) -> Result<Mapping, AllocError>
        requires { AreInLimits bounds }
        ensures { IfOk result (IsWhole bounds) }
    {
        let shadow = Widths::none(bounds.rank());
        let mut dims = BaseDims::new(alloc);
        dims.push(alloc, one_position(alloc)?)?;
        Ok(Mapping::new(bounds, dims, Sizes::one(), shadow))
    }

    /// The bounds of the array. Each of its elements has an owner.
    pub fn bounds(&self) -> &Bounds
        ensures same { result.now ≡ self.now.bounds }
        ensures mapping { IsMapping self.now }
        ensures owner { (index : List ℤ) → LiesIn self.now.bounds index
            → (p : ℕ) × (p < product self.now.procs) × IsTrue (owns self.now p index) }
    {
        &self.bounds
    }

    /// The number of processors of the arrangement.
    pub fn procs(&self) -> u32
        ensures { result ≡ product self.now.procs }
    {
        self.procs.product()
    }

    /// Whether processor `p` owns the element.
    pub fn owns(&self, p: u32, index: &[i64]) -> bool
        requires proc { p < product self.now.procs }
        requires index { LiesIn self.now.bounds index.now }
        ensures { result ≡ owns self.now p index.now }
    {
        let _ = &self.bounds;
        let mut rest = p;
        for (e, size) in self.procs.as_slice().iter().enumerate() {
            if !self.holds(e as u32, rest % size, index) {
                return false;
            }
            rest /= size;
        }
        true
    }

    /// The processor that sends the element: its owner with the least number.
    pub fn sender(&self, index: &[i64]) -> u32
        requires { LiesIn self.now.bounds index.now }
        ensures sender { result ≡ sender self.now index.now }
        ensures owner { IsTrue (owns self.now result index.now) }
        ensures below { result < product self.now.procs }
    {
        let _ = &self.bounds;
        let mut number = 0;
        let mut stride = 1;
        for (e, size) in self.procs.as_slice().iter().enumerate() {
            number += self.least(e as u32, index) * stride;
            stride *= size;
        }
        number
    }

    /// Whether processor `p` owns an element and sends it. It then sends each element that it owns, and else none.
    pub fn sends(&self, p: u32) -> bool
        requires { p < product self.now.procs }
        ensures { result ≡ sends self.now p }
    {
        let _ = &self.bounds;
        let mut rest = p;
        for (e, size) in self.procs.as_slice().iter().enumerate() {
            if !self.leads(e as u32, rest % size) {
                return false;
            }
            rest /= size;
        }
        true
    }

    /// Whether coordinate `c` in dimension `e` of the arrangement is that of the sender of some element.
    fn leads(&self, e: u32, c: u32) -> bool
        ensures { IsTrue result ↔ LeadsOf self.now.bounds c (find (λ d. divides e d.cut) self.now.dims) }
    {
        let _ = &self.bounds;
        for dim in self.dims.as_slice() {
            if dim.is_over(e) {
                return dim.leads(c, self.bounds.as_slice());
            }
        }
        false
    }

    /// The owners of the element, ascending.
    pub fn owners(&self, alloc: Global, index: &[i64]) -> Result<Procs, AllocError>
        requires { LiesIn self.now.bounds index.now }
        ensures { IfOk result (λ procs. procs ≡ owners self.now index.now) }
    {
        Procs::from_slice(alloc, self.owner_set(index).as_slice())
    }

    /// The owners of the element. No memory is taken.
    pub fn owner_set(&self, index: &[i64]) -> OwnerSet
        requires { LiesIn self.now.bounds index.now }
        ensures owners { result ≡ owners self.now index.now }
        ensures few { length result ≤ processor_limit }
    {
        OwnerSet::new(self.owner_bits(index))
    }

    /// The owners of the element, as the bits of a number.
    fn owner_bits(&self, index: &[i64]) -> u64
        requires { LiesIn self.now.bounds index.now }
        ensures owners { IsSetOf (λ p. owns self.now p index.now) (product self.now.procs) result }
        ensures few { product self.now.procs ≤ processor_limit }
    {
        let _ = &self.bounds;
        let mut set = 1;
        let mut stride = 1;
        for (e, size) in self.procs.as_slice().iter().enumerate() {
            set = self.repeated(e as u32, *size, set, stride, index);
            stride *= size;
        }
        set
    }

    /// A set of processors below a stride, repeated for each coordinate in dimension `e` of the arrangement that owns a
    /// position of the element.
    fn repeated(&self, e: u32, size: u32, set: u64, stride: u32, index: &[i64]) -> u64
        requires dimension { e < length self.now.procs }
        requires size { size ≡ slice_index self.now.procs e }
        requires index { LiesIn self.now.bounds index.now }
        requires some { 1 ≤ stride }
        requires few { stride * size ≤ processor_limit }
        requires below { set < 2 ^ stride }
        ensures { IsRepeated (holds self.now.dims index.now e) set stride size result }
    {
        let mut all = 0;
        for c in 0..size {
            if self.holds(e, c, index) {
                all |= set << (c * stride);
            }
        }
        all
    }

    /// The least coordinate in dimension `e` of the arrangement that owns a position of the element.
    fn least(&self, e: u32, index: &[i64]) -> u32
        requires dimension { e < length self.now.procs }
        requires index { LiesIn self.now.bounds index.now }
        ensures least { IsLeast (holds self.now.dims index.now e) result }
        ensures below { result < slice_index self.now.procs e }
    {
        let _ = &self.bounds;
        if let Some(common) = self.common[e as usize] {
            return common.least;
        }
        for dim in self.dims.as_slice() {
            if dim.is_over(e) {
                return dim.least(index);
            }
        }
        unreachable!()
    }

    /// Whether coordinate `c` in dimension `e` of the arrangement owns a position of the element.
    fn holds(&self, e: u32, c: u32, index: &[i64]) -> bool
        requires dimension { e < length self.now.procs }
        requires coordinate { c < slice_index self.now.procs e }
        requires index { LiesIn self.now.bounds index.now }
        ensures { result ≡ holds self.now.dims index.now e c }
    {
        let _ = &self.bounds;
        if let Some(common) = self.common[e as usize] {
            return common.has(c);
        }
        for dim in self.dims.as_slice() {
            if dim.is_over(e) {
                return dim.holds(c, index);
            }
        }
        false
    }
}

/// A dimension of a base with one position, 1, divided over one processor: all elements of an array lie there.
fn one_position(alloc: Global) -> Result<BaseDim, AllocError>
    ensures { IfOk result IsOnePosition }
{
    match Axis::new(alloc, 1, 1, 1, Format::Block(1)) {
        Ok(axis) => Ok(BaseDim {
            image: Image::Fixed(1),
            cut: Cut::Over { dim: 0, axis },
        }),
        Err(AxisRefusal::Memory(error)) => Err(error),
        Err(_) => unreachable!(),
    }
}
