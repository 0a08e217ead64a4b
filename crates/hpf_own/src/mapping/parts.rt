//! What a processor owns and holds.

ghost use Rattle.std.specs.Prelude.{◌≡◌, ◌<◌, length, filter, slice_index_or, All, IfOk};
ghost use Rattle.hpf_num.specs.Run.{LiesWithin};
ghost use Rattle.hpf_own.specs.Space.{product};
ghost use Rattle.hpf_own.specs.KeptLists.{no_run};
ghost use Rattle.hpf_own.specs.Held.{owned_part, held_part};
ghost use Rattle.hpf_own.specs.Side.{side, side_over};

use crate::held::Held;
use crate::mapping::Mapping;
use hpf_num::Runs;
use std::alloc::{AllocError, Global};

impl Mapping {
    /// The elements that processor `p` owns.
    pub fn owned(&self, alloc: Global, p: u32) -> Result<Held, AllocError>
        requires { p < product self.now.procs }
        ensures { IfOk result (λ part. part ≡ owned_part self.now p) }
    {
        let _ = &self.bounds;
        let mut sides = Vec::new(alloc);
        for d in 0..self.bounds.rank() {
            sides.push(self.side(alloc, p, d)?)?;
        }
        Held::of(alloc, sides)
    }

    /// The elements that processor `p` holds: those that it owns, and those in its shadow.
    pub fn held(&self, alloc: Global, p: u32) -> Result<Held, AllocError>
        requires { p < product self.now.procs }
        ensures { IfOk result (λ part. part ≡ held_part self.now p) }
    {
        let _ = &self.bounds;
        let owned = self.owned(alloc, p)?;
        let widths = self.shadow.as_slice();
        let mut sides = Vec::new(alloc);
        for (d, side) in owned.sides().iter().enumerate() {
            let width = widths[d];
            let bounds = self.bounds.at(d as u32);
            let wide = side.widen(alloc, u64::from(width.low), u64::from(width.high), bounds)?;
            sides.push(wide)?;
        }
        Held::of(alloc, sides)
    }

    /// The subscripts in dimension `d` of the array with which elements may lie at the coordinates of processor `p`.
    fn side(&self, alloc: Global, p: u32, d: u32) -> Result<Runs, AllocError>
        requires proc { p < product self.now.procs }
        requires dimension { d < length self.now.bounds }
        ensures { IfOk result (λ runs. runs ≡ side self.now p d) }
    {
        let _ = &self.bounds;
        let mut side = Runs::new(alloc);
        side.push(alloc, self.bounds.at(d))?;
        let mut rest = p;
        for (e, size) in self.procs.as_slice().iter().enumerate() {
            side = self.narrowed(alloc, side, d, e as u32, rest % size)?;
            rest /= size;
        }
        Ok(side)
    }

    /// Those with which an element may lie at coordinate `c` in dimension `e` of the arrangement.
    fn narrowed(
        &self,
        alloc: Global,
        side: Runs,
        d: u32,
        e: u32,
        c: u32,
    ) -> Result<Runs, AllocError>
        requires dimension { d < length self.now.bounds }
        requires within { All (LiesWithin (slice_index_or self.now.bounds d no_run)) side }
        ensures { IfOk result (λ runs. runs ≡ filter (λ x. side_over self.now.dims d x e c) side) }
    {
        let _ = &self.bounds;
        for dim in self.dims.as_slice() {
            if dim.is_over(e) {
                return dim.narrowed(alloc, side, d, c, self.bounds.as_slice());
            }
        }
        Ok(Runs::new(alloc))
    }
}
