//! The subscripts of one dimension of an array with which elements may lie at a coordinate.

ghost use Rattle.std.specs.Prelude.{◌≡◌, ◌<◌, [], length, filter, cond, slice_index_or, All, IfOk};
ghost use Rattle.hpf_num.specs.Run.{LiesWithin};
ghost use Rattle.hpf_own.specs.declared.image.Cut.TheVariants.{Over};
ghost use Rattle.hpf_own.specs.KeptLists.{no_run};
ghost use Rattle.hpf_own.specs.Mapping.{CanLead, CanLeadAt};
ghost use Rattle.hpf_own.specs.Side.{side_in};

use crate::image::{BaseDim, Cut, Image};
use hpf_dist::Axis;
use hpf_num::{Run, Runs};
use std::alloc::{AllocError, Global};

impl BaseDim {
    /// Those subscripts in dimension `d` of the array with which an element may lie at coordinate `c`.
    pub(crate) fn narrowed(
        &self,
        alloc: Global,
        side: Runs,
        d: u32,
        c: u32,
        bounds: &[Run],
    ) -> Result<Runs, AllocError>
        requires image { CanLeadAt self.now.image self.now.cut bounds.now }
        requires dimension { d < length bounds.now }
        requires within { All (LiesWithin (slice_index_or bounds.now d no_run)) side }
        ensures { IfOk result (λ runs. runs ≡ filter (λ x. side_in d x c self.now.image self.now.cut) side) }
    {
        match &self.cut {
            Cut::Whole => Ok(side),
            Cut::Over { axis, .. } => self.image.narrowed(alloc, axis, side, d, c, bounds),
        }
    }
}

impl Image {
    /// The same in a dimension that is divided.
    fn narrowed(
        &self,
        alloc: Global,
        axis: &Axis,
        side: Runs,
        d: u32,
        c: u32,
        bounds: &[Run],
    ) -> Result<Runs, AllocError>
        requires image { CanLead self.now axis.now bounds.now }
        requires dimension { d < length bounds.now }
        requires within { All (LiesWithin (slice_index_or bounds.now d no_run)) side }
        ensures { IfOk result (λ runs. runs ≡ filter (λ x. side_in d x c self.now (Over 0 axis.now)) side) }
    {
        match *self {
            Image::Along { dim, a, b } => {
                if dim == d {
                    side.meet(alloc, &axis.runs_of(alloc, c, a, b, bounds[d as usize])?)
                } else {
                    Ok(side)
                }
            }
            Image::Fixed(n) => Ok(kept(alloc, side, axis.owner(n) == c)),
            Image::Spread { first, step, count } => {
                Ok(kept(alloc, side, axis.owns_any(c, first, step, count)))
            }
        }
    }
}

/// All of them or none.
fn kept(alloc: Global, side: Runs, passes: bool) -> Runs
    ensures { result ≡ cond passes side [] }
{
    if passes { side } else { Runs::new(alloc) }
}
