//! One dimension of a base.

ghost use Rattle.std.specs.Prelude.{◌≡◌, ◌==◌, ◌<◌, ◌≤◌, ◌-◌, ◌^◌, length, All, unsigned_abs, pos, neg_ℤ, ◌≤ℤ◌, ◌+◌, ◌↔◌, IsTrue, IfSome};
ghost use Rattle.std.specs.List.{list_any};
ghost use Rattle.hpf_dist.specs.Spread.{IsPosition, owner_at, spread};
ghost use Rattle.hpf_own.specs.Image.{positions};
ghost use Rattle.hpf_own.specs.Mapping.{FollowsBelow, HasSmallCoefficients, HasSome, HasOwners, divides, HasPositions, CanLead, CanLeadAt};
ghost use Rattle.hpf_own.specs.Owners.{holds_at, IsLeast, IsCoordinate, Leads, LeadsAt};
ghost use Rattle.hpf_num.specs.Limits.{integer_limit};
ghost use Rattle.hpf_own.specs.Common.{is_steady, procs_of};
ghost use Rattle.hpf_dist.specs.Limits.{processor_limit};

use hpf_dist::Axis;
use hpf_num::Run;

/// The positions of an element in one dimension of its base.
#[derive(Clone, Copy, Debug, PartialEq, Eq)]
pub enum Image {
    /// `a` times the element's subscript in dimension `dim` of the array, plus `b`.
    Along { dim: u32, a: i64, b: i64 },
    /// This position, whatever the element.
    Fixed(i64),
    /// The positions `first`, `first + step` and so on, `count` of them, whatever the element.
    Spread { first: i64, step: i64, count: u64 },
}

impl Image {
    /// Whether all elements have the same positions.
    pub(crate) fn is_steady(&self) -> bool
        ensures { result ≡ is_steady self.now }
    {
        match self {
            Image::Along { .. } => false,
            Image::Fixed(_) | Image::Spread { .. } => true,
        }
    }

    /// Whether coordinate `c` of a divided dimension owns a position of the element.
    fn is_at(&self, axis: &Axis, c: u32, index: &[i64]) -> bool
        requires followed { FollowsBelow (length index.now) self.now }
        requires coefficients { HasSmallCoefficients self.now }
        requires subscripts { All (λ i. unsigned_abs i ≤ integer_limit) index.now }
        requires within { All (IsPosition axis.now) (positions self.now index.now) }
        ensures { result ≡ list_any (λ u. owner_at axis.now u == c) (positions self.now index.now) }
    {
        match *self {
            Image::Along { dim, a, b } => axis.owner(a * index[dim as usize] + b) == c,
            Image::Fixed(n) => axis.owner(n) == c,
            Image::Spread { first, step, count } => axis.owns_any(c, first, step, count),
        }
    }

    /// The least coordinate of a divided dimension that owns a position of the element.
    fn least(&self, axis: &Axis, index: &[i64]) -> u32
        requires followed { FollowsBelow (length index.now) self.now }
        requires coefficients { HasSmallCoefficients self.now }
        requires subscripts { All (λ i. unsigned_abs i ≤ integer_limit) index.now }
        requires within { All (IsPosition axis.now) (positions self.now index.now) }
        requires some { HasSome self.now }
        ensures least { IsLeast (λ c. list_any (λ u. owner_at axis.now u == c) (positions self.now index.now)) result }
        ensures below { result < axis.now.procs }
    {
        match *self {
            Image::Along { dim, a, b } => axis.owner(a * index[dim as usize] + b),
            Image::Fixed(n) => axis.owner(n),
            Image::Spread { first, step, count } => least_of(axis, first, step, count),
        }
    }

    /// Whether coordinate `c` of a divided dimension is that of the sender of some element of an array with these bounds.
    fn leads(&self, axis: &Axis, c: u32, bounds: &[Run]) -> bool
        requires { CanLead self.now axis.now bounds.now }
        ensures { IsTrue result ↔ Leads self.now axis.now bounds.now c }
    {
        match *self {
            Image::Along { dim, a, b } => {
                let run = bounds[dim as usize];
                axis.owns_any(c, a * run.low + b, a, run.extent())
            }
            Image::Fixed(n) => axis.owner(n) == c,
            Image::Spread { first, step, count } => least_of(axis, first, step, count) == c,
        }
    }
}

/// The least coordinate that owns one of these positions.
fn least_of(axis: &Axis, first: i64, step: i64, count: u64) -> u32
    requires some { 1 ≤ count }
    requires positions { All (IsPosition axis.now) (spread first step count) }
    ensures least { IsLeast (λ c. list_any (λ u. owner_at axis.now u == c) (spread first step count)) result }
    ensures below { result < axis.now.procs }
{
    // (the owner of the first one is such a coordinate)
    let last = axis.owner(first);
    for c in 0..last {
        if axis.owns_any(c, first, step, count) {
            return c;
        }
    }
    last
}

/// Whether and how a dimension of a base is divided.
#[derive(Drop)]
pub enum Cut {
    /// Not divided: each processor has all of it.
    Whole,
    /// Divided over dimension `dim` of the arrangement.
    Over { dim: u32, axis: Axis },
}

/// One dimension of a base: where elements lie in it, and how it is divided.
#[derive(Drop)]
pub struct BaseDim {
    pub image: Image,
    pub cut: Cut,
}

impl BaseDim {
    /// Over how many processors it is divided, if it is.
    pub(crate) fn procs(&self) -> Option<u32>
        ensures procs { result ≡ procs_of self.now.cut }
        ensures few { IfSome result (λ procs. procs ≤ processor_limit) }
        ensures owners { HasOwners self.now.cut }
    {
        match &self.cut {
            Cut::Whole => None,
            Cut::Over { axis, .. } => Some(axis.procs()),
        }
    }

    /// Whether it is divided over dimension `dim` of the arrangement.
    pub(crate) fn is_over(&self, dim: u32) -> bool
        ensures { result ≡ divides dim self.now.cut }
    {
        match &self.cut {
            Cut::Whole => false,
            Cut::Over { dim: over, .. } => *over == dim,
        }
    }

    /// Whether coordinate `c` owns a position of the element, if this dimension is divided.
    pub(crate) fn holds(&self, c: u32, index: &[i64]) -> bool
        requires { HasPositions self.now index.now }
        ensures { result ≡ holds_at self.now.cut (positions self.now.image index.now) c }
    {
        match &self.cut {
            Cut::Whole => true,
            Cut::Over { axis, .. } => self.image.is_at(axis, c, index),
        }
    }

    /// The least coordinate that owns a position of the element, or 0 where this dimension isn't divided.
    pub(crate) fn least(&self, index: &[i64]) -> u32
        requires positions { HasPositions self.now index.now }
        requires some { HasSome self.now.image }
        ensures least { IsLeast (holds_at self.now.cut (positions self.now.image index.now)) result }
        ensures below { IsCoordinate self.now.cut result }
    {
        match &self.cut {
            Cut::Whole => 0,
            Cut::Over { axis, .. } => self.image.least(axis, index),
        }
    }

    /// Whether coordinate `c` is that of the sender of some element of an array with these bounds.
    pub(crate) fn leads(&self, c: u32, bounds: &[Run]) -> bool
        requires { CanLeadAt self.now.image self.now.cut bounds.now }
        ensures { IsTrue result ↔ LeadsAt self.now.image self.now.cut bounds.now c }
    {
        match &self.cut {
            Cut::Whole => true,
            Cut::Over { axis, .. } => self.image.leads(axis, c, bounds),
        }
    }
}
