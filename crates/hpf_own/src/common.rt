//! The coordinates at which all elements of an array lie, where these don't depend on the element.

ghost use Rattle.std.specs.Prelude.{◌≡◌, ◌==◌, ◌<◌, ◌≤◌, List, [], find, All, ℤ, IfSome};
ghost use Rattle.std.specs.Int.{bit_at};
ghost use Rattle.hpf_dist.specs.Limits.{processor_limit};
ghost use Rattle.hpf_own.specs.Image.{positions};
ghost use Rattle.hpf_own.specs.Mapping.{HasPositions, divides};
ghost use Rattle.hpf_own.specs.Owners.{holds_at};
ghost use Rattle.hpf_own.specs.OwnerSet.{IsRepeated};
ghost use Rattle.hpf_own.specs.Common.{MayBeSteady, AreCommonAt, AreCommonOf};

use crate::image::BaseDim;

/// The coordinates that own each element of an array, as the bits of a number, and the least of them.
#[derive(Clone, Copy)]
pub(crate) struct Common {
    pub(crate) set: u64,
    pub(crate) least: u32,
}

impl Common {
    /// Whether coordinate `c` is one of those.
    pub(crate) fn has(self, c: u32) -> bool
        requires { c < processor_limit }
        ensures { result ≡ (bit_at self.set c == 1) }
    {
        (self.set >> c) % 2 == 1
    }
}

impl BaseDim {
    /// The coordinates that own each element, or none where they depend on the element.
    fn common(&self) -> Option<Common>
        requires { MayBeSteady self.now }
        ensures { IfSome result (λ kept. (index : List ℤ) → AreCommonAt (positions self.now.image index) self.now.cut kept) }
    {
        if !self.image.is_steady() {
            return None;
        }
        let procs = self.procs()?;
        let set = self.set_below(procs);
        let least = self.least(&[]);
        Some(Common { set, least })
    }

    /// The coordinates below so many that own each element, as the bits of a number.
    fn set_below(&self, procs: u32) -> u64
        requires positions { HasPositions self.now [] }
        requires few { procs ≤ processor_limit }
        ensures { IsRepeated (holds_at self.now.cut (positions self.now.image [])) 1 1 procs result }
    {
        let mut set = 0;
        for c in 0..procs {
            if self.holds(c, &[]) {
                set |= 1 << c;
            }
        }
        set
    }
}

/// The coordinates in dimension `e` of an arrangement that own each element, or none where they depend on the element.
pub(crate) fn common_over(dims: &[BaseDim], e: u32) -> Option<Common>
    requires { All MayBeSteady dims.now }
    ensures { IfSome result (λ kept. (index : List ℤ) → AreCommonOf index (find (λ d. divides e d.cut) dims.now) kept) }
{
    for dim in dims {
        if dim.is_over(e) {
            return dim.common();
        }
    }
    None
}
