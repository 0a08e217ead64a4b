//! One divided dimension.

ghost use Rattle.std.specs.Prelude.{◌≡◌, ◌==◌, ◌<◌, ◌≤◌, ◌≤ℤ◌, ◌↔◌, All, IsOk, IfOk, IsTrue};
ghost use Rattle.std.specs.List.{list_any};
ghost use Rattle.hpf_dist.specs.Owner.{own, ceiling};
ghost use Rattle.hpf_dist.specs.Spread.{IsPosition, HasOwners, owner_at, spread};
ghost use Rattle.hpf_dist.specs.Condition.{HasSmallNumbers, Suits, Breaks};
ghost use Rattle.hpf_dist.specs.Around.{IsAround};
ghost use Rattle.hpf_dist.specs.Axis.{AreBounds, AreProcs, IsAxis, extent, before};
ghost use Rattle.hpf_dist.specs.declared.refusal.AxisRefusal.{AxisRefusal};

use crate::around::{Around, in_block};
use crate::condition::refusal_of;
use crate::format::Format;
use crate::refusal::AxisRefusal;
use hpf_num::Run;
use std::alloc::Global;
use std::marker::Model;

/// A dimension of an index space that is divided over the processors of one processor dimension.
/// Its positions are the whole numbers from its lower to its upper bound.
#[derive(Drop)]
pub struct Axis {
    low: i64,
    high: i64,
    procs: u32,
    format: Format,
}

impl Model for Axis {
    ghost use Rattle.hpf_dist.specs.Axis.{Divided, IsAxis};

    ghost Value = { Divided };

    ghost view = { λ a. record { low = a.low; high = a.high; procs = a.procs; format = a.format } };

    ghost invariant = { λ a. IsAxis (record { low = a.low; high = a.high; procs = a.procs; format = a.format }) };
}

impl Axis {
    /// Divides the positions from `low` to `high` over so many processors.
    ///
    /// `WidthZero` comes where a block of `Block` or `Cyclic` has no position, and `BlockTooSmall` where those of `Block`
    /// have some, but all together fewer than the dimension. `LengthCount` comes where there isn't one length for each
    /// processor, and `LengthSum` where there is, but they come to less than the dimension. `PlaceCount` comes where there
    /// isn't one place for each position, and `PlaceValue` where there is, but one isn't below `procs`. Nothing else is
    /// refused, and no memory is taken. A format that is refused is dropped.
    pub fn new(
        _alloc: Global,
        low: i64,
        high: i64,
        procs: u32,
        format: Format,
    ) -> Result<Axis, AxisRefusal>
        requires bounds { AreBounds low high }
        requires procs { AreProcs procs }
        requires widths { HasSmallNumbers format }
        ensures suits { IsOk result ↔ Suits (extent low high) procs format }
        ensures axis { IfOk result (λ axis. axis
            ≡ record { low = low; high = high; procs = procs; format = format }) }
        ensures refused { (refusal : AxisRefusal)
            → (result ≡ Err refusal) ↔ Breaks (extent low high) procs format refusal }
    {
        let positions = Run { low, high }.extent();
        match refusal_of(positions, procs, &format) {
            Some(refusal) => Err(refusal),
            None => Ok(Axis {
                low,
                high,
                procs,
                format,
            }),
        }
    }

    /// Over how many processors the dimension is divided. One of them owns each position.
    pub fn procs(&self) -> u32
        ensures procs { result ≡ self.now.procs }
        ensures axis { IsAxis self.now }
        ensures owners { HasOwners self.now }
    {
        self.procs
    }

    /// The coordinate, from 0, of the processor that owns the position `t`.
    pub fn owner(&self, t: i64) -> u32
        requires low { self.now.low ≤ℤ t }
        requires high { t ≤ℤ self.now.high }
        ensures owner { result ≡ own self.now.format self.now.procs (before self.now.low t) }
        ensures below { result < self.now.procs }
    {
        let before = self.positions_before(t);
        match &self.format {
            Format::Block(width) => (before / *width) as u32,
            Format::Cyclic(width) => (before / *width % u64::from(self.procs)) as u32,
            Format::GenBlock(lengths) => lengths.block_of(before),
            Format::Indirect(places) => places.as_slice()[before as usize],
        }
    }

    /// Whether `t` is a position of the dimension.
    pub(crate) fn has(&self, t: i64) -> bool
        ensures { IsTrue result ↔ IsPosition self.now t }
    {
        self.low <= t && t <= self.high
    }

    /// How many positions of the dimension lie before `t`.
    pub(crate) fn positions_before(&self, t: i64) -> u64
        requires low { self.now.low ≤ℤ t }
        requires high { t ≤ℤ self.now.high }
        ensures before { result ≡ before self.now.low t }
        ensures within { result < extent self.now.low self.now.high }
    {
        (t - self.low) as u64
    }

    /// The positions around the one with so many before it.
    pub(crate) fn around(&self, before: u64) -> Around
        requires { before < extent self.now.low self.now.high }
        ensures { IsAround self.now.format self.now.procs before result }
    {
        match &self.format {
            Format::Block(width) => in_block(before, *width),
            Format::Cyclic(width) => in_block(before, *width),
            Format::GenBlock(lengths) => lengths.around(before),
            Format::Indirect(_) => Around { below: 0, above: 0 },
        }
    }

    /// Whether the processor of coordinate `c` owns one of the positions `first`, `first + step`, `first + 2 * step` and
    /// so on, `count` of them.
    pub fn owns_any(&self, c: u32, first: i64, step: i64, count: u64) -> bool
        requires positions { All (IsPosition self.now) (spread first step count) }
        ensures { result ≡ list_any (λ t. owner_at self.now t == c) (spread first step count) }
    {
        // (a step of 0 stays at the first one)
        let tries = if step == 0 { count.min(1) } else { count };
        self.owns_one_of(c, first, step, tries)
    }

    /// The same, by trying one of each block.
    fn owns_one_of(&self, c: u32, first: i64, step: i64, count: u64) -> bool
        requires positions { All (IsPosition self.now) (spread first step count) }
        ensures { result ≡ list_any (λ t. owner_at self.now t == c) (spread first step count) }
    {
        // (positions lie between the axis's bounds, so no sum of them is too great)
        let _ = &self.low;
        let mut t = first;
        let mut k = 0;
        while k < count {
            if self.owner(t) == c {
                return true;
            }
            let alike = self.alike(t, step);
            if count - k <= alike {
                return false;
            }
            k += alike;
            t += alike as i64 * step;
        }
        false
    }
}

/// The width of the blocks, in positions, by which so many positions are divided evenly over so many processors:
/// their quotient, rounded up.
pub fn even_width(extent: u64, procs: u32) -> u64
    requires { 1 ≤ procs }
    ensures width { result ≡ ceiling extent procs }
    ensures small { result ≤ extent }
    ensures suits { 1 ≤ extent → Suits extent procs (Format.Block result) }
{
    extent.div_ceil(u64::from(procs))
}
