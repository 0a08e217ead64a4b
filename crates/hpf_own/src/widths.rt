//! The widths of a shadow.

ghost use Rattle.std.specs.Prelude.{◌≡◌, ◌≤◌, ◌↔◌, IsSome, IfSome, replicate};
ghost use Rattle.hpf_own.specs.Lists.{IsShort};
ghost use Rattle.hpf_own.specs.Limits.{dimension_limit};

use crate::limits::DIMENSIONS;
use std::marker::Model;

/// The widths of a shadow along one dimension, in elements: how many are held below an element that is owned, and how
/// many above it.
#[derive(Clone, Copy, Debug, PartialEq, Eq)]
pub struct Width {
    pub low: u32,
    pub high: u32,
}

/// The widths of a shadow. It is seen as the list of them, at least one and at most seven.
#[derive(Clone, Copy, PartialEq, Eq)]
pub struct Widths {
    widths: [Width; DIMENSIONS],
    rank: u8,
}

impl Model for Widths {
    ghost use Rattle.std.specs.Prelude.{List};
    ghost use Rattle.hpf_own.specs.declared.widths.Width.{Width};

    ghost Value = { List Width };

    ghost use Rattle.hpf_own.specs.KeptLists.{widths_of, AreKeptWidths, kept_widths, kept_widths-widths_of};

    ghost view = { widths_of };

    ghost invariant = { AreKeptWidths };

    ghost inverse = { kept_widths };

    ghost inverse_ok = { kept_widths-widths_of };
}

impl Widths {
    ghost use Rattle.hpf_own.specs.KeptLists.{no_width};

    /// These widths, the first dimension first. None where there are none or more than seven.
    pub fn new(widths: &[Width]) -> Option<Widths>
        ensures some { IsSome result ↔ IsShort widths.now }
        ensures same { IfSome result (λ kept. kept ≡ widths.now) }
    {
        if widths.is_empty() || widths.len() > DIMENSIONS {
            return None;
        }
        let mut kept = [Width { low: 0, high: 0 }; DIMENSIONS];
        for (d, width) in widths.iter().enumerate() {
            kept[d] = *width;
        }
        Some(Widths {
            widths: kept,
            rank: widths.len() as u8,
        })
    }

    /// No shadow, for an array of so many dimensions.
    pub(crate) fn none(rank: u32) -> Widths
        requires least { 1 ≤ rank }
        requires greatest { rank ≤ dimension_limit }
        ensures { result ≡ replicate rank no_width }
    {
        Widths {
            widths: [Width { low: 0, high: 0 }; DIMENSIONS],
            rank: rank as u8,
        }
    }

    /// The widths, the first dimension first.
    pub fn as_slice(&self) -> &[Width]
        ensures same { result.now ≡ self.now }
        ensures short { IsShort self.now }
    {
        let rank = usize::from(self.rank);
        &self.widths[..rank]
    }
}
