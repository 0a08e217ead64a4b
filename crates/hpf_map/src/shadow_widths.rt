//! The widths that a SHADOW gives.

ghost use Rattle.std.specs.Prelude.{◌≡◌, List, map, option_map, option_and_then, IfOk, OnOk};
ghost use Rattle.std.specs.List.{flat_map};
ghost use Rattle.hpf_syntax.specs.Plain.{tree, width_tree};
ghost use Rattle.hpf_map.specs.Found.{least_with};
ghost use Rattle.hpf_map.specs.Gathered.{all_of};
ghost use Rattle.hpf_map.specs.ShadowWidths.{not_negative, is_negative, both_widths, one_width, high_width, width_of, one_width_breaches, maybe_width_breaches, width_breaches};

use crate::breaches::Breaches;
use crate::constraint::Constraint;
use crate::expressions::{expression, place_of};
use crate::gathered::Gathered;
use crate::scope::Scope;
use hpf_own::Width;
use hpf_syntax::{Expr, WidthItem};
use std::alloc::{AllocError, Global};
use std::marker::Model;

/// The widths that a SHADOW gives, dimension by dimension. It is seen as the list of them.
#[derive(Drop)]
pub(crate) struct ShadowWidths {
    widths: Vec<Width>,
}

impl Model for ShadowWidths {
    ghost use Rattle.std.specs.Prelude.{List};
    ghost use Rattle.hpf_own.specs.declared.widths.Width.{Width};

    ghost Value = { List Width };

    ghost view = { λ s. s.widths.items };
}

impl ShadowWidths {
    /// The widths, in order.
    pub(crate) fn as_slice(&self) -> &[Width]
        ensures { result.now ≡ self.now }
    {
        self.widths.as_slice()
    }
}

/// Whether a value is there and negative.
fn is_negative(value: Option<i32>) -> bool
    ensures { result ≡ is_negative value }
{
    match value {
        Some(value) => value < 0,
        None => false,
    }
}

/// A width in elements, where the value is there and isn't negative.
fn not_negative(value: Option<i32>) -> Option<u32>
    ensures { result ≡ option_and_then not_negative value }
{
    match value {
        Some(value) if value >= 0 => Some(value.unsigned_abs()),
        _ => None,
    }
}

/// What one expression gives, where it is free, and the breaches in it.
#[tactic(auto, using(crate::proofs::FoundLemmas::least_with_laws), unfolding(crate::specs::ShadowWidths::one_width_breaches))]
fn one_width(scope: &Scope, e: &Expr, breaches: &mut Breaches) -> Option<u32>
    ensures width { result ≡ one_width scope.now (tree e.now) }
    ensures breaches { breaches.new ≡ least_with breaches.old
        (one_width_breaches scope.now (tree e.now)) }
{
    let value = expression(scope, e, breaches);
    breaches.note_if(is_negative(value), Constraint::Shadow, place_of(e));
    not_negative(value)
}

/// Both widths of a dimension, where both are there.
fn both_widths(low: Option<u32>, high: Option<u32>) -> Option<Width>
    ensures { result ≡ both_widths low high }
{
    match (low, high) {
        (Some(low), Some(high)) => Some(Width { low, high }),
        _ => None,
    }
}

/// The upper width along a dimension, where it is free, and the breaches in it. One that isn't written is the lower one.
#[tactic(auto, using(crate::proofs::FoundLemmas::least_with_laws))]
fn high_width(
    scope: &Scope,
    low: Option<u32>,
    high: &Option<Expr>,
    breaches: &mut Breaches,
) -> Option<u32>
    ensures width { result ≡ high_width scope.now low (option_map tree high.now) }
    ensures breaches { breaches.new ≡ least_with breaches.old
        (maybe_width_breaches scope.now (option_map tree high.now)) }
{
    match high {
        Some(high) => one_width(scope, high, breaches),
        None => low,
    }
}

/// The widths along a dimension, where both are free, and the breaches in them.
#[tactic(auto, using(crate::proofs::FoundLemmas::least_with_laws), unfolding(crate::specs::ShadowWidths::width_of, crate::specs::ShadowWidths::width_breaches))]
fn width(scope: &Scope, item: &WidthItem, breaches: &mut Breaches) -> Option<Width>
    ensures width { result ≡ width_of scope.now (width_tree item.now) }
    ensures breaches { breaches.new ≡ least_with breaches.old
        (width_breaches scope.now (width_tree item.now)) }
{
    let low = one_width(scope, &item.low, breaches);
    let high = high_width(scope, low, &item.high, breaches);
    both_widths(low, high)
}

/// The widths that a SHADOW gives along all dimensions, where each is free, and the breaches in them.
#[tactic(auto, using(crate::proofs::FoundLemmas::least_with_laws))]
pub(crate) fn read_shadow(
    alloc: Global,
    scope: &Scope,
    list: &[WidthItem],
    breaches: &mut Breaches,
) -> Result<Option<ShadowWidths>, AllocError>
    ensures widths { IfOk result (λ ws. ws ≡ all_of (map (width_of scope.now) (map width_tree list.now))) }
    ensures breaches { OnOk result (breaches.new ≡ least_with breaches.old
        (flat_map (width_breaches scope.now) (map width_tree list.now))) }
{
    let mut widths = Gathered::new(alloc);
    for item in list {
        widths.add(width(scope, item, breaches))?;
    }
    match widths.finish() {
        Some(widths) => Ok(Some(ShadowWidths { widths })),
        None => Ok(None),
    }
}
