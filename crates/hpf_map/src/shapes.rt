//! Bounds and shapes.

ghost use Rattle.std.specs.Prelude.{◌≡◌, ◌-◌, ◌^◌, min, ℕ, List, map, option_map, option_and_then, drop, nat_lt, IfOk, OnOk};
ghost use Rattle.std.specs.List.{flat_map};
ghost use Rattle.hpf_syntax.specs.Plain.{tree, bound_tree};
ghost use Rattle.hpf_map.specs.Found.{least_with};
ghost use Rattle.hpf_map.specs.Gathered.{all_of};
ghost use Rattle.hpf_map.specs.Values.{maybe_expression_breaches};
ghost use Rattle.hpf_map.specs.Shapes.{extent, elements, extent_limit, max_bounds, is_too_large, is_oversized, bound_place, order_breaches, span_within, both, found_order, low_value, span, bound_breaches, first_of_more, shape, shape_breaches};

use crate::breaches::Breaches;
use crate::constraint::Constraint;
use crate::expressions::{expression, place_of};
use crate::gathered::Gathered;
use crate::name::{Shape, Space, Span};
use crate::scope::Scope;
use hpf_syntax::{At, Bound};
use std::alloc::{AllocError, Global};

/// The greatest extent of what is no array.
pub(crate) const MAX_EXTENT: u64 = 2147483647;

/// The greatest extent of an array, and how many elements it may have.
const MAX_ARRAY: u64 = 16777216;

/// How many processors an arrangement may have.
const MAX_PROCESSORS: u64 = 64;

/// How many bounds a shape may have.
const MAX_BOUNDS: usize = 7;

/// How many integers lie between two bounds that are in order.
pub(crate) fn extent(span: &Span) -> u64
    ensures { result ≡ extent span.now }
{
    let width = i64::from(span.high) - i64::from(span.low);
    width.unsigned_abs() + 1
}

/// How many elements a shape has, or the greatest number of 64 bits where there are more.
pub(crate) fn elements(spans: &[Span]) -> u64
    ensures { result ≡ min (elements spans.now) (2 ^ 64 - 1) }
{
    let mut elements: u64 = 1;
    for span in spans {
        elements = elements.saturating_mul(extent(span));
    }
    elements
}

impl Space {
    /// The greatest extent of a dimension.
    pub(crate) fn extent_limit(self) -> u64
        ensures { result ≡ extent_limit self }
    {
        match self {
            Space::Array => MAX_ARRAY,
            Space::Template | Space::Arrangement => MAX_EXTENT,
        }
    }

    /// Whether a shape has more elements than this may have.
    fn is_too_large(self, spans: &[Span]) -> bool
        ensures { result ≡ is_too_large self spans.now }
    {
        match self {
            Space::Array => MAX_ARRAY < elements(spans),
            Space::Template => false,
            Space::Arrangement => MAX_PROCESSORS < elements(spans),
        }
    }

    /// The same of a shape that may not be free.
    pub(crate) fn is_oversized(self, shape: &Option<Shape>) -> bool
        ensures { result ≡ is_oversized self shape.now }
    {
        match shape {
            Some(shape) => self.is_too_large(shape.as_slice()),
            None => false,
        }
    }
}

/// The place of a bound: that of its first expression.
fn place_of_bound(bound: &Bound) -> At
    ensures { result ≡ bound_place (option_map tree bound.now.low) (tree bound.now.high) }
{
    match &bound.low {
        Some(low) => place_of(low),
        None => place_of(&bound.high),
    }
}

/// The lower bound, which is 1 where none is written.
#[tactic(auto, using(crate::proofs::FoundLemmas::least_with_laws))]
fn low_value(scope: &Scope, bound: &Bound, breaches: &mut Breaches) -> Option<i32>
    ensures value { result ≡ low_value scope.now (option_map tree bound.now.low) }
    ensures breaches { breaches.new ≡ least_with breaches.old
        (maybe_expression_breaches scope.now (option_map tree bound.now.low)) }
{
    match &bound.low {
        Some(low) => expression(scope, low, breaches),
        None => Some(1),
    }
}

/// Bounds with these values, where they are in order and their extent is within the limit.
#[tactic(auto, using(crate::proofs::FoundLemmas::least_with_laws))]
fn within(limit: u64, at: At, span: Span, breaches: &mut Breaches) -> Option<Span>
    ensures span { result ≡ span_within limit span }
    ensures breaches { breaches.new ≡ least_with breaches.old (order_breaches limit at span) }
{
    if span.high < span.low {
        breaches.note(Constraint::Empty, at);
        return None;
    }
    if limit < extent(&span) {
        breaches.note(Constraint::Limit, at);
        return None;
    }
    Some(span)
}

/// Bounds with these values, where both are there.
#[tactic(auto, using(crate::proofs::FoundLemmas::least_with_laws))]
fn bounded(
    limit: u64,
    at: At,
    low: Option<i32>,
    high: Option<i32>,
    breaches: &mut Breaches,
) -> Option<Span>
    ensures span { result ≡ option_and_then (span_within limit) (both low high) }
    ensures breaches { breaches.new ≡ least_with breaches.old
        (found_order limit at (both low high)) }
{
    match (low, high) {
        (Some(low), Some(high)) => within(limit, at, Span { low, high }, breaches),
        _ => None,
    }
}

/// The bounds of one dimension, where they are free, and the breaches in them.
#[tactic(auto, using(crate::proofs::FoundLemmas::least_with_laws), unfolding(crate::specs::Shapes::span, crate::specs::Shapes::bound_breaches))]
fn span(scope: &Scope, limit: u64, bound: &Bound, breaches: &mut Breaches) -> Option<Span>
    ensures span { result ≡ span scope.now limit (bound_tree bound.now) }
    ensures breaches { breaches.new ≡ least_with breaches.old
        (bound_breaches scope.now limit (bound_tree bound.now)) }
{
    let low = low_value(scope, bound, breaches);
    let high = expression(scope, &bound.high, breaches);
    bounded(limit, place_of_bound(bound), low, high, breaches)
}

/// The bounds of all dimensions, where all are free, and the breaches in them.
#[tactic(auto, using(crate::proofs::FoundLemmas::least_with_laws))]
fn spans(
    alloc: Global,
    scope: &Scope,
    limit: u64,
    bounds: &[Bound],
    breaches: &mut Breaches,
) -> Result<Option<Vec<Span>>, AllocError>
    ensures spans { IfOk result (λ spans.
        option_map (λ v. v.items) spans ≡ all_of (map (span scope.now limit) (map bound_tree bounds.now))) }
    ensures breaches { OnOk result (breaches.new ≡ least_with breaches.old
        (flat_map (bound_breaches scope.now limit) (map bound_tree bounds.now))) }
{
    let mut spans = Gathered::new(alloc);
    for bound in bounds {
        spans.add(span(scope, limit, bound, breaches))?;
    }
    Ok(spans.finish())
}

/// The first bound that is too many.
fn test_count(bounds: &[Bound], breaches: &mut Breaches)
    ensures { breaches.new ≡ least_with breaches.old
        (first_of_more (drop max_bounds (map bound_tree bounds.now))) }
{
    if bounds.len() > MAX_BOUNDS {
        breaches.note(Constraint::Limit, place_of_bound(&bounds[MAX_BOUNDS]));
    }
}

/// The shape that bounds give, where they are free and at most seven, and the breaches in them.
#[tactic(auto, using(crate::proofs::FoundLemmas::least_with_laws), unfolding(crate::specs::Shapes::shape, crate::specs::Shapes::shape_breaches))]
pub(crate) fn shape(
    alloc: Global,
    scope: &Scope,
    limit: u64,
    bounds: &[Bound],
    breaches: &mut Breaches,
) -> Result<Option<Shape>, AllocError>
    ensures shape { IfOk result (λ s. s ≡ shape scope.now limit (map bound_tree bounds.now)) }
    ensures breaches { OnOk result (breaches.new ≡ least_with breaches.old
        (shape_breaches scope.now limit (map bound_tree bounds.now))) }
{
    let spans = spans(alloc, scope, limit, bounds, breaches)?;
    test_count(bounds, breaches);
    if bounds.len() > MAX_BOUNDS {
        return Ok(None);
    }
    match spans {
        Some(spans) => Ok(Some(Shape::new(spans))),
        None => Ok(None),
    }
}
