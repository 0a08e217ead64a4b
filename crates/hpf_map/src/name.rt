//! What is known of a name.

ghost use Rattle.std.specs.Prelude.{◌≡◌, IfOk};

use hpf_lex::Word;
use std::alloc::{AllocError, Global};
use std::marker::Model;

/// The bounds of one dimension. Each is at most 2^31-1 from 0.
#[derive(Clone, Copy)]
pub struct Span {
    pub low: i32,
    pub high: i32,
}

/// The bounds of a shape, dimension by dimension. It is seen as the list of them.
#[derive(Drop)]
pub struct Shape {
    spans: Vec<Span>,
}

impl Model for Shape {
    ghost use Rattle.std.specs.Prelude.{List};
    ghost use Rattle.hpf_map.specs.declared.name.Span.{Span};

    ghost Value = { List Span };

    ghost view = { λ s. s.spans.items };
}

impl Shape {
    /// The shape of these bounds.
    pub(crate) fn new(spans: Vec<Span>) -> Shape
        ensures { result ≡ spans.items }
    {
        Shape { spans }
    }

    /// The same shape once more.
    pub(crate) fn copy(&self, alloc: Global) -> Result<Shape, AllocError>
        ensures { IfOk result (λ shape. shape ≡ self.now) }
    {
        Ok(Shape {
            spans: Vec::from_slice(alloc, self.spans.as_slice())?,
        })
    }

    /// The bounds, in order.
    pub fn as_slice(&self) -> &[Span]
        ensures { result.now ≡ self.now }
    {
        self.spans.as_slice()
    }
}

/// The values of a named constant with a shape. It is seen as the list of them.
#[derive(Drop)]
pub struct Values {
    values: Vec<i32>,
    /// The least and the greatest of them, if there are any.
    range: Option<Span>,
}

impl Model for Values {
    ghost use Rattle.std.specs.Prelude.{List, ℤ};

    ghost Value = { List ℤ };

    ghost use Rattle.hpf_map.specs.Ranges.{HasRange};

    ghost view = { λ v. v.values.items };

    ghost invariant = { λ v. HasRange v.values.items v.range };
}

impl Values {
    ghost use Rattle.std.specs.Prelude.{int_lt};
    ghost use Rattle.std.specs.List.{list_any};

    /// These values.
    pub(crate) fn new(values: Vec<i32>) -> Values
        ensures { result ≡ values.items }
    {
        let range = range_of(values.as_slice());
        Values { values, range }
    }

    /// The values, in order.
    pub fn as_slice(&self) -> &[i32]
        ensures { result.now ≡ self.now }
    {
        self.values.as_slice()
    }

    /// Whether some value is below this, without a look at each of them.
    pub(crate) fn begins_below(&self, bound: i32) -> bool
        ensures { result ≡ list_any (λ v. int_lt v bound) self.now }
    {
        match &self.range {
            Some(range) => is_low_below(range, bound),
            None => false,
        }
    }

    /// Whether some value is above this, without a look at each of them.
    pub(crate) fn ends_above(&self, bound: i32) -> bool
        ensures { result ≡ list_any (λ v. int_lt bound v) self.now }
    {
        match &self.range {
            Some(range) => is_high_above(range, bound),
            None => false,
        }
    }
}

ghost use Rattle.std.specs.Prelude.{List, [], ◌∷◌, ◌++◌, Some, ℤ, int_lt};
ghost use Rattle.std.specs.Int.{int_min, int_max};
ghost use Rattle.hpf_map.specs.Ranges.{HasRange};

/// Whether a range begins below this.
fn is_low_below(range: &Span, bound: i32) -> bool
    ensures { result ≡ int_lt range.now.low bound }
{
    range.low < bound
}

/// Whether a range ends above this.
fn is_high_above(range: &Span, bound: i32) -> bool
    ensures { result ≡ int_lt bound range.now.high }
{
    bound < range.high
}

/// The least and the greatest value, if there are any.
fn range_of(values: &[i32]) -> Option<Span>
    ensures { HasRange values.now result }
{
    let mut range = None;
    for value in values {
        range = Some(with_value(range, *value));
    }
    range
}

/// The least and the greatest value, with one more.
fn with_value(range: Option<Span>, value: i32) -> Span
    ensures { (values : List ℤ) → HasRange values range → HasRange (values ++ value ∷ []) (Some result) }
{
    match range {
        Some(range) => widened(range, value),
        None => Span {
            low: value,
            high: value,
        },
    }
}

/// A range as far as a value.
fn widened(range: Span, value: i32) -> Span
    ensures low { result.low ≡ int_min range.low value }
    ensures high { result.high ≡ int_max range.high value }
{
    Span {
        low: range.low.min(value),
        high: range.high.max(value),
    }
}

/// What has a shape of its own that elements or processors stand in.
#[derive(Clone, Copy, Debug, PartialEq, Eq)]
pub enum Space {
    Array,
    Template,
    Arrangement,
}

/// The bounds of a name: how many are written, and the shape that they give.
#[derive(Drop)]
pub struct Dimensions {
    pub count: usize,
    /// None where it isn't free of breaches.
    pub shape: Option<Shape>,
}

impl Dimensions {
    /// The same bounds once more.
    pub(crate) fn copy(&self, alloc: Global) -> Result<Dimensions, AllocError>
        ensures { IfOk result (λ d. d ≡ self.now) }
    {
        let shape = match &self.shape {
            Some(shape) => Some(shape.copy(alloc)?),
            None => None,
        };
        Ok(Dimensions {
            count: self.count,
            shape,
        })
    }
}

/// What a declaration makes a name. It holds no shape and no value where that isn't free of breaches, and none where the
/// name isn't.
#[derive(Drop)]
pub enum Meaning {
    /// A variable without bounds.
    Scalar,
    /// An array, a template or an arrangement.
    Shaped(Space, Dimensions),
    /// A named constant without bounds.
    Constant(Option<i32>),
    /// A named constant with bounds. It holds its list where its bounds are free too.
    List(Option<Values>),
}

/// A name, as its first declaration makes it.
#[derive(Drop)]
pub struct Name {
    pub word: Word,
    /// Whether its first declaration has no breach at the name.
    pub free: bool,
    pub meaning: Meaning,
}
