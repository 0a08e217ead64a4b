//! What a named constant is given.

ghost use Rattle.std.specs.Prelude.{◌≡◌, ◌||◌, List, length, map, nat_lt, IfOk, OnOk};
ghost use Rattle.std.specs.List.{flat_map};
ghost use Rattle.hpf_syntax.specs.Plain.{tree, value_tree};
ghost use Rattle.hpf_map.specs.Found.{least_with};
ghost use Rattle.hpf_map.specs.Gathered.{all_of};
ghost use Rattle.hpf_map.specs.Values.{value, expression_breaches};

use crate::breaches::Breaches;
use crate::expressions::expression;
use crate::gathered::Gathered;
use crate::name::{Meaning, Shape, Span, Values};
use crate::scope::Scope;
use crate::shapes::elements;
use hpf_syntax::{Expr, Value};
use std::alloc::{AllocError, Global};

/// What a named constant is given: one value or a list. It is none where it isn't free.
#[derive(Drop)]
pub(crate) enum Given {
    One(Option<i32>),
    Many(Option<Values>),
}

/// The values of a list, where all are free, and the breaches in them.
#[tactic(auto, using(crate::proofs::FoundLemmas::least_with_laws))]
fn values(
    alloc: Global,
    scope: &Scope,
    list: &[Expr],
    breaches: &mut Breaches,
) -> Result<Option<Values>, AllocError>
    ensures values { IfOk result (λ vs. vs ≡ all_of (map (value scope.now) (map tree list.now))) }
    ensures breaches { OnOk result (breaches.new ≡ least_with breaches.old
        (flat_map (expression_breaches scope.now) (map tree list.now))) }
{
    let mut values = Gathered::new(alloc);
    for e in list {
        values.add(expression(scope, e, breaches))?;
    }
    match values.finish() {
        Some(values) => Ok(Some(Values::new(values))),
        None => Ok(None),
    }
}

impl Given {
    ghost use Rattle.hpf_map.specs.Constants.{given_of, value_breaches, misfits, breaks_rank, constant_meaning};

    /// What a constant is given, and the breaches in it.
    #[tactic(auto, unfolding(crate::specs::Constants::value_breaches))]
    pub(crate) fn new(
        alloc: Global,
        scope: &Scope,
        value: &Value,
        breaches: &mut Breaches,
    ) -> Result<Given, AllocError>
        ensures given { IfOk result (λ given. given ≡ given_of scope.now (value_tree value.now)) }
        ensures breaches { OnOk result (breaches.new ≡ least_with breaches.old
            (value_breaches scope.now (value_tree value.now))) }
    {
        match value {
            Value::One(e) => Ok(Given::One(expression(scope, e, breaches))),
            Value::Many(list) => Ok(Given::Many(values(alloc, scope, list.as_slice(), breaches)?)),
        }
    }

    /// Whether it doesn't go together with the bounds of the constant.
    pub(crate) fn breaks_rank(&self, has_shape: bool, shape: &Option<Shape>) -> bool
        ensures { result ≡ breaks_rank has_shape shape.now self.now }
    {
        match (has_shape, shape, self) {
            (false, _, Given::One(_)) => false,
            (false, _, Given::Many(values)) => values.is_some(),
            (true, None, _) => false,
            (true, Some(_), Given::One(_)) => true,
            (true, Some(shape), Given::Many(values)) => is_no_list_of(shape.as_slice(), values),
        }
    }

    /// What a constant is that is given this. It holds its list where its shape is free too.
    pub(crate) fn meaning(self, has_shape: bool, free: bool, shape: &Option<Shape>) -> Meaning
        ensures { result ≡ constant_meaning has_shape free shape.now self }
    {
        match (has_shape, free, shape, self) {
            (false, true, _, Given::One(value)) => Meaning::Constant(value),
            (false, _, _, _) => Meaning::Constant(None),
            (true, true, Some(_), Given::Many(values)) => Meaning::List(values),
            (true, _, _, _) => Meaning::List(None),
        }
    }
}

ghost use Rattle.hpf_map.specs.Constants.{misfits};

/// Whether a list has another length than bounds of one dimension say, or there are more dimensions.
fn is_no_list_of(spans: &[Span], values: &Option<Values>) -> bool
    ensures { result ≡ (nat_lt 1 (length spans.now) || misfits spans.now values.now) }
{
    if spans.len() > 1 {
        return true;
    }
    match values {
        Some(values) => values.as_slice().len() as u64 != elements(spans),
        None => false,
    }
}
