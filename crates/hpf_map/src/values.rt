//! The values of expressions.

ghost use Rattle.std.specs.Prelude.{◌≡◌, ◌||◌, ℕ, List, Bool, not, map, option_map, ℤ, neg_ℤ, option_and_then};
ghost use Rattle.std.specs.List.{flat_map};
ghost use Rattle.hpf_syntax.specs.Plain.{tree};
ghost use Rattle.hpf_map.specs.Constraint.{breach_if};
ghost use Rattle.hpf_map.specs.Found.{least_with};
ghost use Rattle.hpf_map.specs.Uses.{name_breaches, nothing_hidden};
ghost use Rattle.hpf_map.specs.Values.{in_range, ranged, combined, leaves, operation, value, word_value, operator_breaches, expression_breaches, maybe_expression_breaches, place_of};
ghost use Rattle.hpf_map.specs.declared.constraint.Constraint.TheVariants.{Limit};

use crate::breaches::Breaches;
use crate::constraint::Constraint;
use crate::name::Meaning;
use crate::role::Role;
use crate::scope::Scope;
use crate::uses::test_use;
use hpf_lex::Word;
use hpf_syntax::{At, Expr};

/// The greatest value of an expression. The least is its negation.
const GREATEST: i64 = 2147483647;

/// A value, where it is in range.
#[tactic(auto, unfolding(crate::specs::Values::in_range))]
pub(crate) fn ranged(value: i64) -> Option<i32>
    ensures { result ≡ ranged value }
{
    if -GREATEST <= value && value <= GREATEST {
        Some(value as i32)
    } else {
        None
    }
}

/// The value at an operator, or a breach there where it isn't in range.
pub(crate) fn settle(value: i64, at: At, breaches: &mut Breaches) -> Option<i32>
    ensures value { result ≡ ranged value }
    ensures breaches { breaches.new ≡ least_with breaches.old
        (breach_if (not (in_range value)) Limit at) }
{
    let settled = ranged(value);
    breaches.note_if(settled.is_none(), Constraint::Limit, at);
    settled
}

/// The value of a named constant without a shape.
pub(crate) fn constant(scope: &Scope, word: &Word) -> Option<i32>
    ensures { result ≡ word_value scope.now word.now }
{
    match &scope.find(word)?.meaning {
        Meaning::Constant(value) => *value,
        Meaning::Scalar | Meaning::Shaped(..) | Meaning::List(_) => None,
    }
}

/// What an operator makes of two values.
#[derive(Clone, Copy, Debug, PartialEq, Eq)]
pub(crate) enum Operator {
    Plus,
    Minus,
    Times,
}

impl Operator {
    /// Their sum, difference or product.
    pub(crate) fn of(self, left: i32, right: i32) -> i64
        ensures { result ≡ operation self left right }
    {
        let left = i64::from(left);
        let right = i64::from(right);
        match self {
            Operator::Plus => left + right,
            Operator::Minus => left - right,
            Operator::Times => left * right,
        }
    }
}

/// The value of an operator, where both operands have one, or a breach where it leaves the range.
#[tactic(auto, using(crate::proofs::FoundLemmas::least_with_laws))]
fn combine(
    operator: Operator,
    left: Option<i32>,
    right: Option<i32>,
    at: At,
    breaches: &mut Breaches,
) -> Option<i32>
    ensures value { result ≡ combined (operation operator) left right }
    ensures breaches { breaches.new ≡ least_with breaches.old
        (breach_if (leaves (operation operator) left right) Limit at) }
{
    match (left, right) {
        (Some(left), Some(right)) => settle(operator.of(left, right), at, breaches),
        _ => None,
    }
}

/// A value with its sign turned round.
fn negated(operand: Option<i32>) -> Option<i32>
    ensures { result ≡ option_and_then (λ v. ranged (neg_ℤ v)) operand }
{
    match operand {
        Some(value) => ranged(-i64::from(value)),
        None => None,
    }
}

/// The value of an expression, and the breaches of its operators.
#[tactic(auto, using(crate::proofs::FoundLemmas::least_with_laws), unfolding(crate::specs::Values::value, crate::specs::Values::operator_breaches))]
pub(crate) fn value(scope: &Scope, e: &Expr, breaches: &mut Breaches) -> Option<i32>
    ensures value { result ≡ value scope.now (tree e.now) }
    ensures breaches { breaches.new ≡ least_with breaches.old
        (operator_breaches scope.now (tree e.now)) }
{
    match e {
        Expr::Number(at, n) => settle(i64::from(*n), *at, breaches),
        Expr::Name(_, word) => constant(scope, word),
        Expr::Neg(_, operand) => negated(value(scope, operand, breaches)),
        Expr::Plus(at, left, right) => {
            let left = value(scope, left, breaches);
            let right = value(scope, right, breaches);
            combine(Operator::Plus, left, right, *at, breaches)
        }
        Expr::Minus(at, left, right) => {
            let left = value(scope, left, breaches);
            let right = value(scope, right, breaches);
            combine(Operator::Minus, left, right, *at, breaches)
        }
        Expr::Times(at, left, right) => {
            let left = value(scope, left, breaches);
            let right = value(scope, right, breaches);
            combine(Operator::Times, left, right, *at, breaches)
        }
    }
}
