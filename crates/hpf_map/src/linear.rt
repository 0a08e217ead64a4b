//! Subscripts of ALIGN as linear forms.

ghost use Rattle.std.specs.Prelude.{◌≡◌, Some, option_map, option_and_then, neg_ℤ};
ghost use Rattle.hpf_syntax.specs.Plain.{tree};
ghost use Rattle.hpf_map.specs.Constraint.{breach_if};
ghost use Rattle.hpf_map.specs.Found.{least_with};
ghost use Rattle.hpf_map.specs.Hidden.{hides};
ghost use Rattle.hpf_map.specs.declared.constraint.Constraint.TheVariants.{Limit};
ghost use Rattle.hpf_map.specs.Linear.{constant_form, dummy_form, negated_form, ranged_form, form_operation, combined_forms, form_leaves, word_form, form, form_breaches};

use crate::breaches::Breaches;
use crate::constraint::Constraint;
use crate::scope::Scope;
use crate::subscript::Linear;
use crate::values::{Operator, constant, ranged, settle};
use hpf_lex::Word;
use hpf_syntax::{At, Expr};
use std::collections::BTreeSet;

/// The numbers of a form, in range or not.
#[derive(Clone, Copy)]
struct Numbers {
    coefficient: i64,
    constant: i64,
}

impl Linear {
    /// A number without a dummy.
    fn constant(value: i32) -> Linear
        ensures { result ≡ constant_form value }
    {
        Linear {
            dummy: None,
            coefficient: 0,
            constant: value,
        }
    }

    /// A dummy by itself.
    fn dummy(word: Word) -> Linear
        ensures { result ≡ dummy_form word }
    {
        Linear {
            dummy: Some(word),
            coefficient: 1,
            constant: 0,
        }
    }

    /// The form with these numbers, where both are in range.
    fn ranged(dummy: Option<Word>, numbers: Numbers) -> Option<Linear>
        ensures { result ≡ ranged_form
            (record { dummy = dummy; coefficient = numbers.coefficient; constant = numbers.constant }) }
    {
        match (ranged(numbers.coefficient), ranged(numbers.constant)) {
            (Some(coefficient), Some(constant)) => Some(Linear {
                dummy,
                coefficient,
                constant,
            }),
            _ => None,
        }
    }

    /// The form with its sign turned round.
    fn negated(self) -> Option<Linear>
        ensures { result ≡ ranged_form (negated_form self) }
    {
        let numbers = Numbers {
            coefficient: opposite(self.coefficient),
            constant: opposite(self.constant),
        };
        Linear::ranged(self.dummy, numbers)
    }
}

/// A number with its sign turned round.
fn opposite(value: i32) -> i64
    ensures { result ≡ neg_ℤ value }
{
    -i64::from(value)
}

impl Operator {
    /// What it makes of the numbers of two forms.
    fn numbers(self, left: Linear, right: Linear) -> Numbers
        ensures coefficient { result.coefficient ≡ (form_operation self left right).coefficient }
        ensures constant { result.constant ≡ (form_operation self left right).constant }
    {
        match self {
            Operator::Plus | Operator::Minus => Numbers {
                coefficient: self.of(left.coefficient, right.coefficient),
                constant: self.of(left.constant, right.constant),
            },
            Operator::Times if left.dummy.is_some() => Numbers {
                coefficient: self.of(left.coefficient, right.constant),
                constant: self.of(left.constant, right.constant),
            },
            Operator::Times => Numbers {
                coefficient: self.of(left.constant, right.coefficient),
                constant: self.of(left.constant, right.constant),
            },
        }
    }
}

/// The form at an operator, where it has one, or a breach where it leaves the range.
#[tactic(auto, using(crate::proofs::FoundLemmas::least_with_laws))]
fn combine_two(
    operator: Operator,
    left: Linear,
    right: Linear,
    at: At,
    breaches: &mut Breaches,
) -> Option<Linear>
    ensures form { result ≡ combined_forms operator (Some left) (Some right) }
    ensures breaches { breaches.new ≡ least_with breaches.old
        (breach_if (form_leaves operator (Some left) (Some right)) Limit at) }
{
    if left.dummy.is_some() && right.dummy.is_some() {
        return None;
    }
    let form = Linear::ranged(left.dummy.or(right.dummy), operator.numbers(left, right));
    breaches.note_if(form.is_none(), Constraint::Limit, at);
    form
}

/// The same, where both operands have a form.
#[tactic(auto, using(crate::proofs::FoundLemmas::least_with_laws))]
fn combine(
    operator: Operator,
    left: Option<Linear>,
    right: Option<Linear>,
    at: At,
    breaches: &mut Breaches,
) -> Option<Linear>
    ensures form { result ≡ combined_forms operator left right }
    ensures breaches { breaches.new ≡ least_with breaches.old
        (breach_if (form_leaves operator left right) Limit at) }
{
    match (left, right) {
        (Some(left), Some(right)) => combine_two(operator, left, right, at, breaches),
        _ => None,
    }
}

/// A number, where it is in range.
fn number(value: Option<i32>) -> Option<Linear>
    ensures { result ≡ option_map constant_form value }
{
    match value {
        Some(value) => Some(Linear::constant(value)),
        None => None,
    }
}

/// A form with its sign turned round.
fn negated(form: Option<Linear>) -> Option<Linear>
    ensures { result ≡ option_and_then (λ f. ranged_form (negated_form f)) form }
{
    match form {
        Some(form) => form.negated(),
        None => None,
    }
}

/// A dummy, or else a named constant.
fn word_form(scope: &Scope, dummies: &BTreeSet<Word>, word: Word) -> Option<Linear>
    ensures { result ≡ word_form scope.now (hides (Some dummies.now)) word }
{
    if dummies.contains(&word) {
        Some(Linear::dummy(word))
    } else {
        number(constant(scope, &word))
    }
}

/// The linear form of an expression, and the breaches of its operators.
#[tactic(auto, using(crate::proofs::FoundLemmas::least_with_laws), unfolding(crate::specs::Linear::form, crate::specs::Linear::form_breaches))]
pub(crate) fn form(
    scope: &Scope,
    dummies: &BTreeSet<Word>,
    e: &Expr,
    breaches: &mut Breaches,
) -> Option<Linear>
    ensures form { result ≡ form scope.now (hides (Some dummies.now)) (tree e.now) }
    ensures breaches { breaches.new ≡ least_with breaches.old
        (form_breaches scope.now (hides (Some dummies.now)) (tree e.now)) }
{
    match e {
        Expr::Number(at, n) => number(settle(i64::from(*n), *at, breaches)),
        Expr::Name(_, word) => word_form(scope, dummies, *word),
        Expr::Neg(_, operand) => negated(form(scope, dummies, operand, breaches)),
        Expr::Plus(at, left, right) => {
            let left = form(scope, dummies, left, breaches);
            let right = form(scope, dummies, right, breaches);
            combine(Operator::Plus, left, right, *at, breaches)
        }
        Expr::Minus(at, left, right) => {
            let left = form(scope, dummies, left, breaches);
            let right = form(scope, dummies, right, breaches);
            combine(Operator::Minus, left, right, *at, breaches)
        }
        Expr::Times(at, left, right) => {
            let left = form(scope, dummies, left, breaches);
            let right = form(scope, dummies, right, breaches);
            combine(Operator::Times, left, right, *at, breaches)
        }
    }
}
