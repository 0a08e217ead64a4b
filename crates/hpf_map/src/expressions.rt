//! Expressions, with their names and their operators.

ghost use Rattle.std.specs.Prelude.{◌≡◌, List, map, option_map, option_copied};
ghost use Rattle.std.specs.List.{flat_map};
ghost use Rattle.hpf_syntax.specs.Plain.{tree, sub_tree};
ghost use Rattle.hpf_map.specs.Found.{least_with};
ghost use Rattle.hpf_map.specs.Hidden.{hides};
ghost use Rattle.hpf_map.specs.Uses.{name_breaches, maybe_name_breaches, subscript_breaches};
ghost use Rattle.hpf_map.specs.Values.{value, expression_breaches, maybe_expression_breaches, place_of};

use crate::breaches::Breaches;
use crate::dummies::hides;
use crate::role::Role;
use crate::scope::Scope;
use crate::uses::test_use;
use crate::values::value;
use hpf_lex::Word;
use hpf_syntax::{At, Expr, SubItem};
use std::collections::BTreeSet;

/// The place of an expression: its first number, name or minus sign before a term.
pub(crate) fn place_of(e: &Expr) -> At
    ensures { result ≡ place_of (tree e.now) }
{
    match e {
        Expr::Number(at, _) | Expr::Name(at, _) | Expr::Neg(at, _) => *at,
        Expr::Plus(_, first, _) | Expr::Minus(_, first, _) | Expr::Times(_, first, _) => {
            place_of(first)
        }
    }
}

/// The names in an expression, but for the dummies.
#[tactic(auto, using(crate::proofs::FoundLemmas::least_with_laws), unfolding(crate::specs::Uses::name_breaches))]
fn test_names(scope: &Scope, dummies: Option<&BTreeSet<Word>>, e: &Expr, breaches: &mut Breaches)
    ensures { breaches.new ≡ least_with breaches.old
        (name_breaches scope.now (hides (option_copied dummies.entry)) (tree e.now)) }
{
    match e {
        Expr::Number(..) => {}
        Expr::Name(at, word) => {
            if !hides(dummies, word) {
                test_use(Role::Value, *at, scope.find(word), breaches);
            }
        }
        Expr::Neg(_, operand) => test_names(scope, dummies, operand, breaches),
        Expr::Plus(_, left, right) | Expr::Minus(_, left, right) | Expr::Times(_, left, right) => {
            test_names(scope, dummies, left, breaches);
            test_names(scope, dummies, right, breaches);
        }
    }
}

/// The names in an expression, if there is one.
#[tactic(auto, using(crate::proofs::FoundLemmas::least_with_laws))]
fn test_maybe_names(
    scope: &Scope,
    dummies: Option<&BTreeSet<Word>>,
    e: &Option<Expr>,
    breaches: &mut Breaches,
)
    ensures { breaches.new ≡ least_with breaches.old
        (maybe_name_breaches scope.now (hides (option_copied dummies.entry)) (option_map tree e.now)) }
{
    if let Some(e) = e {
        test_names(scope, dummies, e, breaches);
    }
}

/// The names in a subscript of ALIGN, but for its dummies.
#[tactic(auto, using(crate::proofs::FoundLemmas::least_with_laws))]
fn test_subscript(scope: &Scope, dummies: &BTreeSet<Word>, sub: &SubItem, breaches: &mut Breaches)
    ensures { breaches.new ≡ least_with breaches.old
        (subscript_breaches scope.now (hides (Some dummies.now)) (sub_tree sub.now)) }
{
    match sub {
        SubItem::Star(_) => {}
        SubItem::Value(e) => test_names(scope, Some(dummies), e, breaches),
        SubItem::Triplet {
            low,
            high,
            step,
            ..
        } => {
            test_maybe_names(scope, Some(dummies), low, breaches);
            test_maybe_names(scope, Some(dummies), high, breaches);
            test_maybe_names(scope, Some(dummies), step, breaches);
        }
    }
}

/// The names in subscripts of ALIGN, but for its dummies.
#[tactic(auto, using(crate::proofs::FoundLemmas::least_with_laws))]
pub(crate) fn test_subscripts(
    scope: &Scope,
    dummies: &BTreeSet<Word>,
    subs: &[SubItem],
    breaches: &mut Breaches,
)
    ensures { breaches.new ≡ least_with breaches.old
        (flat_map (subscript_breaches scope.now (hides (Some dummies.now))) (map sub_tree subs.now)) }
{
    for sub in subs {
        test_subscript(scope, dummies, sub, breaches);
    }
}

/// The value of an expression, and all breaches in it.
#[tactic(auto, using(crate::proofs::FoundLemmas::least_with_laws), unfolding(crate::specs::Values::expression_breaches))]
pub(crate) fn expression(scope: &Scope, e: &Expr, breaches: &mut Breaches) -> Option<i32>
    ensures value { result ≡ value scope.now (tree e.now) }
    ensures breaches { breaches.new ≡ least_with breaches.old
        (expression_breaches scope.now (tree e.now)) }
{
    test_names(scope, None, e, breaches);
    value(scope, e, breaches)
}
