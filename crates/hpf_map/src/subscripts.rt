//! What the subscripts of an ALIGN say.

ghost use Rattle.std.specs.Prelude.{◌≡◌, List, [], Some, map, option_map, option_and_then, IfOk, OnOk};
ghost use Rattle.std.specs.List.{flat_map};
ghost use Rattle.hpf_syntax.specs.Plain.{tree, sub_tree};
ghost use Rattle.hpf_map.specs.Found.{least_with};
ghost use Rattle.hpf_map.specs.Gathered.{all_of};
ghost use Rattle.hpf_map.specs.Hidden.{hides};
ghost use Rattle.hpf_map.specs.Subscripts.{constant_of, part, triplet_of, linear_subscript, subscript_of, maybe_form_breaches, subscript_form_breaches, said, forms_breaches};

use crate::breaches::Breaches;
use crate::gathered::Gathered;
use crate::linear::form;
use crate::scope::Scope;
use crate::subscript::{Linear, Subscript};
use hpf_lex::Word;
use hpf_syntax::{Expr, List, SubItem};
use std::alloc::{AllocError, Global};
use std::collections::BTreeSet;
use std::marker::Model;

/// The subscripts of an ALIGN. It is seen as the list of them.
#[derive(Drop)]
pub(crate) struct Subscripts {
    subscripts: Vec<Subscript>,
}

impl Model for Subscripts {
    ghost use Rattle.std.specs.Prelude.{List};
    ghost use Rattle.hpf_map.specs.declared.subscript.Subscript.{Subscript};

    ghost Value = { List Subscript };

    ghost view = { λ s. s.subscripts.items };
}

impl Subscripts {
    /// None.
    fn none(alloc: Global) -> Subscripts
        ensures { result ≡ [] }
    {
        Subscripts {
            subscripts: Vec::new(alloc),
        }
    }

    /// The subscripts, in order.
    pub(crate) fn as_slice(&self) -> &[Subscript]
        ensures { result.now ≡ self.now }
    {
        self.subscripts.as_slice()
    }
}

/// A form without a dummy.
fn constant_of(form: Option<Linear>) -> Option<i32>
    ensures { result ≡ option_and_then constant_of form }
{
    match form {
        Some(
            Linear {
                dummy: None,
                constant,
                ..
            },
        ) => Some(constant),
        _ => None,
    }
}

/// A part of a triplet, where it is free, and the breaches of its operators.
#[tactic(auto, using(crate::proofs::FoundLemmas::least_with_laws))]
fn part(
    scope: &Scope,
    dummies: &BTreeSet<Word>,
    e: &Option<Expr>,
    breaches: &mut Breaches,
) -> Option<Option<i32>>
    ensures part { result ≡ part scope.now (hides (Some dummies.now)) (option_map tree e.now) }
    ensures breaches { breaches.new ≡ least_with breaches.old
        (maybe_form_breaches scope.now (hides (Some dummies.now)) (option_map tree e.now)) }
{
    match e {
        None => Some(None),
        Some(e) => constant_of(form(scope, dummies, e, breaches)).map(Some),
    }
}

/// The triplet of these parts, where each is free.
fn triplet_of(
    low: Option<Option<i32>>,
    high: Option<Option<i32>>,
    step: Option<Option<i32>>,
) -> Option<Subscript>
    ensures { result ≡ triplet_of low high step }
{
    match (low, high, step) {
        (Some(low), Some(high), Some(step)) => Some(Subscript::Triplet { low, high, step }),
        _ => None,
    }
}

/// One position for each value of a dummy, where the form is free.
fn linear(form: Option<Linear>) -> Option<Subscript>
    ensures { result ≡ option_map linear_subscript form }
{
    match form {
        Some(
            Linear {
                dummy,
                coefficient,
                constant,
            },
        ) => Some(Subscript::Linear {
            dummy,
            coefficient,
            constant,
        }),
        None => None,
    }
}

/// What a subscript says, where it is free, and the breaches of its operators.
#[tactic(auto, using(crate::proofs::FoundLemmas::least_with_laws), unfolding(crate::specs::Subscripts::subscript_of, crate::specs::Subscripts::subscript_form_breaches))]
fn one_subscript(
    scope: &Scope,
    dummies: &BTreeSet<Word>,
    sub: &SubItem,
    breaches: &mut Breaches,
) -> Option<Subscript>
    ensures subscript { result ≡ subscript_of scope.now (hides (Some dummies.now)) (sub_tree sub.now) }
    ensures breaches { breaches.new ≡ least_with breaches.old
        (subscript_form_breaches scope.now (hides (Some dummies.now)) (sub_tree sub.now)) }
{
    match sub {
        SubItem::Star(_) => Some(Subscript::Any),
        SubItem::Value(e) => linear(form(scope, dummies, e, breaches)),
        SubItem::Triplet {
            low,
            high,
            step,
            ..
        } => {
            let low = part(scope, dummies, low, breaches);
            let high = part(scope, dummies, high, breaches);
            let step = part(scope, dummies, step, breaches);
            triplet_of(low, high, step)
        }
    }
}

/// What subscripts say, where each is free, and the breaches of their operators.
#[tactic(auto, using(crate::proofs::FoundLemmas::least_with_laws))]
fn each_subscript(
    alloc: Global,
    scope: &Scope,
    dummies: &BTreeSet<Word>,
    subs: &[SubItem],
    breaches: &mut Breaches,
) -> Result<Option<Vec<Subscript>>, AllocError>
    ensures said { IfOk result (λ s. option_map (λ v. v.items) s
        ≡ all_of (map (subscript_of scope.now (hides (Some dummies.now))) (map sub_tree subs.now))) }
    ensures breaches { OnOk result (breaches.new ≡ least_with breaches.old
        (flat_map (subscript_form_breaches scope.now (hides (Some dummies.now))) (map sub_tree subs.now))) }
{
    let mut said = Gathered::new(alloc);
    for sub in subs {
        said.add(one_subscript(scope, dummies, sub, breaches))?;
    }
    Ok(said.finish())
}

/// The same of an ALIGN, which may have none.
#[tactic(auto, using(crate::proofs::FoundLemmas::least_with_laws))]
pub(crate) fn said(
    alloc: Global,
    scope: &Scope,
    dummies: &BTreeSet<Word>,
    subs: &Option<List<SubItem>>,
    breaches: &mut Breaches,
) -> Result<Option<Subscripts>, AllocError>
    ensures said { IfOk result (λ s. s
        ≡ said scope.now (hides (Some dummies.now)) (option_map (map sub_tree) subs.now)) }
    ensures breaches { OnOk result (breaches.new ≡ least_with breaches.old
        (forms_breaches scope.now (hides (Some dummies.now)) (option_map (map sub_tree) subs.now))) }
{
    let Some(subs) = subs else {
        return Ok(Some(Subscripts::none(alloc)));
    };
    match each_subscript(alloc, scope, dummies, subs.as_slice(), breaches)? {
        Some(subscripts) => Ok(Some(Subscripts { subscripts })),
        None => Ok(None),
    }
}
