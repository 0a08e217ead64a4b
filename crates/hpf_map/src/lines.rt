//! What the lines of a pipeline say.

ghost use Rattle.std.specs.Prelude.{◌≡◌, map, option_map, IfOk, OnOk};
ghost use Rattle.std.specs.List.{flat_map};
ghost use Rattle.hpf_syntax.specs.Plain.{tree};
ghost use Rattle.hpf_map.specs.Expressions.{list_breaches};
ghost use Rattle.hpf_map.specs.Found.{least_with};
ghost use Rattle.hpf_map.specs.Lines.{entries_of, number_of};
ghost use Rattle.hpf_map.specs.Values.{expression_breaches, maybe_expression_breaches};

use crate::breaches::Breaches;
use crate::expressions::{expression, place_of};
use crate::gathered::Gathered;
use crate::name::Values;
use crate::scope::Scope;
use hpf_syntax::{At, Expr, List, Spot};
use std::alloc::{AllocError, Global};

/// The entries of PERMUTE.
#[derive(Drop)]
pub(crate) struct Entries {
    /// How many are written.
    pub count: usize,
    /// Their values, where each is free.
    pub values: Option<Values>,
}

/// A number at its place, with its value where that is free.
#[derive(Clone, Copy)]
pub(crate) struct Number {
    pub at: At,
    pub value: Option<i32>,
}

/// What an INPUT or a STAGE line says.
#[derive(Drop)]
pub(crate) struct Line {
    /// Whether it is a STAGE line, which follows another one.
    pub follows: bool,
    pub array: Spot,
    pub permute: Option<Entries>,
    pub buffers: Option<Number>,
}

/// The entries of a PERMUTE, and the breaches in them.
#[tactic(auto, using(crate::proofs::FoundLemmas::least_with_laws))]
fn read_entries(
    alloc: Global,
    scope: &Scope,
    list: &[Expr],
    breaches: &mut Breaches,
) -> Result<Entries, AllocError>
    ensures said { IfOk result (λ entries. entries ≡ entries_of scope.now (map tree list.now)) }
    ensures breaches { OnOk result (breaches.new ≡ least_with breaches.old
        (flat_map (expression_breaches scope.now) (map tree list.now))) }
{
    let mut values = Gathered::new(alloc);
    for e in list {
        values.add(expression(scope, e, breaches))?;
    }
    let values = match values.finish() {
        Some(values) => Some(Values::new(values)),
        None => None,
    };
    Ok(Entries {
        count: list.len(),
        values,
    })
}

/// The entries of a PERMUTE, if there is one, and the breaches in them.
#[tactic(auto, using(crate::proofs::FoundLemmas::least_with_laws))]
pub(crate) fn read_permute(
    alloc: Global,
    scope: &Scope,
    list: &Option<List<Expr>>,
    breaches: &mut Breaches,
) -> Result<Option<Entries>, AllocError>
    ensures said { IfOk result (λ entries. entries
        ≡ option_map (entries_of scope.now) (option_map (map tree) list.now)) }
    ensures breaches { OnOk result (breaches.new ≡ least_with breaches.old
        (list_breaches scope.now (option_map (map tree) list.now))) }
{
    match list {
        Some(list) => Ok(Some(read_entries(alloc, scope, list.as_slice(), breaches)?)),
        None => Ok(None),
    }
}

/// The number that an expression is, if there is one, and the breaches in it.
#[tactic(auto, using(crate::proofs::FoundLemmas::least_with_laws))]
pub(crate) fn read_number(
    scope: &Scope,
    e: &Option<Expr>,
    breaches: &mut Breaches,
) -> Option<Number>
    ensures said { result ≡ option_map (number_of scope.now) (option_map tree e.now) }
    ensures breaches { breaches.new ≡ least_with breaches.old
        (maybe_expression_breaches scope.now (option_map tree e.now)) }
{
    match e {
        Some(e) => {
            let value = expression(scope, e, breaches);
            Some(Number {
                at: place_of(e),
                value,
            })
        }
        None => None,
    }
}
