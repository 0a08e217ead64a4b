//! The values of the widths in the formats of a DISTRIBUTE.

ghost use Rattle.std.specs.Prelude.{◌≡◌, List, map, option_map, IfOk, OnOk};
ghost use Rattle.std.specs.List.{flat_map};
ghost use Rattle.hpf_syntax.specs.Plain.{tree, format_tree};
ghost use Rattle.hpf_map.specs.Expressions.{format_breaches};
ghost use Rattle.hpf_map.specs.Found.{least_with};
ghost use Rattle.hpf_map.specs.Values.{maybe_expression_breaches};
ghost use Rattle.hpf_map.specs.Widths.{maybe_value, format_width};

use crate::breaches::Breaches;
use crate::expressions::expression;
use crate::scope::Scope;
use hpf_syntax::{Expr, FormatItem};
use std::alloc::{AllocError, Global};
use std::marker::Model;

/// The values of the widths in the formats of a DISTRIBUTE, format by format. One is none where no width is written, and
/// where it isn't free. It is seen as the list of them.
#[derive(Drop)]
pub(crate) struct FormatWidths {
    values: Vec<Option<i32>>,
}

impl Model for FormatWidths {
    ghost use Rattle.std.specs.Prelude.{List, Option, ℤ};

    ghost Value = { List (Option ℤ) };

    ghost view = { λ w. w.values.items };
}

impl FormatWidths {
    /// The values, in order.
    pub(crate) fn as_slice(&self) -> &[Option<i32>]
        ensures { result.now ≡ self.now }
    {
        self.values.as_slice()
    }
}

/// The value of an expression, if there is one, and all breaches in it.
#[tactic(auto, using(crate::proofs::FoundLemmas::least_with_laws))]
fn maybe_value(scope: &Scope, e: &Option<Expr>, breaches: &mut Breaches) -> Option<i32>
    ensures value { result ≡ maybe_value scope.now (option_map tree e.now) }
    ensures breaches { breaches.new ≡ least_with breaches.old
        (maybe_expression_breaches scope.now (option_map tree e.now)) }
{
    match e {
        Some(e) => expression(scope, e, breaches),
        None => None,
    }
}

/// The value of the width of a format, and all breaches in it.
#[tactic(auto, using(crate::proofs::FoundLemmas::least_with_laws), unfolding(crate::specs::Widths::format_width, crate::specs::Expressions::format_breaches))]
fn format_width(scope: &Scope, format: &FormatItem, breaches: &mut Breaches) -> Option<i32>
    ensures value { result ≡ format_width scope.now (format_tree format.now) }
    ensures breaches { breaches.new ≡ least_with breaches.old
        (format_breaches scope.now (format_tree format.now)) }
{
    match format {
        FormatItem::Block(_, width) | FormatItem::Cyclic(_, width) => {
            maybe_value(scope, width, breaches)
        }
        FormatItem::Star(_) | FormatItem::GenBlock(..) | FormatItem::Indirect(..) => None,
    }
}

/// The values of the widths in formats, and all breaches in them.
#[tactic(auto, using(crate::proofs::FoundLemmas::least_with_laws))]
pub(crate) fn read_widths(
    alloc: Global,
    scope: &Scope,
    formats: &[FormatItem],
    breaches: &mut Breaches,
) -> Result<FormatWidths, AllocError>
    ensures widths { IfOk result (λ w. w ≡ map (format_width scope.now) (map format_tree formats.now)) }
    ensures breaches { OnOk result (breaches.new ≡ least_with breaches.old
        (flat_map (format_breaches scope.now) (map format_tree formats.now))) }
{
    let mut values = Vec::new(alloc);
    for format in formats {
        values.push(format_width(scope, format, breaches))?;
    }
    Ok(FormatWidths { values })
}
