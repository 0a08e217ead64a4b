//! How a DISTRIBUTE deals the positions of its distributees, dimension by dimension.

ghost use Rattle.std.specs.Prelude.{◌≡◌, [], map, Some, unwrap_or, option_map, option_copied};
ghost use Rattle.std.specs.List.{flat_map};
ghost use Rattle.hpf_syntax.specs.Plain.{format_tree, item_tree};
ghost use Rattle.hpf_map.specs.Dealing.{matching, dealing, over, breaches_at, dealing_breaches, sized_breaches, formats_breaches};
ghost use Rattle.hpf_map.specs.Found.{least_with};
ghost use Rattle.hpf_map.specs.Ownership.{dealing_of, dealing_by};
ghost use Rattle.hpf_map.specs.Paired.{each_with};
ghost use Rattle.hpf_map.specs.Seen.{seen};
ghost use Rattle.hpf_map.specs.Spaces.{shape_of};
ghost use Rattle.hpf_map.specs.Widths.{all_widths};
ghost use Rattle.hpf_map.specs.declared.role.Role.TheVariants as role;

use crate::breaches::Breaches;
use crate::distributions::{divided, divides, target_shape};
use crate::format_widths::FormatWidths;
use crate::formats::test_format;
use crate::name::{Shape, Span};
use crate::names::Names;
use crate::paired::at_place;
use crate::role::Role;
use crate::shapes::extent;
use crate::spaces::shape_of;
use hpf_syntax::{FormatItem, Item, Spot};

/// The formats of a DISTRIBUTE, with what they stand on.
#[derive(Drop)]
pub(crate) struct Dealing<'a> {
    pub names: &'a Names,
    pub formats: &'a [FormatItem],
    /// The values of the widths, format by format.
    pub widths: &'a [Option<i32>],
    /// The dimensions of the arrangement: none where they aren't free, or are another number than the formats divide.
    pub target: &'a [Span],
}

/// The dimensions of a shape that is free and has so many.
fn matching<'a>(count: usize, shape: Option<&'a Shape>) -> &'a [Span]
    ensures { result.now ≡ matching count (option_copied shape.entry) }
{
    match shape {
        Some(shape) if shape.as_slice().len() == count => shape.as_slice(),
        _ => &[],
    }
}

/// The values of widths, where there are any.
fn values_of<'a>(widths: Option<&'a FormatWidths>) -> &'a [Option<i32>]
    ensures { result.now ≡ unwrap_or (option_copied widths.entry) [] }
{
    match widths {
        Some(widths) => widths.as_slice(),
        None => &[],
    }
}

/// The formats of a statement, where the values of its widths are these.
pub(crate) fn dealing_with<'a>(
    names: &'a Names,
    formats: &'a [FormatItem],
    onto: &Option<Spot>,
    widths: Option<&'a FormatWidths>,
) -> Dealing<'a>
    ensures { seen result ≡ dealing names.now (map format_tree formats.now) onto.now (option_copied widths.entry) }
{
    Dealing {
        names,
        formats,
        widths: values_of(widths),
        target: matching(divided(formats), target_shape(names, formats, onto)),
    }
}

/// The formats of a statement, if it distributes.
fn item_dealing<'a>(
    names: &'a Names,
    item: &'a Item,
    widths: Option<&'a FormatWidths>,
) -> Option<Dealing<'a>>
    ensures { option_map seen result ≡ dealing_of names.now (Some (item_tree item.now)) (option_copied widths.entry) }
{
    match item {
        Item::Distribute { formats, onto, .. } => {
            Some(dealing_with(names, formats.as_slice(), onto, widths))
        }
        _ => None,
    }
}

/// The formats of the statement at a place, if it distributes, where the widths of each statement have these values.
#[tactic(auto, unfolding(crate::specs::Ownership::dealing_by))]
pub(crate) fn dealing_by<'a>(
    names: &'a Names,
    items: &'a [Item],
    widths: &'a [Option<FormatWidths>],
    statement: usize,
) -> Option<Dealing<'a>>
    requires { widths.now ≡ all_widths (map item_tree items.now) }
    ensures { option_map seen result ≡ dealing_by names.now (map item_tree items.now) statement }
{
    item_dealing(names, items.get(statement)?, at_place(widths, statement))
}

/// The breaches of the format with this number, over a distributee with these bounds, by the dimension of the arrangement
/// with the number `dim`.
fn test_format_at(dealing: &Dealing, spans: &[Span], k: usize, dim: usize, breaches: &mut Breaches)
    requires { dim ≡ over (seen dealing.now).formats k }
    ensures { breaches.new ≡ least_with breaches.old (breaches_at (seen dealing.now) spans.now k) }
{
    match dealing.formats.get(k) {
        Some(format) => {
            let width = at_place(dealing.widths, k).copied();
            let positions = spans.get(k).map(extent);
            let procs = dealing.target.get(dim);
            test_format(dealing.names, format, width, positions, procs, breaches);
        }
        None => {}
    }
}

/// The breaches of formats, over a distributee with these bounds.
#[tactic(auto, using(crate::proofs::FoundLemmas::least_with_laws), unfolding(crate::specs::Dealing::dealing_breaches))]
fn test_dealing(dealing: &Dealing, spans: &[Span], breaches: &mut Breaches)
    ensures { breaches.new ≡ least_with breaches.old (dealing_breaches (seen dealing.now) spans.now) }
{
    let mut dim = 0;
    for (k, format) in dealing.formats.iter().enumerate() {
        test_format_at(dealing, spans, k, dim, breaches);
        if divides(format) {
            dim += 1;
        }
    }
}

/// The same over a distributee with as many dimensions as there are formats, where its shape is free.
#[tactic(auto, using(crate::proofs::FoundLemmas::least_with_laws))]
fn test_sized(dealing: &Dealing, shape: Option<&Shape>, breaches: &mut Breaches)
    ensures { breaches.new ≡ least_with breaches.old (sized_breaches (seen dealing.now) (option_copied shape.entry)) }
{
    match shape {
        Some(shape) => {
            if shape.as_slice().len() == dealing.formats.len() {
                test_dealing(dealing, shape.as_slice(), breaches);
            }
        }
        None => {}
    }
}

/// The same over each distributee.
#[tactic(auto, using(crate::proofs::FoundLemmas::least_with_laws))]
fn test_each_sized(dealing: &Dealing, distributees: &[Spot], breaches: &mut Breaches)
    ensures { breaches.new ≡ least_with breaches.old
        (flat_map (λ distributee. sized_breaches (seen dealing.now) (shape_of (seen dealing.now).names role.Mapped distributee.word)) distributees.now) }
{
    for distributee in distributees {
        let shape = shape_of(dealing.names, Role::Mapped, &distributee.word);
        test_sized(dealing, shape, breaches);
    }
}

/// The breaches in the formats of a DISTRIBUTE, where the values of its widths are these.
#[tactic(auto, using(crate::proofs::FoundLemmas::least_with_laws), unfolding(crate::specs::Dealing::formats_breaches))]
fn test_formats(names: &Names, item: &Item, widths: Option<&FormatWidths>, breaches: &mut Breaches)
    ensures { breaches.new ≡ least_with breaches.old
        (formats_breaches names.now (item_tree item.now) (option_copied widths.entry)) }
{
    if let Item::Distribute {
        names: distributees,
        formats,
        onto,
    } = item
    {
        let dealing = dealing_with(names, formats.as_slice(), onto, widths);
        test_dealing(&dealing, &[], breaches);
        test_each_sized(&dealing, distributees.as_slice(), breaches);
    }
}

/// The breaches in the formats of all DISTRIBUTE, where the values of the widths of each statement are these.
#[tactic(auto, using(crate::proofs::FoundLemmas::least_with_laws))]
pub(crate) fn test_all_formats(
    names: &Names,
    items: &[Item],
    widths: &[Option<FormatWidths>],
    breaches: &mut Breaches,
)
    ensures { breaches.new ≡ least_with breaches.old
        (each_with (formats_breaches names.now) (map item_tree items.now) widths.now) }
{
    for (k, item) in items.iter().enumerate() {
        test_formats(names, item, at_place(widths, k), breaches);
    }
}
