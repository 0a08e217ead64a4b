//! DISTRIBUTE and the arrangement that it distributes onto.

ghost use Rattle.std.specs.Prelude.{◌≡◌, map, length, option_copied};
ghost use Rattle.std.specs.List.{flat_map};
ghost use Rattle.hpf_syntax.specs.Plain.{format_tree, item_tree};
ghost use Rattle.hpf_map.specs.Distributions.{divides, divided, target, target_shape, nothing_fits, first_breach, target_breaches, distributee_breaches, distribute_breaches};
ghost use Rattle.hpf_map.specs.Found.{least_with};

use crate::breaches::Breaches;
use crate::constraint::Constraint;
use crate::name::{Name, Shape};
use crate::names::Names;
use crate::role::Role;
use crate::spaces::{meaning_shape, shape_of, test_count, used_as};
use hpf_syntax::{FormatItem, Item, Spot};

/// Whether a format divides its dimension.
pub(crate) fn divides(format: &FormatItem) -> bool
    ensures { result ≡ divides (format_tree format.now) }
{
    match format {
        FormatItem::Star(_) => false,
        FormatItem::Block(..)
        | FormatItem::Cyclic(..)
        | FormatItem::GenBlock(..)
        | FormatItem::Indirect(..) => true,
    }
}

/// The number of dimensions that are divided.
pub(crate) fn divided(formats: &[FormatItem]) -> usize
    ensures { result ≡ divided (map format_tree formats.now) }
{
    let mut count = 0;
    for format in formats {
        if divides(format) {
            count += 1;
        }
    }
    count
}

/// The arrangement that is distributed onto: that of ONTO, or else the first one that fits.
#[tactic(auto, unfolding(crate::specs::Distributions::target))]
fn target<'a>(names: &'a Names, formats: &[FormatItem], onto: &Option<Spot>) -> Option<&'a Name>
    ensures { option_copied result ≡ target names.now (map format_tree formats.now) onto.now }
{
    match onto {
        Some(onto) => used_as(names, Role::Target, &onto.word),
        None => names.first_arrangement(divided(formats)),
    }
}

/// The shape of the arrangement that is distributed onto, where it is free.
pub(crate) fn target_shape<'a>(
    names: &'a Names,
    formats: &[FormatItem],
    onto: &Option<Spot>,
) -> Option<&'a Shape>
    ensures { option_copied result ≡ target_shape names.now (map format_tree formats.now) onto.now }
{
    match target(names, formats, onto) {
        Some(name) if name.free => meaning_shape(&name.meaning),
        _ => None,
    }
}

/// Whether no arrangement fits, and none has a breach.
fn nothing_fits(names: &Names, formats: &[FormatItem]) -> bool
    ensures { result ≡ nothing_fits names.now (map format_tree formats.now) }
{
    if names.has_broken_arrangement() {
        return false;
    }
    match names.first_arrangement(divided(formats)) {
        Some(_) => false,
        None => true,
    }
}

/// The rank of the arrangement in ONTO, or that there is none that fits.
#[tactic(auto, using(crate::proofs::FoundLemmas::least_with_laws), unfolding(crate::specs::Distributions::target_breaches))]
fn test_target(
    names: &Names,
    distributees: &[Spot],
    formats: &[FormatItem],
    onto: &Option<Spot>,
    breaches: &mut Breaches,
)
    ensures { breaches.new ≡ least_with breaches.old
        (target_breaches names.now distributees.now (map format_tree formats.now) onto.now) }
{
    if let Some(onto) = onto {
        let shape = shape_of(names, Role::Target, &onto.word);
        test_count(divided(formats), onto, shape, breaches);
        return;
    }
    if nothing_fits(names, formats)
        && let Some(first) = distributees.first()
    {
        breaches.note(Constraint::NoArrangement, first.at);
    }
}

/// Another number of formats than a distributee has dimensions.
#[tactic(auto, using(crate::proofs::FoundLemmas::least_with_laws))]
fn test_distributees(names: &Names, count: usize, distributees: &[Spot], breaches: &mut Breaches)
    ensures { breaches.new ≡ least_with breaches.old
        (flat_map (distributee_breaches names.now count) distributees.now) }
{
    for distributee in distributees {
        let shape = shape_of(names, Role::Mapped, &distributee.word);
        test_count(count, distributee, shape, breaches);
    }
}

/// How many formats are written.
#[tactic(auto, using(crate::proofs::DistributionLemmas::formats_seen))]
fn written(formats: &[FormatItem]) -> usize
    ensures { result ≡ length (map format_tree formats.now) }
{
    formats.len()
}

/// The breaches of a DISTRIBUTE.
#[tactic(auto, using(crate::proofs::FoundLemmas::least_with_laws), unfolding(crate::specs::Distributions::distribute_breaches))]
fn test_distribute(names: &Names, item: &Item, breaches: &mut Breaches)
    ensures { breaches.new ≡ least_with breaches.old (distribute_breaches names.now (item_tree item.now)) }
{
    if let Item::Distribute {
        names: distributees,
        formats,
        onto,
    } = item
    {
        let count = written(formats.as_slice());
        test_distributees(names, count, distributees.as_slice(), breaches);
        test_target(
            names,
            distributees.as_slice(),
            formats.as_slice(),
            onto,
            breaches,
        );
    }
}

/// The breaches of all DISTRIBUTE.
#[tactic(auto, using(crate::proofs::FoundLemmas::least_with_laws))]
pub(crate) fn test_distributes(names: &Names, items: &[Item], breaches: &mut Breaches)
    ensures { breaches.new ≡ least_with breaches.old
        (flat_map (distribute_breaches names.now) (map item_tree items.now)) }
{
    for item in items {
        test_distribute(names, item, breaches);
    }
}
