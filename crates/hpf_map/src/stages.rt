//! The lines of a pipeline, each beside those in front of it.

ghost use Rattle.std.specs.Prelude.{◌≡◌, ◌≤◌, length, option_copied};
ghost use Rattle.std.specs.Ordering.{int_eq};
ghost use Rattle.std.specs.List.{list_any};
ghost use Rattle.hpf_map.specs.Constraint.{breach_if};
ghost use Rattle.hpf_map.specs.Declarations.{threaded};
ghost use Rattle.hpf_map.specs.Found.{least_with};
ghost use Rattle.hpf_map.specs.Stages.{after_line, is_outside, buffers_breaches, has_each, permutes, extent_by, are_extents, are_same_extents, agree_by, agree_in_order, agree_where_free, agrees, entries_breaches, permute_breaches, shape_behind, follower_breaches, line_breaches, nothing_behind};

use crate::breaches::Breaches;
use crate::constraint::Constraint;
use crate::lines::{Entries, Line, Number};
use crate::name::{Shape, Span, Values};
use crate::names::Names;
use crate::role::Role;
use crate::shapes::extent;
use crate::spaces::{shape_of, test_count};
use hpf_lex::Word;
use hpf_syntax::Spot;

/// How many buffers a channel may have.
const MAX_BUFFERS: i32 = 8;

/// What stands in front of a line: whether an INPUT line does, and the array of the line before.
#[derive(Clone, Copy)]
pub(crate) struct Behind {
    pub led: bool,
    pub array: Option<Word>,
}

/// Nothing stands in front of the first line.
fn nothing_behind() -> Behind
    ensures { result ≡ nothing_behind }
{
    Behind {
        led: false,
        array: None,
    }
}

/// What stands in front of the next line.
fn after_line(behind: Behind, line: &Line) -> Behind
    ensures { result ≡ after_line behind line.now }
{
    Behind {
        led: behind.led || !line.follows,
        array: Some(line.array.word),
    }
}

/// Whether a number of buffers is there and none that a channel may have.
fn is_outside(value: Option<i32>) -> bool
    ensures { result ≡ is_outside value }
{
    match value {
        Some(value) => value < 1 || MAX_BUFFERS < value,
        None => false,
    }
}

/// A number of buffers that no channel may have.
#[tactic(auto, using(crate::proofs::FoundLemmas::least_with_laws))]
fn test_buffers(buffers: &Option<Number>, breaches: &mut Breaches)
    ensures { breaches.new ≡ least_with breaches.old (buffers_breaches buffers.now) }
{
    if let Some(number) = buffers {
        breaches.note_if(is_outside(number.value), Constraint::Limit, number.at);
    }
}

/// Whether a number is among the values.
fn is_among(values: &[i32], number: i64) -> bool
    ensures { result ≡ list_any (λ v. int_eq number v) values.now }
{
    values.iter().any(|value| number == i64::from(*value))
}

/// Whether each number from 1 to this one is among the values.
#[tactic(auto, unfolding(crate::specs::Stages::has_each))]
fn has_each(values: &[i32], most: usize) -> bool
    requires { most ≤ length values.now }
    ensures { result ≡ has_each values.now most }
{
    if most == 0 {
        return true;
    }
    is_among(values, most as i64) && has_each(values, most - 1)
}

/// Whether the values are the numbers from 1 to the rank, in some order.
fn permutes(rank: usize, values: &[i32]) -> bool
    ensures { result ≡ permutes rank values.now }
{
    values.len() == rank && has_each(values, rank)
}

/// The extent of a dimension, which counts from 1, of the array before.
fn extent_by(before: &[Span], dimension: i32) -> u64
    ensures { result ≡ extent_by before.now dimension }
{
    let place = dimension.unsigned_abs().saturating_sub(1);
    match before.get(place as usize) {
        Some(span) => extent(span),
        None => 1,
    }
}

/// Whether the extents of an array are those of these dimensions of the array before.
#[tactic(auto, unfolding(crate::specs::Stages::are_extents))]
fn are_extents(before: &[Span], own: &[Span], values: &[i32]) -> bool
    ensures { result ≡ are_extents before.now own.now values.now }
{
    match own {
        [] => values.is_empty(),
        [span, own @ ..] => match values {
            [] => false,
            [value, values @ ..] => {
                extent(span) == extent_by(before, *value) && are_extents(before, own, values)
            }
        },
    }
}

/// Whether they are those of its dimensions in order.
#[tactic(auto, unfolding(crate::specs::Stages::are_same_extents))]
fn are_same_extents(before: &[Span], own: &[Span]) -> bool
    ensures { result ≡ are_same_extents before.now own.now }
{
    match own {
        [] => before.is_empty(),
        [span, own @ ..] => match before {
            [] => false,
            [former, before @ ..] => {
                extent(span) == extent(former) && are_same_extents(before, own)
            }
        },
    }
}

/// Whether entries are a permutation of the dimensions, by which the extents agree with the array before. Without its shape
/// the extents aren't tested.
fn agree_by(before: Option<&Shape>, own: &Shape, values: &Values) -> bool
    ensures { result ≡ agree_by (option_copied before.entry) own.now values.now }
{
    let (own, values) = (own.as_slice(), values.as_slice());
    if !permutes(own.len(), values) {
        return false;
    }
    match before {
        Some(before) => {
            let before = before.as_slice();
            before.len() == own.len() && are_extents(before, own, values)
        }
        None => true,
    }
}

/// Whether an array agrees with the array before.
fn agrees(before: Option<&Shape>, own: &Shape, permute: &Option<Entries>) -> bool
    ensures { result ≡ agrees (option_copied before.entry) own.now permute.now }
{
    match permute {
        Some(entries) => match &entries.values {
            Some(values) => agree_by(before, own, values),
            None => true,
        },
        None => agree_in_order(before, own),
    }
}

/// Whether its dimensions in order do, where that is tested.
fn agree_in_order(before: Option<&Shape>, own: &Shape) -> bool
    ensures { result ≡ agree_in_order (option_copied before.entry) own.now }
{
    match before {
        Some(before) => are_same_extents(before.as_slice(), own.as_slice()),
        None => true,
    }
}

/// Another number of entries than the array has dimensions.
#[tactic(auto, using(crate::proofs::FoundLemmas::least_with_laws))]
fn test_entries(own: &Shape, array: &Spot, permute: &Option<Entries>, breaches: &mut Breaches)
    ensures { breaches.new ≡ least_with breaches.old (entries_breaches own.now array.now permute.now) }
{
    if let Some(entries) = permute {
        test_count(entries.count, array, Some(own), breaches);
    }
}

/// PERMUTE and the extents of a line whose array has this shape, where that is free.
#[tactic(auto, using(crate::proofs::FoundLemmas::least_with_laws))]
fn test_permute(before: Option<&Shape>, own: Option<&Shape>, line: &Line, breaches: &mut Breaches)
    ensures { breaches.new ≡ least_with breaches.old
        (permute_breaches (option_copied before.entry) (option_copied own.entry) line.now) }
{
    if let Some(own) = own {
        test_entries(own, &line.array, &line.permute, breaches);
        let agrees = agrees(before, own, &line.permute);
        breaches.note_if(!agrees, Constraint::Pipeline, line.array.at);
    }
}

/// The shape of the array of the line before, where there is one.
fn shape_behind<'a>(names: &'a Names, array: &Option<Word>) -> Option<&'a Shape>
    ensures { option_copied result ≡ shape_behind names.now array.now }
{
    match array {
        Some(word) => shape_of(names, Role::Array, word),
        None => None,
    }
}

/// A STAGE line: that an INPUT line stands before it, and PERMUTE with the extents.
#[tactic(auto, using(crate::proofs::FoundLemmas::least_with_laws))]
fn test_follower(names: &Names, behind: &Behind, line: &Line, breaches: &mut Breaches)
    ensures { breaches.new ≡ least_with breaches.old (follower_breaches names.now behind.now line.now) }
{
    breaches.note_if(!behind.led, Constraint::Pipeline, line.array.at);
    let own = shape_of(names, Role::Array, &line.array.word);
    test_permute(shape_behind(names, &behind.array), own, line, breaches);
}

/// A line, beside those in front of it.
#[tactic(auto, using(crate::proofs::FoundLemmas::least_with_laws), unfolding(crate::specs::Stages::line_breaches))]
fn test_line(names: &Names, behind: &Behind, line: &Line, breaches: &mut Breaches)
    ensures { breaches.new ≡ least_with breaches.old (line_breaches names.now behind.now line.now) }
{
    if line.follows {
        test_follower(names, behind, line, breaches);
    }
    test_buffers(&line.buffers, breaches);
}

/// All lines, each beside those in front of it.
#[tactic(auto, using(crate::proofs::FoundLemmas::least_with_laws))]
pub(crate) fn test_lines(names: &Names, lines: &[Line], breaches: &mut Breaches)
    ensures { breaches.new ≡ least_with breaches.old
        (threaded after_line (line_breaches names.now) nothing_behind lines.now) }
{
    let mut behind = nothing_behind();
    for line in lines {
        test_line(names, &behind, line, breaches);
        behind = after_line(behind, line);
    }
}
