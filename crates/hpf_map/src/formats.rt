//! What is asked of the format of one dimension.

ghost use Rattle.std.specs.Prelude.{◌≡◌, ◌++◌, int_lt, map, option_map, option_copied};
ghost use Rattle.std.specs.List.{list_any, sum};
ghost use Rattle.hpf_num.specs.Run.{or_zero};
ghost use Rattle.hpf_syntax.specs.Plain.{format_tree};
ghost use Rattle.hpf_map.specs.Alignments.{is_beyond};
ghost use Rattle.hpf_map.specs.Constraint.{breach_if};
ghost use Rattle.hpf_map.specs.Formats.{meaning_list, list_of, has_no_position, falls_short, differs, has_negative, lengths_fall_short, has_stray, condition_breaches};
ghost use Rattle.hpf_map.specs.Found.{least_with};
ghost use Rattle.hpf_map.specs.Shapes.{extent};
ghost use Rattle.hpf_map.specs.declared.constraint.Constraint.TheVariants.{LengthCount, NegativeLength, LengthSum};

use crate::breaches::Breaches;
use crate::constraint::Constraint;
use crate::name::{Meaning, Span, Values};
use crate::names::Names;
use crate::role::Role;
use crate::shapes::extent;
use crate::spaces::used_as;
use hpf_lex::Word;
use hpf_syntax::{At, FormatItem};

/// The values of a named constant with a shape, where it is free.
fn meaning_list(meaning: &Meaning) -> Option<&Values>
    ensures { option_copied result ≡ meaning_list meaning.now }
{
    match meaning {
        Meaning::List(values) => values.as_ref(),
        Meaning::Scalar | Meaning::Shaped(..) | Meaning::Constant(_) => None,
    }
}

/// The values of the constant that a word is in GEN_BLOCK or INDIRECT, where neither the use nor the constant has a breach.
pub(crate) fn list_of<'a>(names: &'a Names, word: &Word) -> Option<&'a Values>
    ensures { option_copied result ≡ list_of names.now word.now }
{
    match used_as(names, Role::List, word) {
        Some(name) => meaning_list(&name.meaning),
        None => None,
    }
}

/// Whether a width is below 1.
fn has_no_position(width: Option<i32>) -> bool
    ensures { result ≡ has_no_position width }
{
    match width {
        Some(width) => width < 1,
        None => false,
    }
}

/// Whether blocks of a width from 1 on are shorter than the dimension, all together.
fn falls_short(width: Option<i32>, positions: Option<u64>, procs: Option<&Span>) -> bool
    ensures { result ≡ falls_short width positions (option_copied procs.entry) }
{
    match (width, positions, procs) {
        (Some(width), Some(positions), Some(procs)) => {
            1 <= width && i128::from(width) * i128::from(extent(procs)) < i128::from(positions)
        }
        _ => false,
    }
}

/// Whether there is another number of values than this.
fn differs(values: Option<&Values>, count: Option<u64>) -> bool
    ensures { result ≡ differs (option_copied values.entry) count }
{
    match (values, count) {
        (Some(values), Some(count)) => values.as_slice().len() as u64 != count,
        _ => false,
    }
}

/// Whether some value is negative.
fn has_negative(values: Option<&Values>) -> bool
    ensures { result ≡ has_negative (option_copied values.entry) }
{
    match values {
        Some(values) => values.begins_below(0),
        None => false,
    }
}

/// The sum of values, where a negative one counts as 0.
fn sum(values: &[i32]) -> u128
    ensures { result ≡ sum (map or_zero values.now) }
{
    let mut sum = 0u128;
    for value in values {
        sum += u128::from(or_zero(*value));
    }
    sum
}

/// A value, or 0 where it is negative.
pub(crate) fn or_zero(value: i32) -> u32
    ensures { result ≡ or_zero value }
{
    value.max(0).unsigned_abs()
}

/// Whether there is a length for each processor and none is negative, but together they are shorter than the dimension.
fn lengths_fall_short(values: Option<&Values>, positions: Option<u64>, procs: Option<&Span>) -> bool
    ensures { result ≡ lengths_fall_short (option_copied values.entry) positions (option_copied procs.entry) }
{
    match (values, positions, procs) {
        (Some(values), Some(positions), Some(procs)) => {
            values.as_slice().len() as u64 == extent(procs)
                && !values.begins_below(0)
                && sum(values.as_slice()) < u128::from(positions)
        }
        _ => false,
    }
}

/// Whether some value lies below these bounds.
fn has_below(values: &Values, bounds: &Span) -> bool
    ensures { result ≡ list_any (λ v. int_lt v bounds.now.low) values.now }
{
    values.begins_below(bounds.low)
}

/// Whether some value lies above these bounds.
fn has_above(values: &Values, bounds: &Span) -> bool
    ensures { result ≡ list_any (λ v. int_lt bounds.now.high v) values.now }
{
    values.ends_above(bounds.high)
}

/// Whether some value lies outside these bounds.
fn has_beyond(values: &Values, bounds: &Span) -> bool
    ensures { result ≡ list_any (is_beyond bounds.now) values.now }
{
    has_below(values, bounds) || has_above(values, bounds)
}

/// Whether a value lies outside the bounds of the dimension of the arrangement.
fn has_stray(values: Option<&Values>, procs: Option<&Span>) -> bool
    ensures { result ≡ has_stray (option_copied values.entry) (option_copied procs.entry) }
{
    match (values, procs) {
        (Some(values), Some(procs)) => has_beyond(values, procs),
        _ => false,
    }
}

/// The breaches of lengths.
#[tactic(auto, using(crate::proofs::FoundLemmas::least_with_laws))]
fn test_lengths(
    at: At,
    lengths: Option<&Values>,
    positions: Option<u64>,
    procs: Option<&Span>,
    breaches: &mut Breaches,
)
    ensures { breaches.new ≡ least_with breaches.old
        (breach_if (differs (option_copied lengths.entry) (option_map extent (option_copied procs.entry))) LengthCount at
        ++ breach_if (has_negative (option_copied lengths.entry)) NegativeLength at
        ++ breach_if (lengths_fall_short (option_copied lengths.entry) positions (option_copied procs.entry)) LengthSum at) }
{
    breaches.note_if(
        differs(lengths, procs.map(extent)),
        Constraint::LengthCount,
        at,
    );
    breaches.note_if(has_negative(lengths), Constraint::NegativeLength, at);
    breaches.note_if(
        lengths_fall_short(lengths, positions, procs),
        Constraint::LengthSum,
        at,
    );
}

/// The breaches of the format of one dimension: the value of its width, the number of positions and the dimension of the
/// arrangement are there where they are free.
#[tactic(auto, using(crate::proofs::FoundLemmas::least_with_laws), unfolding(crate::specs::Formats::condition_breaches))]
pub(crate) fn test_format(
    names: &Names,
    format: &FormatItem,
    width: Option<i32>,
    positions: Option<u64>,
    procs: Option<&Span>,
    breaches: &mut Breaches,
)
    ensures { breaches.new ≡ least_with breaches.old
        (condition_breaches names.now (format_tree format.now) width positions (option_copied procs.entry)) }
{
    match format {
        FormatItem::Star(_) => {}
        FormatItem::Block(at, _) => {
            breaches.note_if(has_no_position(width), Constraint::WidthZero, *at);
            let short = falls_short(width, positions, procs);
            breaches.note_if(short, Constraint::BlockTooSmall, *at);
        }
        FormatItem::Cyclic(at, _) => {
            breaches.note_if(has_no_position(width), Constraint::WidthZero, *at);
        }
        FormatItem::GenBlock(at, name) => {
            let lengths = list_of(names, &name.word);
            test_lengths(*at, lengths, positions, procs, breaches);
        }
        FormatItem::Indirect(at, name) => {
            let places = list_of(names, &name.word);
            breaches.note_if(differs(places, positions), Constraint::PlaceCount, *at);
            breaches.note_if(has_stray(places, procs), Constraint::PlaceValue, *at);
        }
    }
}
