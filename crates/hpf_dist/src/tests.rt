//! Worked rows.

mod shares;

ghost use Rattle.std.specs.Prelude.{◌≡◌, All, IfOk, pos, ◌+ℤ◌};
ghost use Rattle.hpf_dist.specs.Condition.{HasSmallNumbers};
ghost use Rattle.hpf_dist.specs.Spread.{IsPosition, spread};

use super::*;
use Comes::{Owned, Refused};
use std::alloc::{AllocError, Global};
use std::test::Fail;

/// How a row's dimension is divided.
enum By {
    Block(u8),
    Cyclic(u8),
    GenBlock(&'static [u32]),
    Indirect(&'static [u32]),
}

/// What comes of it.
enum Comes {
    /// The owners of its positions, a digit each.
    Owned(&'static str),
    /// A refusal of this name.
    Refused(&'static str),
}

/// A lower bound, how many positions follow the one there, how many processors there are, and the rest.
struct Row(i8, u8, u8, By, Comes);

static ROWS: &[Row] = &[
    Row(1, 9, 4, By::Block(3), Owned("0001112223")),
    Row(1, 9, 4, By::Block(2), Refused("BlockTooSmall")),
    Row(1, 9, 4, By::Block(0), Refused("WidthZero")),
    Row(-4, 9, 4, By::Block(3), Owned("0001112223")),
    Row(-4, 8, 3, By::Block(2), Refused("BlockTooSmall")),
    Row(-4, 8, 3, By::Block(3), Owned("000111222")),
    Row(1, 2, 2, By::Block(5), Owned("000")),
    Row(1, 9, 3, By::Cyclic(2), Owned("0011220011")),
    Row(0, 4, 2, By::Cyclic(1), Owned("01010")),
    Row(-3, 6, 2, By::Cyclic(3), Owned("0001110")),
    Row(1, 2, 2, By::Cyclic(5), Owned("000")),
    Row(1, 9, 3, By::Cyclic(0), Refused("WidthZero")),
    Row(1, 9, 3, By::GenBlock(&[3, 0, 7]), Owned("0002222222")),
    Row(1, 9, 3, By::GenBlock(&[3, 0, 9]), Owned("0002222222")),
    Row(1, 9, 3, By::GenBlock(&[3, 0, 6]), Refused("LengthSum")),
    Row(1, 9, 3, By::GenBlock(&[3, 7]), Refused("LengthCount")),
    Row(1, 9, 3, By::GenBlock(&[3, 0, 7, 0]), Refused("LengthCount")),
    Row(0, 3, 3, By::GenBlock(&[0, 2, 2]), Owned("1122")),
    Row(1, 3, 4, By::GenBlock(&[1, 3, 0, 0]), Owned("0111")),
    Row(5, 3, 5, By::GenBlock(&[0, 1, 0, 3, 0]), Owned("1333")),
    Row(
        5,
        4,
        5,
        By::GenBlock(&[0, 1, 0, 3, 0]),
        Refused("LengthSum"),
    ),
    Row(
        1,
        2,
        2,
        By::GenBlock(&[4294967295, 4294967295]),
        Owned("000"),
    ),
    Row(1, 4, 2, By::Indirect(&[1, 0, 1, 1, 0]), Owned("10110")),
    Row(-1, 2, 3, By::Indirect(&[2, 2, 0]), Owned("220")),
    Row(
        1,
        4,
        2,
        By::Indirect(&[1, 0, 1, 2, 0]),
        Refused("PlaceValue"),
    ),
    Row(1, 4, 2, By::Indirect(&[1, 0, 1, 1]), Refused("PlaceCount")),
    Row(
        1,
        4,
        2,
        By::Indirect(&[1, 0, 1, 1, 0, 1]),
        Refused("PlaceCount"),
    ),
];

/// The row's format.
fn format_of(alloc: Global, by: &By) -> Result<Format, AllocError>
    ensures { IfOk result HasSmallNumbers }
{
    Ok(match by {
        By::Block(width) => Format::Block(u64::from(*width)),
        By::Cyclic(width) => Format::Cyclic(u64::from(*width)),
        By::GenBlock(lengths) => Format::GenBlock(Lengths::from_slice(alloc, lengths)?),
        By::Indirect(places) => Format::Indirect(Places::from_slice(alloc, places)?),
    })
}

/// Whether the owners of the positions from `low` to `low + further` are these digits.
fn are_owners(axis: &Axis, low: i8, further: u8, digits: &str) -> bool
    requires low { axis.now.low ≡ low }
    requires high { axis.now.high ≡ low +ℤ pos further }
{
    let extent = u16::from(further) + 1;
    let digits = digits.as_bytes();
    for k in 0..extent {
        let owner = axis.owner(i64::from(low) + i64::from(k));
        match digits.get(usize::from(k)) {
            Some(digit) if u64::from(owner) + 48 == u64::from(*digit) => {}
            _ => return false,
        }
    }
    digits.len() == usize::from(extent)
}

/// Whether what comes of the row is what it says.
fn holds(alloc: Global, row: &Row) -> Result<bool, AllocError> {
    let Row(low, further, procs, by, comes) = row;
    let procs = u32::from(*procs);
    if procs < 1 || procs > 64 {
        return Ok(false);
    }
    let from = i64::from(*low);
    let to = from + i64::from(*further);
    let axis = Axis::new(alloc, from, to, procs, format_of(alloc, by)?);
    Ok(match (&axis, comes) {
        (Ok(axis), Owned(owners)) => are_owners(axis, *low, *further, owners),
        (Err(refusal), Refused(name)) => name_of(refusal) == *name,
        _ => false,
    })
}

fn name_of(refusal: &AxisRefusal) -> &'static str {
    match refusal {
        AxisRefusal::BlockTooSmall => "BlockTooSmall",
        AxisRefusal::WidthZero => "WidthZero",
        AxisRefusal::LengthCount => "LengthCount",
        AxisRefusal::LengthSum => "LengthSum",
        AxisRefusal::PlaceCount => "PlaceCount",
        AxisRefusal::PlaceValue => "PlaceValue",
        AxisRefusal::Memory(_) => "Memory",
    }
}

#[test]
fn rows(rt: HostRuntime) -> Result<(), Fail> {
    for (i, row) in ROWS.iter().enumerate() {
        assert!(rt; holds(rt.alloc(), row)?, "row {i}");
    }
    Ok(())
}

#[test]
fn lists(rt: HostRuntime) -> Result<(), Fail> {
    let lengths = Lengths::from_slice(rt.alloc(), &[3, 0, 7])?;
    assert_eq!(rt; lengths.as_slice(), [3, 0, 7].as_slice());
    let places = Places::from_slice(rt.alloc(), &[1, 0])?;
    assert_eq!(rt; places.as_slice(), [1, 0].as_slice());
    Ok(())
}

#[test]
fn even_widths(rt: HostRuntime) {
    assert_eq!(rt; even_width(10, 4), 3);
    assert_eq!(rt; even_width(9, 4), 3);
    assert_eq!(rt; even_width(8, 4), 2);
    assert_eq!(rt; even_width(1, 64), 1);
}

/// Which of four coordinates own one of these positions.
fn coordinates(axis: &Axis, first: i64, step: i64, count: u64) -> [bool; 4]
    requires positions { All (IsPosition axis.now) (spread first step count) }
{
    [
        axis.owns_any(0, first, step, count),
        axis.owns_any(1, first, step, count),
        axis.owns_any(2, first, step, count),
        axis.owns_any(3, first, step, count),
    ]
}

#[test]
fn owns_any(rt: HostRuntime) -> Result<(), Fail> {
    let axis = Axis::new(rt.alloc(), 1, 10, 4, Format::Block(3))?;
    let upwards = coordinates(&axis, 1, 4, 3);
    let downwards = coordinates(&axis, 10, -6, 2);
    let one = coordinates(&axis, 7, 0, 5);
    let none = coordinates(&axis, 7, 1, 0);
    assert_eq!(rt; upwards, [true, true, true, false]);
    assert_eq!(rt; downwards, [false, true, false, true]);
    assert_eq!(rt; one, [false, false, true, false]);
    assert_eq!(rt; none, [false, false, false, false]);
    Ok(())
}
