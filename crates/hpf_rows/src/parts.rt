//! Mappings that are made by hand, with what their processors own or hold.

ghost use Rattle.std.specs.Prelude.{◌≡◌, IfOk, pos};
ghost use Rattle.hpf_dist.specs.Axis.{AreBounds, AreProcs};
ghost use Rattle.hpf_dist.specs.Condition.{HasSmallNumbers};
ghost use Rattle.hpf_own.specs.declared.image.Image.TheVariants.{Along};
ghost use Rattle.hpf_own.specs.Mapping.{AreInLimits, IsSmallWidth, HasSmallCoefficients, StaysWithin};
ghost use Rattle.hpf_rows.specs.Parts.{up_to, over};

use anyhow::{Context, Result, bail};
use hpf_dist::{Axis, AxisRefusal, Format, Lengths, Places};
use hpf_num::Run;
use hpf_own::{BaseDim, BaseDims, Bounds, Cut, Held, Image, Mapping, Sizes, Width, Widths};
use std::alloc::{AllocError, Global};

/// `A(extent)`, whose element `I` lies at `T(a * I + b)`, where `T(high)` is divided over `P(procs)`.
#[derive(Clone, Copy)]
struct Line {
    extent: i64,
    a: i64,
    b: i64,
    high: i64,
    procs: u32,
}

/// No shadow.
const NONE: Width = Width { low: 0, high: 0 };

/// What a processor owns or holds under a mapping: `owned cyclic 0`.
pub fn answer(alloc: Global, question: &str) -> Result<String> {
    let (kind, rest) = question.split_once(' ').context("no mapping")?;
    let (name, processor) = rest.rsplit_once(' ').context("no processor")?;
    let mapping = named(alloc, name)?;
    let p = processor.parse::<u32>()?;
    if p >= mapping.procs() {
        return Ok(String::from_str(alloc, "no processor")?);
    }
    match kind {
        "owned" => elements(alloc, &mapping.owned(alloc, p)?),
        _ => elements(alloc, &mapping.held(alloc, p)?),
    }
}

/// The mapping of this name.
fn named(alloc: Global, name: &str) -> Result<Mapping> {
    match name {
        "cyclic" => cyclic(alloc),
        "lengths" => lengths(alloc),
        "places" => places(alloc),
        "strided" => strided(alloc),
        "shadow" => shadow(alloc),
        "corners" => square(alloc),
        _ => bail!("no mapping has this name"),
    }
}

/// `A(10)` in blocks of two, dealt to three processors in turn.
fn cyclic(alloc: Global) -> Result<Mapping> {
    mapping_of(alloc, straight(10, 3), Format::Cyclic(2), NONE)
}

/// `A(10)` in a block for each of three processors, one of them empty.
fn lengths(alloc: Global) -> Result<Mapping> {
    let lengths = Lengths::from_slice(alloc, &[3, 0, 7])?;
    mapping_of(alloc, straight(10, 3), Format::GenBlock(lengths), NONE)
}

/// `A(5)` with a processor for each element.
fn places(alloc: Global) -> Result<Mapping> {
    let places = Places::from_slice(alloc, &[1, 0, 1, 1, 0])?;
    mapping_of(alloc, straight(5, 2), Format::Indirect(places), NONE)
}

/// `A(5)` at every other position of blocks of three, dealt to two processors in turn.
fn strided(alloc: Global) -> Result<Mapping> {
    let line = Line {
        extent: 5,
        a: 2,
        b: -1,
        high: 9,
        procs: 2,
    };
    mapping_of(alloc, line, Format::Cyclic(3), NONE)
}

/// `A(10)` in a block for each of four processors, with more of its neighbour's above it than below.
fn shadow(alloc: Global) -> Result<Mapping> {
    let width = Width { low: 1, high: 2 };
    mapping_of(alloc, straight(10, 4), Format::Block(3), width)
}

/// An array whose elements lie one at each position.
fn straight(extent: i64, procs: u32) -> Line
    ensures { result ≡ record { extent = extent; a = pos 1; b = pos 0; high = extent; procs = procs } }
{
    Line {
        extent,
        a: 1,
        b: 0,
        high: extent,
        procs,
    }
}

/// The mapping of an array, whose base is divided so.
fn mapping_of(alloc: Global, line: Line, format: Format, width: Width) -> Result<Mapping>
    requires limits { AreInLimits (up_to line.extent) }
    requires bounds { AreBounds (pos 1) line.high }
    requires procs { AreProcs line.procs }
    requires numbers { HasSmallNumbers format }
    requires width { IsSmallWidth width }
    requires coefficients { HasSmallCoefficients (Along 0 line.a line.b) }
    requires within { StaysWithin (up_to line.extent) (Along 0 line.a line.b) (over 0 line.high line.procs format) }
{
    let image = Image::Along {
        dim: 0,
        a: line.a,
        b: line.b,
    };
    let mut dims = BaseDims::new(alloc);
    dims.push(
        alloc,
        divided(alloc, image, 0, line.high, line.procs, format)?,
    )?;
    let run = Run {
        low: 1,
        high: line.extent,
    };
    let bounds = Bounds::new(&[run]).context("bounds")?;
    let procs = Sizes::new(&[line.procs]).context("sizes")?;
    let shadow = Widths::new(&[width]).context("widths")?;
    Ok(Mapping::new(bounds, dims, procs, shadow))
}

/// `A(4,4)` by blocks of two in both dimensions over `P(2,2)`, with a shadow of width 1 on each side.
fn square(alloc: Global) -> Result<Mapping> {
    let rows = Image::Along { dim: 0, a: 1, b: 0 };
    let columns = Image::Along { dim: 1, a: 1, b: 0 };
    let mut dims = BaseDims::new(alloc);
    dims.push(alloc, divided(alloc, rows, 0, 4, 2, Format::Block(2))?)?;
    dims.push(alloc, divided(alloc, columns, 1, 4, 2, Format::Block(2))?)?;
    let run = Run { low: 1, high: 4 };
    let width = Width { low: 1, high: 1 };
    let bounds = Bounds::new(&[run, run]).context("bounds")?;
    let procs = Sizes::new(&[2, 2]).context("sizes")?;
    let shadow = Widths::new(&[width, width]).context("widths")?;
    Ok(Mapping::new(bounds, dims, procs, shadow))
}

/// A dimension of a base, with positions from 1 on, that is divided so over dimension `dim` of the arrangement.
fn divided(
    alloc: Global,
    image: Image,
    dim: u32,
    high: i64,
    procs: u32,
    format: Format,
) -> Result<BaseDim>
    requires bounds { AreBounds (pos 1) high }
    requires procs { AreProcs procs }
    requires numbers { HasSmallNumbers format }
    ensures { IfOk result (λ d. d ≡ record { image = image; cut = over dim high procs format }) }
{
    match Axis::new(alloc, 1, high, procs, format) {
        Ok(axis) => Ok(BaseDim {
            image,
            cut: Cut::Over { dim, axis },
        }),
        Err(AxisRefusal::Memory(error)) => Err(error.into()),
        Err(refusal) => bail!("a format that is refused: {refusal:?}"),
    }
}

/// How many elements there are, and the index of each one with its place.
fn elements(alloc: Global, part: &Held) -> Result<String> {
    let mut told = format!(in alloc; "{}:", part.count())?;
    for k in 0..part.count() {
        let mut index = vec![in alloc; 0; part.rank() as usize]?;
        part.nth(k, &mut index);
        let place = part.place(&index).context("an element without a place")?;
        push_index(&index, &mut told)?;
        write!(told, "@{place}")?;
    }
    Ok(told)
}

/// Adds an index, behind a space.
pub fn push_index(index: &[i64], to: &mut String) -> Result<(), AllocError> {
    for (d, subscript) in index.iter().enumerate() {
        to.push(if d == 0 { ' ' } else { ',' })?;
        write!(to, "{subscript}")?;
    }
    Ok(())
}
