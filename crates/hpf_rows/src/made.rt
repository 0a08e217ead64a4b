//! Texts that are made, since they are too long to write.

use crate::reading::{judge, judged, owners};
use crate::text::push_names;
use anyhow::Result;
use hpf_map::Need;
use std::alloc::{AllocError, Global};

/// How many values a long list has.
const LONG: u32 = 100000;

/// The answer to what is asked of a text that is made.
pub fn answer(alloc: Global, head: &str, question: &str) -> Result<String> {
    let (front, number) = question.rsplit_once(' ').unwrap_or(("", question));
    let number = number.parse::<u32>()?;
    match head {
        "chain" => chain(alloc, number),
        "cycle" => cycle(alloc, number),
        "steep" => steep(alloc, number),
        _ => {
            let text = long_list(alloc, front, number)?;
            Ok(judged(alloc, judge(alloc, &text, Need::Mapping))?)
        }
    }
}

/// The owners of the first of so many arrays, each aligned with the next one and the last one distributed over four processors.
fn chain(alloc: Global, count: u32) -> Result<String> {
    let mut text = arrays(alloc, count, 8)?;
    push_alignments(&mut text, count, "", "")?;
    push_distribution(&mut text, count)?;
    owners(alloc, &text, "N1")
}

/// What comes of so many arrays where the last one is aligned with the first one, so that no one is distributed.
fn cycle(alloc: Global, count: u32) -> Result<String> {
    let mut text = arrays(alloc, count, 8)?;
    push_alignments(&mut text, count, "", "")?;
    writeln!(text, "!HPF$ ALIGN N{count} WITH N1")?;
    Ok(judged(alloc, judge(alloc, &text, Need::Mapping))?)
}

/// The owners of the first array of a chain whose coefficients, multiplied, are far above any number that is computed with.
fn steep(alloc: Global, count: u32) -> Result<String> {
    let mut text = arrays(alloc, count, 1)?;
    push_alignments(&mut text, count, "(I)", "(2147483647*I-2147483646)")?;
    push_distribution(&mut text, count)?;
    owners(alloc, &text, "N1")
}

/// A text that distributes an array by a long list so many times.
fn long_list(alloc: Global, format: &str, times: u32) -> Result<String, AllocError> {
    let mut text = String::new(alloc);
    write!(
        text,
        "INTEGER A({LONG})\nINTEGER, PARAMETER :: V({LONG}) = (/ 1"
    )?;
    for _ in 1..LONG {
        text.push_str(", 2")?;
    }
    writeln!(text, " /)\n!HPF$ PROCESSORS P(2)")?;
    for _ in 0..times {
        writeln!(text, "!HPF$ DISTRIBUTE A({format}(V))")?;
    }
    Ok(text)
}

/// A line that declares so many arrays of one size, `N1` and so on.
fn arrays(alloc: Global, count: u32, size: u32) -> Result<String, AllocError> {
    let mut text = String::new(alloc);
    write!(text, "INTEGER, DIMENSION({size}) :: ")?;
    push_names(&mut text, count)?;
    text.push('\n')?;
    Ok(text)
}

/// Adds lines that align each of the arrays with the next one.
fn push_alignments(
    text: &mut String,
    count: u32,
    sources: &str,
    subscripts: &str,
) -> Result<(), AllocError> {
    for i in 1..count {
        let next = i + 1;
        writeln!(text, "!HPF$ ALIGN N{i}{sources} WITH N{next}{subscripts}")?;
    }
    Ok(())
}

/// Adds lines that distribute an array over four processors.
fn push_distribution(text: &mut String, array: u32) -> Result<(), AllocError> {
    writeln!(text, "!HPF$ PROCESSORS P(4)")?;
    writeln!(text, "!HPF$ DISTRIBUTE N{array}(BLOCK) ONTO P")
}
