//! The numbers that a row is run for.

ghost use Rattle.std.specs.Prelude.{◌<◌, vec_len};

use crate::scope::Variable;
use anyhow::{Context, Result, ensure};
use std::alloc::Global;

/// The most runs of a row.
const MOST_RUNS: usize = 10_000;

/// A variable of a row, and the numbers that it stands for, one after another.
#[derive(Drop)]
pub struct Series<'a> {
    name: &'a str,
    numbers: Vec<u64>,
    ghost some: { 0 < vec_len numbers },
}

impl<'a> Series<'a> {
    /// The series of a line: a name, and numbers or ranges like `0..33`, which has its last number too.
    pub fn read(alloc: Global, line: &'a str) -> Result<Series<'a>> {
        let mut words = line.split_whitespace();
        let name = words.next().context("a variable has no name")?;
        let mut numbers = Vec::new(alloc);
        for word in words {
            push_range(word, &mut numbers).context(format_args!("no range: {word}"))?;
        }
        ensure!(!numbers.is_empty(), "{name} has no numbers");
        Ok(Series { name, numbers })
    }

    /// Whether the variable has one of these numbers in a run.
    pub fn has(&self, variables: &[Variable<'_>]) -> bool {
        variables.iter().any(|variable| {
            variable.name == self.name && self.numbers.contains(&variable.number)
        })
    }
}

/// Adds the numbers of a range.
fn push_range(word: &str, numbers: &mut Vec<u64>) -> Result<()> {
    let (first, last) = word.split_once("..").unwrap_or((word, word));
    for number in first.parse::<u64>()?..=last.parse::<u64>()? {
        ensure!(numbers.len() < MOST_RUNS, "too many numbers");
        numbers.push(number)?;
    }
    Ok(())
}

/// How many runs some series ask for: one of each choice of their numbers.
pub fn runs_of(all: &[Series]) -> Result<usize> {
    let mut runs = 1usize;
    for series in all {
        let more = runs.checked_mul(series.numbers.len());
        runs = more.context("too many runs")?;
    }
    ensure!(runs <= MOST_RUNS, "too many runs");
    Ok(runs)
}

/// The variables in a run, by its number from 0. The numbers of the last series change from run to run.
pub fn variables_of<'a>(
    alloc: Global,
    all: &[Series<'a>],
    run: usize,
) -> Result<Vec<Variable<'a>>> {
    let mut variables = Vec::new(alloc);
    let mut rest = run;
    for series in all.iter().rev() {
        let count = series.numbers.len();
        variables.insert(
            0,
            Variable {
                name: series.name,
                number: series.numbers[rest % count],
            },
        )?;
        rest /= count;
    }
    Ok(variables)
}
