//! A row of the table, which is run once, or once for each choice of the numbers of its series.

use crate::answer::text_of;
use crate::block::Block;
use crate::due::due_of;
use crate::given::Given;
use crate::run::run;
use crate::scope::{Named, Scope, Variable};
use crate::series::{Series, runs_of, variables_of};
use anyhow::{Context, Result};
use std::alloc::{AllocError, Global};

/// What came of the runs of a row and isn't due: nothing, where all are right.
pub fn row_differences<'a>(alloc: Global, row: &Block<'a>, texts: &[Named<'a>]) -> Result<String> {
    let mut differences = String::new(alloc);
    let series = series_of(alloc, row)?;
    for number in 0..runs_of(&series)? {
        let variables = variables_of(alloc, &series, number)?;
        let scope = Scope {
            texts,
            variables: &variables,
        };
        let added = push_run(alloc, row, scope, &mut differences);
        added.context(format_args!("row {}", row.name))?;
    }
    Ok(differences)
}

/// Adds what came of a run, where it isn't due.
fn push_run<'a>(
    alloc: Global,
    row: &Block<'a>,
    scope: Scope<'a, '_>,
    differences: &mut String,
) -> Result<()> {
    let given = Given::read(alloc, &row.lines, scope)?;
    let came = text_of(alloc, &run(alloc, &given)?)?;
    let due = due_of(alloc, &row.dues, scope)?;
    if came.as_str() != due.as_str() {
        write!(differences, "row {}", row.name)?;
        push_variables(scope.variables, differences)?;
        write!(differences, "\ncame\n{came}due\n{due}")?;
    }
    Ok(())
}

/// The series of a row's lines.
fn series_of<'a>(alloc: Global, row: &Block<'a>) -> Result<Vec<Series<'a>>> {
    let mut all = Vec::new(alloc);
    for line in &row.lines {
        if line.head == "for" {
            let series = Series::read(alloc, line.rest);
            all.push(series.context(format_args!("line {}", line.number))?)?;
        }
    }
    Ok(all)
}

/// Adds each variable and its number.
fn push_variables(variables: &[Variable], to: &mut String) -> Result<(), AllocError> {
    for variable in variables {
        write!(to, ", {} {}", variable.name, variable.number)?;
    }
    Ok(())
}
