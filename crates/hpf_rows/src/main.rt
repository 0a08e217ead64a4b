//! Asks the questions of the tables of `hpf_vectors`, and makes the program's one call for each row of them over objects in
//! memory. Prints how many rows of each table came out as they should, and what differs:
//!
//! ```text
//! runs: 36 of 37 rows
//! row the map is empty            a row of which something else came
//! came
//! status 0
//! due
//! status 2 map refused 42 Pipeline at 1:1
//! ```
#![tactic(auto)]

mod answer;
mod asking;
mod block;
mod bytes;
mod due;
mod elements;
mod ending;
mod escape;
mod given;
mod held;
mod lexemes;
mod line;
mod long;
mod made;
mod parts;
mod piece;
mod question;
mod reading;
mod row;
mod run;
mod scope;
mod series;
mod stages;
mod sure;
mod tables;
mod tally;
mod text;
mod trees;
mod watched;
mod words;

use anyhow::Result;
use std::alloc::Global;
use tables::push_all;

/// Where a table can't be read, nothing but a message is printed.
fn main(rt: HostRuntime) -> Result<()> {
    let counts = counts(rt.alloc())?;
    rt.print(counts)?;
    Ok(())
}

/// How many rows of each table came out right.
fn counts(alloc: Global) -> Result<String> {
    let mut counts = String::new(alloc);
    push_all(alloc, &mut counts)?;
    Ok(counts)
}
