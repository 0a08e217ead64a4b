//! All tables. Each group has a function of its own, since many literals in one function cost the prover much.

use crate::scope::Named;
use crate::tally::push_tables;
use anyhow::Result;
use hpf_vectors::{ASKED, CONSTRAINTS, ENDS, LINES, PARTS, RUNS, STAGES, STATEMENTS, TOKENS};
use std::alloc::Global;

/// Adds how many rows of each table came out right, and what differs.
pub fn push_all(alloc: Global, to: &mut String) -> Result<()> {
    let mut texts = Vec::new(alloc);
    push_tokens(alloc, &mut texts, to)?;
    push_statements(alloc, &mut texts, to)?;
    push_constraints(alloc, &mut texts, to)?;
    push_stages(alloc, &mut texts, to)?;
    push_parts(alloc, &mut texts, to)?;
    push_lines(alloc, &mut texts, to)?;
    push_asked(alloc, &mut texts, to)?;
    push_runs(alloc, &mut texts, to)?;
    push_ends(alloc, &mut texts, to)
}

fn push_tokens<'a>(alloc: Global, texts: &mut Vec<Named<'a>>, to: &mut String) -> Result<()> {
    push_tables(alloc, TOKENS, texts, to)
}

fn push_statements<'a>(alloc: Global, texts: &mut Vec<Named<'a>>, to: &mut String) -> Result<()> {
    push_tables(alloc, STATEMENTS, texts, to)
}

fn push_constraints<'a>(alloc: Global, texts: &mut Vec<Named<'a>>, to: &mut String) -> Result<()> {
    push_tables(alloc, CONSTRAINTS, texts, to)
}

fn push_stages<'a>(alloc: Global, texts: &mut Vec<Named<'a>>, to: &mut String) -> Result<()> {
    push_tables(alloc, STAGES, texts, to)
}

fn push_parts<'a>(alloc: Global, texts: &mut Vec<Named<'a>>, to: &mut String) -> Result<()> {
    push_tables(alloc, PARTS, texts, to)
}

fn push_lines<'a>(alloc: Global, texts: &mut Vec<Named<'a>>, to: &mut String) -> Result<()> {
    push_tables(alloc, LINES, texts, to)
}

fn push_asked<'a>(alloc: Global, texts: &mut Vec<Named<'a>>, to: &mut String) -> Result<()> {
    push_tables(alloc, ASKED, texts, to)
}

fn push_runs<'a>(alloc: Global, texts: &mut Vec<Named<'a>>, to: &mut String) -> Result<()> {
    push_tables(alloc, RUNS, texts, to)
}

fn push_ends<'a>(alloc: Global, texts: &mut Vec<Named<'a>>, to: &mut String) -> Result<()> {
    push_tables(alloc, ENDS, texts, to)
}
