//! How many rows of a table came out right.

use crate::block::{Block, Kind, blocks};
use crate::piece::push_piece;
use crate::question::differences_of;
use crate::row::row_differences;
use crate::scope::{Named, Scope};
use crate::sure::sure_differences;
use anyhow::{Context, Result};
use hpf_vectors::Table;
use std::alloc::Global;

/// Adds how many rows of each table came out right, and what differs. The texts of earlier tables may be named in later ones.
pub fn push_tables<'a>(
    alloc: Global,
    tables: &[Table],
    texts: &mut Vec<Named<'a>>,
    to: &mut String,
) -> Result<()> {
    for table in tables {
        push_table(alloc, *table, texts, to).context(table.title)?;
    }
    Ok(())
}

/// Adds how many rows of a table came out right, and what differs.
fn push_table<'a>(
    alloc: Global,
    table: Table,
    texts: &mut Vec<Named<'a>>,
    to: &mut String,
) -> Result<()> {
    let mut rows = 0usize;
    let mut right = 0usize;
    let mut others = String::new(alloc);
    for block in &blocks(alloc, table.rows)? {
        if matches!(block.kind, Kind::Text) {
            keep(alloc, block, texts)?;
            continue;
        }
        let differences = differences(alloc, block, texts)?;
        rows = rows.saturating_add(1);
        if differences.is_empty() {
            right = right.saturating_add(1);
        }
        others.push_str(&differences)?;
    }
    if rows > 0 {
        writeln!(to, "{}: {right} of {rows} rows", table.title)?;
    }
    to.push_str(&others)?;
    Ok(())
}

/// What came of a block and isn't due: nothing, where it is right.
fn differences<'a>(alloc: Global, block: &Block<'a>, texts: &[Named<'a>]) -> Result<String> {
    match block.kind {
        Kind::Text => Ok(String::new(alloc)),
        Kind::Row => row_differences(alloc, block, texts),
        Kind::Sure => sure_differences(alloc, block, texts),
        Kind::Question => differences_of(alloc, block.head, block.name),
    }
}

/// Keeps a text, whose pieces may name the texts before it.
fn keep<'a>(alloc: Global, text: &Block<'a>, texts: &mut Vec<Named<'a>>) -> Result<()> {
    let bytes = bytes_of(alloc, text, texts)?;
    texts.push(Named {
        name: text.name,
        bytes,
    })?;
    Ok(())
}

fn bytes_of<'a>(alloc: Global, text: &Block<'a>, texts: &[Named<'a>]) -> Result<Vec<u8>> {
    let scope = Scope {
        texts,
        variables: &[],
    };
    let mut bytes = Vec::new(alloc);
    for line in &text.lines {
        let added = push_piece(alloc, scope, line.head, line.rest, &mut bytes);
        added.context(format_args!("line {}", line.number))?;
    }
    Ok(bytes)
}
