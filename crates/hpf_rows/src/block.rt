//! The blocks of a table.

use crate::line::Line;
use crate::series::Series;
use anyhow::{Context, Result};
use std::alloc::Global;

/// What a block is.
#[derive(Clone, Copy, Debug)]
pub enum Kind {
    /// Bytes that have a name.
    Text,
    /// What the call is given.
    Row,
    /// What the call is given over ends that can't fail.
    Sure,
    /// A question and its answer, in one line.
    Question,
}

impl Kind {
    /// What this word begins, if it begins a block.
    fn begun_by(head: &str) -> Option<Kind> {
        match head {
            "text" => Some(Kind::Text),
            "row" => Some(Kind::Row),
            "sure" => Some(Kind::Sure),
            "ending" | "asks" | "tokens" | "statements" | "places" | "canonical" => {
                Some(Kind::Question)
            }
            "names" | "mapping" | "pipeline" | "owners" | "held" | "counts" | "stages" => {
                Some(Kind::Question)
            }
            "word"
            | "message"
            | "last"
            | "printed"
            | "chain"
            | "cycle"
            | "steep"
            | "list"
            | "part" => Some(Kind::Question),
            _ => None,
        }
    }
}

/// What is due of a row, or of those of its runs that a series has.
#[derive(Drop)]
pub struct Due<'a> {
    pub runs: Option<Series<'a>>,
    pub lines: Vec<Line<'a>>,
}

/// A line that begins a block, the lines below it, and what is due.
#[derive(Drop)]
pub struct Block<'a> {
    pub kind: Kind,
    pub head: &'a str,
    pub name: &'a str,
    pub lines: Vec<Line<'a>>,
    pub dues: Vec<Due<'a>>,
}

/// The blocks of a table, in their order.
pub fn blocks(alloc: Global, table: &str) -> Result<Vec<Block<'_>>> {
    let mut blocks = Vec::new(alloc);
    for (index, text) in table.lines().enumerate() {
        let number = index.saturating_add(1);
        if let Some(line) = Line::read(number, text) {
            add(alloc, &mut blocks, line).context(format_args!("line {number}"))?;
        }
    }
    Ok(blocks)
}

/// Adds a line, which begins a block or belongs to the last one.
fn add<'a>(alloc: Global, blocks: &mut Vec<Block<'a>>, line: Line<'a>) -> Result<()> {
    match Kind::begun_by(line.head) {
        Some(kind) => blocks.push(Block {
            kind,
            head: line.head,
            name: line.rest,
            lines: Vec::new(alloc),
            dues: Vec::new(alloc),
        })?,
        None => {
            let last = blocks.last_mut().context("no block has begun")?;
            last.add(alloc, line)?;
        }
    }
    Ok(())
}

impl<'a> Block<'a> {
    /// Adds a line, which says what is due from the first `gives` on.
    fn add(&mut self, alloc: Global, line: Line<'a>) -> Result<()> {
        if line.head == "gives" {
            let runs = runs_of(alloc, line)?;
            self.dues.push(Due {
                runs,
                lines: Vec::new(alloc),
            })?;
        } else if let Some(due) = self.dues.last_mut() {
            due.lines.push(line)?;
        } else {
            self.lines.push(line)?;
        }
        Ok(())
    }
}

/// The runs that a line `gives` speaks of, where it doesn't speak of all.
fn runs_of<'a>(alloc: Global, line: Line<'a>) -> Result<Option<Series<'a>>> {
    match line.rest.strip_prefix("for ") {
        Some(numbers) => Ok(Some(Series::read(alloc, numbers)?)),
        None => Ok(None),
    }
}
