//! What is due of a run, as text in the form in which what came of it is told.

use crate::answer::push_given;
use crate::block::Due;
use crate::line::{Line, cut};
use crate::piece::push_piece;
use crate::scope::Scope;
use anyhow::{Context, Result, bail};
use std::alloc::Global;

/// What is due of the run of this scope: the first that speaks of it.
pub fn due_of(alloc: Global, dues: &[Due<'_>], scope: Scope<'_, '_>) -> Result<String> {
    for due in dues {
        let speaks = match &due.runs {
            Some(runs) => runs.has(scope.variables),
            None => true,
        };
        if speaks {
            return text_of(alloc, &due.lines, scope);
        }
    }
    bail!("nothing is due of a run");
}

/// What the lines say.
fn text_of(alloc: Global, lines: &[Line<'_>], scope: Scope<'_, '_>) -> Result<String> {
    let mut given = Given {
        sink: None,
        bytes: Vec::new(alloc),
    };
    let mut text = String::new(alloc);
    for line in lines {
        let taken = push_line(alloc, *line, scope, &mut given, &mut text);
        taken.context(format_args!("line {}", line.number))?;
    }
    given.close(alloc, &mut text)?;
    Ok(text)
}

/// What the sink of the line before is due.
#[derive(Drop)]
struct Given<'a> {
    sink: Option<&'a str>,
    bytes: Vec<u8>,
}

impl Given<'_> {
    /// Adds what was gathered.
    fn close(&mut self, alloc: Global, text: &mut String) -> Result<()> {
        if let Some(sink) = self.sink {
            push_given(alloc, sink, &self.bytes, text)?;
        }
        self.sink = None;
        self.bytes.clear();
        Ok(())
    }
}

/// Adds a line, or gathers what a sink is due.
fn push_line<'a>(
    alloc: Global,
    line: Line<'a>,
    scope: Scope<'_, '_>,
    given: &mut Given<'a>,
    text: &mut String,
) -> Result<()> {
    let (first, words) = cut(line.rest);
    match (line.head, first) {
        ("status" | "load", _) | ("input" | "out" | "notes", "failed") => {
            given.close(alloc, text)?;
            writeln!(text, "{} {}", line.head, line.rest)?;
            Ok(())
        }
        ("input", "left") => {
            given.close(alloc, text)?;
            writeln!(text, "input left {}", scope.number(words)?)?;
            Ok(())
        }
        ("out" | "notes", _) => {
            given.close(alloc, text)?;
            given.sink = Some(line.head);
            if line.rest.is_empty() {
                return Ok(());
            }
            push_piece(alloc, scope, first, words, &mut given.bytes)
        }
        _ => push_piece(alloc, scope, line.head, line.rest, &mut given.bytes),
    }
}
