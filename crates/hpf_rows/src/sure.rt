//! Calls over ends in memory that are sure to do their part: such a call never stops before its end, but for want of memory.

use crate::answer::{push_given, push_status};
use crate::block::Block;
use crate::due::due_of;
use crate::given::Given;
use crate::scope::{Named, Scope};
use anyhow::{Context, Result};
use hpf_cmd::{Status, command_one};
use hpf_io::{MemLoader, MemSink, SureSink, SureSource};
use std::alloc::{AllocError, Global};

/// What came of a row over such ends and isn't due: nothing, where it is right.
pub fn sure_differences<'a>(alloc: Global, row: &Block<'a>, texts: &[Named<'a>]) -> Result<String> {
    let scope = Scope {
        texts,
        variables: &[],
    };
    let given = Given::read(alloc, &row.lines, scope)?;
    let came = ends_of(alloc, &given)?;
    let due = due_of(alloc, &row.dues, scope).context(format_args!("sure {}", row.name))?;
    let mut differences = String::new(alloc);
    if came.as_str() != due.as_str() {
        write!(differences, "sure {}\ncame\n{came}due\n{due}", row.name)?;
    }
    Ok(differences)
}

/// How a call ends over such ends: into sinks with the rooms of the row, and then into an out that never fails.
fn ends_of(alloc: Global, given: &Given<'_>) -> Result<String> {
    let mut text = String::new(alloc);
    let mut out = MemSink::new(alloc, given.out.room, given.out.step.get(), &[])?;
    let mut notes = notes_of(alloc, given)?;
    let status = command_one(
        alloc,
        &given.words,
        &mut loader(alloc, &given.files)?,
        &mut SureSource::new(alloc, &given.input.bytes)?,
        &mut out,
        &mut notes,
    );
    push_end(alloc, &status, out.bytes(), notes.bytes(), &mut text)?;

    let mut out = SureSink::new(alloc, given.out.room)?;
    let mut notes = notes_of(alloc, given)?;
    let status = command_one(
        alloc,
        &given.words,
        &mut loader(alloc, &given.files)?,
        &mut SureSource::new(alloc, &given.input.bytes)?,
        &mut out,
        &mut notes,
    );
    let bytes = out.bytes().context("out was given more than its room")?;
    push_end(alloc, &status, bytes, notes.bytes(), &mut text)?;
    Ok(text)
}

/// A loader that holds these files, of which no call fails.
fn loader(alloc: Global, files: &[Named<'_>]) -> Result<MemLoader, AllocError> {
    let mut texts = MemLoader::new(alloc, &[])?;
    for file in files {
        texts.add(alloc, file.name, &file.bytes)?;
    }
    Ok(texts)
}

/// Notes with the room of a row.
fn notes_of(alloc: Global, given: &Given<'_>) -> Result<MemSink, AllocError> {
    MemSink::new(alloc, given.notes.room, given.notes.step.get(), &[])
}

/// Adds a status, and what out and notes were given.
fn push_end(
    alloc: Global,
    status: &Status,
    out: &[u8],
    notes: &[u8],
    to: &mut String,
) -> Result<()> {
    push_status(alloc, status, to)?;
    push_given(alloc, "out", out, to)?;
    push_given(alloc, "notes", notes, to)
}
