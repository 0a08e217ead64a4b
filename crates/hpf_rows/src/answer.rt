//! What came of a run, printed.

use crate::bytes::push_bytes;
use crate::run::Answer;
use crate::watched::Watched;
use anyhow::{Context, Result, ensure};
use hpf_cmd::{Status, status_line};
use hpf_io::MemSink;
use std::alloc::Global;

/// More than the longest line of a status.
const LINE: usize = 1000;

/// The lines that tell what came of a run.
pub fn text_of(alloc: Global, answer: &Answer) -> Result<String> {
    let mut text = String::new(alloc);
    push_status(alloc, &answer.status, &mut text)?;
    for load in &answer.loads {
        let (name, limit) = (load.name.as_str(), load.limit);
        let end = if load.is_failed { " failed" } else { "" };
        writeln!(text, "load {name:?} limit {limit}{end}")?;
    }
    if tells_left(&answer.status) {
        writeln!(text, "input left {}", answer.left)?;
    }
    push_failed("input", answer.failed_reads, &mut text)?;
    push_sink(alloc, "out", &answer.out, &mut text)?;
    push_sink(alloc, "notes", &answer.notes, &mut text)?;
    Ok(text)
}

/// Adds the number of a status, and the line that tells it where there is one.
pub fn push_status(alloc: Global, status: &Status, text: &mut String) -> Result<()> {
    let mut line = MemSink::new(alloc, LINE, LINE, &[])?;
    ensure!(
        status_line(status, &mut line).is_ok(),
        "no room for the line"
    );
    let line = str::from_utf8(line.bytes())
        .ok()
        .context("the line is no text")?;
    let number = status.number();
    match line.strip_suffix('\n') {
        Some(line) => writeln!(text, "status {number} {line}")?,
        None => writeln!(text, "status {number}{line}")?,
    }
    Ok(())
}

/// Where the input is refused or a write fails, it is left open how much of the input was read by then.
fn tells_left(status: &Status) -> bool {
    !matches!(status, Status::InputRefused { .. } | Status::WriteFault)
}

/// Adds what a sink was given, and how many of its calls failed.
fn push_sink(alloc: Global, name: &str, sink: &Watched<MemSink>, text: &mut String) -> Result<()> {
    push_given(alloc, name, sink.inner.bytes(), text)?;
    push_failed(name, sink.calls.failed, text)
}

/// Adds the bytes that a sink was given, if it was given any.
pub fn push_given(alloc: Global, name: &str, bytes: &[u8], text: &mut String) -> Result<()> {
    if !bytes.is_empty() {
        writeln!(text, "{name}")?;
        push_bytes(alloc, bytes, text)?;
    }
    Ok(())
}

/// Adds how many calls failed, if one did.
fn push_failed(name: &str, failed: usize, text: &mut String) -> Result<()> {
    if failed > 0 {
        writeln!(text, "{name} failed {failed}")?;
    }
    Ok(())
}
