//! A run of the call over objects in memory.

use crate::given::{Given, Sink};
use crate::watched::{Asked, Watched, WatchedLoader};
use hpf_cmd::{Status, command_one};
use hpf_io::{MemLoader, MemSink, MemSource};
use std::alloc::{AllocError, Global};

/// What came of a run.
#[derive(Drop)]
pub struct Answer {
    pub status: Status,
    /// The loads that were asked for.
    pub loads: Vec<Asked>,
    /// How many bytes of the input were left.
    pub left: usize,
    /// How many reads failed.
    pub failed_reads: usize,
    pub out: Watched<MemSink>,
    pub notes: Watched<MemSink>,
}

/// Calls with what is given.
pub fn run(alloc: Global, given: &Given<'_>) -> Result<Answer, AllocError> {
    let mut texts = loader(alloc, given)?;
    let mut frames = Watched::new(MemSource::new(
        alloc,
        &given.input.bytes,
        given.input.step.get(),
        &given.input.fails,
    )?);
    let mut out = sink(alloc, &given.out)?;
    let mut notes = sink(alloc, &given.notes)?;
    let status = command_one(
        alloc,
        &given.words,
        &mut texts,
        &mut frames,
        &mut out,
        &mut notes,
    );
    Ok(Answer {
        status,
        loads: texts.asked,
        left: given.input.bytes.len().saturating_sub(frames.calls.moved),
        failed_reads: frames.calls.failed,
        out,
        notes,
    })
}

fn loader(alloc: Global, given: &Given<'_>) -> Result<WatchedLoader<MemLoader>, AllocError> {
    let mut inner = MemLoader::new(alloc, &given.loader_fails)?;
    for file in &given.files {
        inner.add(alloc, file.name, &file.bytes)?;
    }
    Ok(WatchedLoader {
        inner,
        asked: Vec::new(alloc),
    })
}

fn sink(alloc: Global, given: &Sink) -> Result<Watched<MemSink>, AllocError> {
    let inner = MemSink::new(alloc, given.room, given.step.get(), &given.fails)?;
    Ok(Watched::new(inner))
}
