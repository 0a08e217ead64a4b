//! The stages of a pipeline.

use crate::elements::owners_of;
use anyhow::{Context, Result};
use hpf_map::{Program, Stage};
use std::alloc::Global;

/// Each stage of a program: its array, the dimensions of the stage before that stand in its own, its buffers and the owners of
/// its elements.
pub fn stages_of(alloc: Global, program: &Program) -> Result<String> {
    let mut text = String::new(alloc);
    for s in 0..program.stages() {
        if s > 0 {
            text.push_str("; ")?;
        }
        push_stage(alloc, program.stage(s), &mut text)?;
    }
    Ok(text)
}

/// Adds a stage.
fn push_stage(alloc: Global, stage: &Stage, to: &mut String) -> Result<()> {
    let name = str::from_utf8(stage.array.as_slice()).context("a name of other bytes")?;
    write!(to, "{name} (")?;
    for (d, dimension) in stage.perm.as_slice().iter().enumerate() {
        if d > 0 {
            to.push(',')?;
        }
        write!(to, "{dimension}")?;
    }
    let owners = owners_of(alloc, &stage.mapping)?;
    write!(to, ") buffers {} owners {owners}", stage.buffers)?;
    Ok(())
}
