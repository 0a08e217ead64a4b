//! Statuses as the table writes them.

use crate::answer::push_status;
use crate::line::cut;
use anyhow::{Context, Result, bail};
use hpf_cmd::Status;
use std::alloc::Global;

/// The line that tells a status of the table.
pub fn ending_of(alloc: Global, words: &str) -> Result<String> {
    let status = status_of(alloc, words).context(format_args!("no status: {words}"))?;
    let mut text = String::new(alloc);
    push_status(alloc, &status, &mut text)?;
    Ok(String::from_str(alloc, text.trim_end())?)
}

/// The status of this name, with its numbers.
fn status_of(alloc: Global, words: &str) -> Result<Status> {
    let (name, words) = cut(words);
    let mut numbers = Vec::new(alloc);
    for word in words.split_whitespace() {
        numbers.push(word.parse::<u64>()?)?;
    }
    match (name, numbers.as_slice()) {
        ("Ok", []) => Ok(Status::Ok),
        ("Usage", [code]) => Ok(Status::Usage {
            code: u8::try_from(*code)?,
        }),
        ("MapRefused", [code, line, column]) => Ok(Status::MapRefused {
            code: u8::try_from(*code)?,
            line: u32::try_from(*line)?,
            column: u32::try_from(*column)?,
        }),
        ("InputRefused", [code, offset]) => Ok(Status::InputRefused {
            code: u8::try_from(*code)?,
            offset: *offset,
        }),
        ("PlanTooLarge", [elements]) => Ok(Status::PlanTooLarge {
            elements: *elements,
        }),
        ("ReadFault", []) => Ok(Status::ReadFault),
        ("WriteFault", []) => Ok(Status::WriteFault),
        ("LoadFault", []) => Ok(Status::LoadFault),
        ("OutOfMemory", []) => Ok(Status::OutOfMemory),
        _ => bail!("its name or its numbers"),
    }
}
