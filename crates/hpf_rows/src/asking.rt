//! Command lines of the table, which are read and no more.

use crate::words::words_of;
use anyhow::{Result, bail};
use hpf_words::{Asked, CommandLine, Name, WordsError, read_words};
use std::alloc::{AllocError, Global};

/// What a command line asks for.
pub fn asking_of(alloc: Global, line: &str) -> Result<String> {
    let words = words_of(alloc, line)?;
    let mut text = String::new(alloc);
    match read_words(alloc, &words) {
        Ok(line) => push_line(&line, &mut text)?,
        Err(WordsError::Refused) => text.push_str("refused")?,
        Err(WordsError::Memory(_)) => bail!("out of memory"),
    }
    Ok(text)
}

/// Adds what a command line asks for.
fn push_line(line: &CommandLine<'_>, to: &mut String) -> Result<(), AllocError> {
    let map = line.map;
    match &line.asked {
        Asked::Check => write!(to, "check {map:?}"),
        Asked::Show => write!(to, "show {map:?}"),
        Asked::Owners { name } => {
            write!(to, "owners {map:?}")?;
            push_name(name, to)
        }
        Asked::Local { name, processor } => {
            write!(to, "local {map:?}")?;
            push_name(name, to)?;
            write!(to, " processor {processor}")
        }
        Asked::Plan => write!(to, "plan {map:?}"),
        Asked::Run { workers } => write!(to, "run {map:?} workers {workers}"),
        Asked::Parts { stage, workers } => {
            write!(to, "parts {map:?} stage {stage} workers {workers}")
        }
        Asked::Make { frames, seed } => write!(to, "make {map:?} frames {frames} seed {seed}"),
        Asked::Trial {
            frames,
            seed,
            workers,
        } => write!(
            to,
            "trial {map:?} frames {frames} seed {seed} workers {workers}"
        ),
    }
}

/// Adds a name, and whether it is that of an array A.
fn push_name(name: &Name<'_>, to: &mut String) -> Result<(), AllocError> {
    let text = name.as_str();
    let end = if name.is_spelled(b"A") { "is" } else { "isn't" };
    write!(to, " name {text:?} {end} A")
}
