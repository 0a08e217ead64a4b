//! What processors hold of an array.

ghost use Rattle.std.specs.Prelude.{◌<◌};
ghost use Rattle.hpf_own.specs.Space.{product};

use crate::parts::push_index;
use anyhow::{Context, Result};
use hpf_lex::Word;
use hpf_map::Program;
use hpf_own::Mapping;
use std::alloc::Global;

/// What each processor holds of the array that a word is, or `unmapped` where it is no array whose ultimate base is distributed.
pub fn held_in(alloc: Global, program: &Program, word: &str) -> Result<String> {
    let word = Word::from_bytes(word.as_bytes()).context("no word")?;
    match program.mapping(&word) {
        Some(mapping) => held_by_all(alloc, mapping),
        None => Ok(String::from_str(alloc, "unmapped")?),
    }
}

/// What each processor holds, in element order.
fn held_by_all(alloc: Global, mapping: &Mapping) -> Result<String> {
    let mut text = String::new(alloc);
    for p in 0..mapping.procs() {
        if p > 0 {
            text.push_str("; ")?;
        }
        write!(text, "{p}:")?;
        push_held(alloc, mapping, p, &mut text)?;
    }
    Ok(text)
}

/// Adds the index of each element that a processor holds.
fn push_held(alloc: Global, mapping: &Mapping, p: u32, to: &mut String) -> Result<()>
    requires { p < product mapping.now.procs }
{
    let part = mapping.held(alloc, p)?;
    for k in 0..part.count() {
        let mut index = vec![in alloc; 0; part.rank() as usize]?;
        part.nth(k, &mut index);
        push_index(&index, to)?;
    }
    Ok(())
}
