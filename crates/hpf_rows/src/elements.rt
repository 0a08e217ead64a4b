//! The owners of the elements of an array.

ghost use Rattle.std.specs.Prelude.{IsTrue};
ghost use Rattle.hpf_own.specs.Space.{LiesIn};

use anyhow::{Context, Result, bail};
use hpf_lex::Word;
use hpf_map::Program;
use hpf_num::Run;
use hpf_own::Mapping;
use std::alloc::{AllocError, Global};

/// The owners of the elements of the array that a word is, or `unmapped` where it is no array whose ultimate base is
/// distributed.
pub fn owners_in(alloc: Global, program: &Program, word: &str) -> Result<String> {
    let word = Word::from_bytes(word.as_bytes()).context("no word")?;
    match program.mapping(&word) {
        Some(mapping) => owners_of(alloc, mapping),
        None => Ok(String::from_str(alloc, "unmapped")?),
    }
}

/// The owners of each element, in element order and with commas between several owners of one.
pub fn owners_of(alloc: Global, mapping: &Mapping) -> Result<String> {
    let bounds = mapping.bounds().as_slice();
    let mut index = first_index(alloc, bounds)?;
    let mut text = String::new(alloc);
    for k in 0..u64::MAX {
        if k > 0 {
            text.push(' ')?;
        }
        push_owners(alloc, mapping, &index, &mut text)?;
        if !step(bounds, &mut index) {
            break;
        }
    }
    Ok(text)
}

/// The index of the first element.
fn first_index(alloc: Global, bounds: &[Run]) -> Result<Vec<i64>, AllocError> {
    let mut index = Vec::new(alloc);
    for run in bounds {
        index.push(run.low)?;
    }
    Ok(index)
}

/// Steps to the next element, the first subscript varying fastest. False where there is none.
fn step(bounds: &[Run], index: &mut [i64]) -> bool {
    for (run, subscript) in bounds.iter().zip(index.iter_mut()) {
        if *subscript < run.high {
            *subscript += 1;
            return true;
        }
        *subscript = run.low;
    }
    false
}

/// Adds the owners of an element.
fn push_owners(alloc: Global, mapping: &Mapping, index: &[i64], to: &mut String) -> Result<()> {
    if !lies_in(mapping.bounds().as_slice(), index) {
        bail!("no element has the index {index:?}");
    }
    let owners = mapping.owners(alloc, index)?;
    for (n, owner) in owners.as_slice().iter().enumerate() {
        if n > 0 {
            to.push(',')?;
        }
        write!(to, "{owner}")?;
    }
    Ok(())
}

/// Whether some element has this index.
fn lies_in(bounds: &[Run], index: &[i64]) -> bool
    ensures { IsTrue result → LiesIn bounds.now index.now }
{
    let Some((run, bounds)) = bounds.split_first() else {
        return index.is_empty();
    };
    let Some((subscript, index)) = index.split_first() else {
        return false;
    };
    run.low <= *subscript && *subscript <= run.high && lies_in(bounds, index)
}
