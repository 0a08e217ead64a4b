//! What comes of a text.

use crate::elements::owners_in;
use crate::held::held_in;
use crate::lexemes::lexemes;
use crate::stages::stages_of;
use crate::text::text_of;
use crate::trees::statements;
use anyhow::{Context, Result, bail};
use hpf_lex::{MapError, tokens};
use hpf_map::{Need, Program, declared_names, resolve};
use hpf_syntax::{Items, parse, print};
use std::alloc::{AllocError, Global};

/// The answer to what is asked of a text.
pub fn answer(alloc: Global, head: &str, text: &str) -> Result<String> {
    match head {
        "tokens" => Ok(told(alloc, tokens_in(alloc, text))?),
        "statements" => Ok(told(alloc, statements_in(alloc, text, false))?),
        "places" => Ok(told(alloc, statements_in(alloc, text, true))?),
        "canonical" => Ok(told(alloc, canonical_in(alloc, text))?),
        _ => meaning(alloc, head, text),
    }
}

/// The answer to what is asked of the meaning of a text.
fn meaning(alloc: Global, head: &str, row: &str) -> Result<String> {
    let text = text_of(alloc, row)?;
    match head {
        "names" => Ok(judged(alloc, judge_names(alloc, &text))?),
        "mapping" => Ok(judged(alloc, judge(alloc, &text, Need::Mapping))?),
        "pipeline" => Ok(judged(alloc, judge(alloc, &text, Need::Pipeline))?),
        "counts" => counts_in(alloc, &text),
        "stages" => stages_in(alloc, &text),
        _ => array(alloc, head, &text),
    }
}

/// The answer to what is asked of an array, whose name follows the text behind `~`.
fn array(alloc: Global, head: &str, row: &str) -> Result<String> {
    let (text, word) = row.split_once('~').context("a row without a word")?;
    match head {
        "owners" => owners(alloc, text, word),
        "held" => held(alloc, text, word),
        _ => bail!("no such question"),
    }
}

/// The stages of a text, or its refusal.
fn stages_in(alloc: Global, text: &str) -> Result<String> {
    match program(alloc, text, Need::Pipeline) {
        Ok(program) => stages_of(alloc, &program),
        Err(error) => Ok(judged(alloc, Err(error))?),
    }
}

/// How much a text declares, or its refusal.
fn counts_in(alloc: Global, text: &str) -> Result<String> {
    match program(alloc, text, Need::Pipeline) {
        Ok(program) => Ok(counts_of(alloc, &program)?),
        Err(error) => Ok(judged(alloc, Err(error))?),
    }
}

fn counts_of(alloc: Global, program: &Program) -> Result<String, AllocError> {
    let counts = program.counts();
    let (arrays, templates) = (counts.arrays, counts.templates);
    let (arrangements, stages) = (counts.arrangements, counts.stages);
    format!(in alloc;
        "arrays {arrays} templates {templates} arrangements {arrangements} stages {stages}"
    )
}

/// The tokens of a text.
fn tokens_in(alloc: Global, text: &str) -> Result<String, MapError> {
    let tokens = tokens(alloc, text.as_bytes())?;
    Ok(lexemes(alloc, tokens.as_slice())?)
}

/// The statements of a text.
fn statements_in(alloc: Global, text: &str, places: bool) -> Result<String, MapError> {
    let items = items(alloc, text)?;
    Ok(statements(alloc, items.as_slice(), places)?)
}

/// The canonical text of a text.
pub fn canonical_in(alloc: Global, text: &str) -> Result<String, MapError> {
    let tokens = tokens(alloc, text.as_bytes())?;
    let items = parse(alloc, &tokens)?;
    let printed = print(alloc, &items)?;
    let mut canonical = String::new(alloc);
    for byte in printed.as_slice() {
        canonical.push(char::from(*byte))?;
    }
    Ok(canonical)
}

/// The owners of the elements of an array of a text, or its refusal.
pub fn owners(alloc: Global, text: &str, word: &str) -> Result<String> {
    match program(alloc, text, Need::Mapping) {
        Ok(program) => owners_in(alloc, &program, word),
        Err(error) => Ok(judged(alloc, Err(error))?),
    }
}

/// What each processor holds of an array of a text, or its refusal.
fn held(alloc: Global, text: &str, word: &str) -> Result<String> {
    match program(alloc, text, Need::Mapping) {
        Ok(program) => held_in(alloc, &program, word),
        Err(error) => Ok(judged(alloc, Err(error))?),
    }
}

/// The program of a text.
pub fn program(alloc: Global, text: &str, need: Need) -> Result<Program, MapError> {
    let items = items(alloc, text)?;
    resolve(alloc, &items, need)
}

/// The statements of a text.
fn items(alloc: Global, text: &str) -> Result<Items, MapError> {
    let tokens = tokens(alloc, text.as_bytes())?;
    parse(alloc, &tokens)
}

/// Asks for the names of a text.
fn judge_names(alloc: Global, text: &str) -> Result<(), MapError> {
    let items = items(alloc, text)?;
    let _ = declared_names(alloc, &items)?;
    Ok(())
}

/// Asks for the program of a text.
pub fn judge(alloc: Global, text: &str, need: Need) -> Result<(), MapError> {
    let _ = program(alloc, text, need)?;
    Ok(())
}

/// `accepted`, or the refusal.
pub fn judged(alloc: Global, answer: Result<(), MapError>) -> Result<String, AllocError> {
    match answer {
        Ok(()) => String::from_str(alloc, "accepted"),
        Err(error) => told(alloc, Err(error)),
    }
}

/// What a text gives, or its refusal.
pub fn told(alloc: Global, answer: Result<String, MapError>) -> Result<String, AllocError> {
    match answer {
        Ok(given) => Ok(given),
        Err(MapError::Refused(r)) => {
            format!(in alloc; "refused {} at {}:{}", r.code, r.line, r.column)
        }
        Err(MapError::Memory(error)) => Err(error),
    }
}
