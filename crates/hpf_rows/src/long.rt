//! Texts of a megabyte, the words that are names, and the messages of refusals.

use crate::lexemes::show_word;
use crate::reading::canonical_in;
use anyhow::{Context, Result, bail, ensure};
use hpf_lex::{MAX_TEXT, MapError, MapRefusal, Word, tokens};
use std::alloc::{AllocError, Global};

/// The answer to what is asked of words and of texts that are too long to write.
pub fn answer(alloc: Global, head: &str, question: &str) -> Result<String> {
    match head {
        "word" => Ok(name_of(alloc, question)?),
        "message" => Ok(message(alloc, question)?),
        _ => long(alloc, head, question),
    }
}

/// The answer to what is asked of a long text.
fn long(alloc: Global, head: &str, question: &str) -> Result<String> {
    let (parts, number) = question
        .rsplit_once('~')
        .context("a text without a number")?;
    let number = number.parse::<usize>()?;
    ensure!(number <= MAX_TEXT + 1, "the text is too long");
    if head == "last" {
        return last_of(alloc, parts, number);
    }
    let (front, other) = parts.split_once('~').context("a text without a part")?;
    printed(alloc, front, other, number)
}

/// The message of a refusal, and of want of memory.
fn message(alloc: Global, error: &str) -> Result<String, AllocError> {
    let refusal = MapRefusal {
        code: 4,
        line: 12,
        column: 3,
    };
    if error == "memory" {
        format!(in alloc; "{}", MapError::Memory(AllocError))
    } else {
        format!(in alloc; "{}", MapError::Refused(refusal))
    }
}

/// How many tokens a text of this length has that repeats two bytes, and where the last of them stands, or its refusal.
fn last_of(alloc: Global, bytes: &str, len: usize) -> Result<String> {
    let [first, second] = bytes.as_bytes() else {
        bail!("no two bytes: {bytes:?}");
    };
    let mut told = String::new(alloc);
    match tokens(alloc, &repeated(alloc, (*first, *second), len)?) {
        Ok(found) => {
            let tokens = found.as_slice();
            write!(told, "{} tokens", tokens.len())?;
            if let Some(last) = tokens.last() {
                write!(told, ", the last at {}:{}", last.line, last.column)?;
            }
        }
        Err(MapError::Refused(r)) => write!(told, "refused {} at {}:{}", r.code, r.line, r.column)?,
        Err(MapError::Memory(error)) => return Err(error)?,
    }
    Ok(told)
}

/// A text of this length that repeats two bytes.
fn repeated(alloc: Global, bytes: (u8, u8), len: usize) -> Result<Vec<u8>, AllocError> {
    let (first, second) = bytes;
    let mut text = Vec::new(alloc);
    for i in 0..len {
        text.push(if i % 2 == 0 { first } else { second })?;
    }
    Ok(text)
}

/// How long a text of a front and other text so many times is, and whether it is its own canonical text.
fn printed(alloc: Global, front: &str, other: &str, times: usize) -> Result<String> {
    let mut text = String::from_str(alloc, front)?;
    for _ in 0..times {
        text.push_str(other)?;
    }
    text.push('\n')?;
    let same = canonical_in(alloc, &text)?.as_str() == text.as_str();
    let len = text.len();
    Ok(format!(in alloc; "{len} bytes, canonical is {same}")?)
}

/// The name that a word is.
fn name_of(alloc: Global, word: &str) -> Result<String, AllocError> {
    let mut told = String::new(alloc);
    match Word::from_bytes(word.as_bytes()) {
        None => told.push_str("no name")?,
        Some(name) => show_word(&mut told, &name)?,
    }
    Ok(told)
}
