//! Questions with their answers, in one line each.

use crate::asking::asking_of;
use crate::ending::ending_of;
use crate::escape::unescaped;
use crate::{long, made, parts, reading};
use anyhow::{Context, Result};
use std::alloc::Global;

/// What came of a question and isn't due, behind the last `~`: nothing, where it is right.
pub fn differences_of(alloc: Global, head: &str, line: &str) -> Result<String> {
    let (question, due) = line
        .rsplit_once('~')
        .context("a question without an answer")?;
    let came = answer(alloc, head, question).context(format_args!("{head} {question}"))?;
    let mut differences = String::new(alloc);
    if came.as_str() != unescaped(alloc, due)?.as_str() {
        writeln!(differences, "{head} {question}\ncame {came:?}\ndue {due}")?;
    }
    Ok(differences)
}

/// The answer to a question.
fn answer(alloc: Global, head: &str, question: &str) -> Result<String> {
    match head {
        "asks" => asking_of(alloc, question),
        "ending" => ending_of(alloc, question),
        "chain" | "cycle" | "steep" | "list" => made::answer(alloc, head, question),
        "part" => parts::answer(alloc, question),
        "word" | "message" | "last" | "printed" => {
            long::answer(alloc, head, &unescaped(alloc, question)?)
        }
        _ => reading::answer(alloc, head, &unescaped(alloc, question)?),
    }
}
