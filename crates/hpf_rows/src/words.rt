//! The words of a command line.

use anyhow::{Result, ensure};
use std::alloc::Global;

/// The words of a line, between blanks. A word in quotes may have blanks, or nothing.
pub fn words_of(alloc: Global, line: &str) -> Result<Vec<String>> {
    let mut words = Vec::new(alloc);
    let mut is_quoted = false;
    for part in line.split('"') {
        if is_quoted {
            words.push(String::from_str(alloc, part)?)?;
        } else {
            for word in part.split_whitespace() {
                words.push(String::from_str(alloc, word)?)?;
            }
        }
        is_quoted = !is_quoted;
    }
    // A part behind each quote, and one in front of all.
    ensure!(is_quoted, "a quote isn't closed");
    Ok(words)
}
