//! Texts in one line, in which `\n`, `\r`, `\t`, `\\` and `\x1b` stand for the bytes that they do in Rust.

use anyhow::{Context, Result, bail};
use std::alloc::Global;

/// The text that a line writes.
pub fn unescaped(alloc: Global, line: &str) -> Result<String> {
    let mut text = String::new(alloc);
    let mut parts = line.split('\\');
    if let Some(first) = parts.next() {
        text.push_str(first)?;
    }
    let mut is_literal = false;
    for part in parts {
        if is_literal {
            text.push_str(part)?;
            is_literal = false;
        } else if part.is_empty() {
            text.push('\\')?;
            is_literal = true;
        } else {
            push_escape(part, &mut text)?;
        }
    }
    Ok(text)
}

/// Adds what stands behind a `\`.
fn push_escape(part: &str, text: &mut String) -> Result<()> {
    if let Some(rest) = part.strip_prefix('n') {
        text.push('\n')?;
        text.push_str(rest)?;
    } else if let Some(rest) = part.strip_prefix('r') {
        text.push('\r')?;
        text.push_str(rest)?;
    } else if let Some(rest) = part.strip_prefix('t') {
        text.push('\t')?;
        text.push_str(rest)?;
    } else if let Some(rest) = part.strip_prefix('x') {
        let digits = rest.get(..2).context("two digits stand behind \\x")?;
        text.push(char::from(u8::from_str_radix(digits, 16)?))?;
        text.push_str(rest.get(2..).unwrap_or(""))?;
    } else {
        bail!("no such escape: {part}");
    }
    Ok(())
}
