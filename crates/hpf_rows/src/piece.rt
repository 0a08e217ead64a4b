//! The pieces that bytes are written in.

use crate::line::cut;
use crate::scope::Scope;
use anyhow::{Context, Result, bail};
use std::alloc::Global;

/// Adds the bytes of a piece, which may stand behind a count and a star.
pub fn push_piece(
    alloc: Global,
    scope: Scope<'_, '_>,
    head: &str,
    rest: &str,
    bytes: &mut Vec<u8>,
) -> Result<()> {
    match rest.strip_prefix("* ") {
        Some(repeated) if !is_mark(head) => {
            let (mark, content) = cut(repeated);
            let piece = piece(alloc, scope, mark, content)?;
            for _ in 0..scope.number(head)? {
                bytes.extend_from_slice(&piece)?;
            }
        }
        _ => bytes.extend_from_slice(&piece(alloc, scope, head, rest)?)?,
    }
    Ok(())
}

fn is_mark(head: &str) -> bool {
    matches!(head, "|" | "-" | "=" | "@")
}

/// The bytes of the piece with this mark and content.
fn piece(alloc: Global, scope: Scope<'_, '_>, mark: &str, content: &str) -> Result<Vec<u8>> {
    let mut bytes = Vec::new(alloc);
    match mark {
        "|" => {
            bytes.extend_from_slice(content.as_bytes())?;
            bytes.push(b'\n')?;
        }
        "-" => bytes.extend_from_slice(content.as_bytes())?,
        "=" => return of_hex(alloc, content),
        "@" => bytes.extend_from_slice(front(scope, content)?)?,
        _ => bail!("neither a line of a row nor a piece: {mark}"),
    }
    Ok(bytes)
}

/// The bytes of hexadecimal digits, between which blanks don't count.
fn of_hex(alloc: Global, content: &str) -> Result<Vec<u8>> {
    let mut digits = String::new(alloc);
    for word in content.split_whitespace() {
        digits.push_str(word)?;
    }
    hex::decode(alloc, digits.as_str()).context("no bytes in hexadecimal digits")
}

/// A text by its name, or the first bytes of it where their number follows the name.
fn front<'b>(scope: Scope<'_, 'b>, content: &str) -> Result<&'b [u8]> {
    let (name, count) = cut(content);
    let text = scope.text(name)?;
    if count.is_empty() {
        return Ok(text);
    }
    let count = scope.number(count)? as usize;
    text.get(..count).context("the text is shorter")
}
