//! Bytes, printed in the pieces that a table would have for them.

use anyhow::Result;
use std::alloc::{AllocError, Global};

/// The most bytes in a line of hexadecimal digits, and in a group of them.
const LINE: usize = 32;

const GROUP: usize = 4;

/// Adds the pieces of these bytes, one a line: text where each byte can be printed or ends a line, and else hexadecimal
/// digits. Equal pieces that follow one another are one with a count.
pub fn push_bytes(alloc: Global, bytes: &[u8], to: &mut String) -> Result<()> {
    let pieces = match printable(bytes) {
        Some(text) => text_pieces(alloc, text)?,
        None => hex_pieces(alloc, bytes)?,
    };
    for equal in pieces.chunk_by(|one, next| one.as_str() == next.as_str()) {
        if let Some(piece) = equal.first() {
            match equal.len() {
                1 => writeln!(to, "{piece}")?,
                times => writeln!(to, "{times} * {piece}")?,
            }
        }
    }
    Ok(())
}

/// These bytes as text, where each can be printed or ends a line.
fn printable(bytes: &[u8]) -> Option<&str> {
    let is_printable = |byte: &u8| byte.is_ascii_graphic() || matches!(byte, b' ' | b'\n');
    if bytes.iter().all(is_printable) {
        str::from_utf8(bytes).ok()
    } else {
        None
    }
}

fn text_pieces(alloc: Global, text: &str) -> Result<Vec<String>, AllocError> {
    let mut pieces = Vec::new(alloc);
    for line in text.split_inclusive('\n') {
        let piece = match line.strip_suffix('\n') {
            Some(line) => format!(in alloc; "| {line}")?,
            None => format!(in alloc; "- {line}")?,
        };
        pieces.push(piece)?;
    }
    Ok(pieces)
}

fn hex_pieces(alloc: Global, bytes: &[u8]) -> Result<Vec<String>, AllocError> {
    let mut pieces = Vec::new(alloc);
    for line in bytes.chunks(LINE) {
        let mut piece = String::from_str(alloc, "=")?;
        for group in line.chunks(GROUP) {
            piece.push(' ')?;
            piece.push_str(hex::encode(alloc, group)?.as_str())?;
        }
        pieces.push(piece)?;
    }
    Ok(pieces)
}
