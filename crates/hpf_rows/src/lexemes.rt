//! Tokens, as the rows of tables show them: each with its place and a blank behind it.

use hpf_lex::{Token, TokenKind, Word};
use std::alloc::{AllocError, Global};

/// The tokens.
pub fn lexemes(alloc: Global, tokens: &[Token]) -> Result<String, AllocError> {
    let mut out = String::new(alloc);
    for token in tokens {
        show_kind(&mut out, token)?;
        write!(out, "@{}:{} ", token.line, token.column)?;
    }
    Ok(out)
}

/// Adds the text of a token.
fn show_kind(out: &mut String, token: &Token) -> Result<(), AllocError> {
    match token.kind {
        TokenKind::Hpf => out.push_str("!HPF$"),
        TokenKind::Pipe => out.push_str("!PIPE$"),
        TokenKind::Word => show_word(out, &token.word),
        TokenKind::Number => write!(out, "{}", token.number),
        TokenKind::LeftParen => out.push_str("("),
        TokenKind::RightParen => out.push_str(")"),
        TokenKind::LeftArray => out.push_str("(/"),
        TokenKind::RightArray => out.push_str("/)"),
        TokenKind::Comma => out.push_str(","),
        TokenKind::Colon => out.push_str(":"),
        TokenKind::DoubleColon => out.push_str("::"),
        TokenKind::Star => out.push_str("*"),
        TokenKind::Plus => out.push_str("+"),
        TokenKind::Minus => out.push_str("-"),
        TokenKind::Equals => out.push_str("="),
        TokenKind::End => out.push_str("end"),
    }
}

/// Adds a word.
pub fn show_word(out: &mut String, word: &Word) -> Result<(), AllocError> {
    for byte in word.as_slice() {
        out.push(char::from(*byte))?;
    }
    Ok(())
}
