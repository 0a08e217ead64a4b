//! The longest token that bytes begin with.

ghost use Rattle.std.specs.Prelude.{◌≡◌, ◌+◌, ◌<◌, ◌≤◌, ◌&&◌, nat_le, if◌then◌else◌, length, take, IfOk, slice_index, IsTrue};
ghost use Rattle.std.specs.List.{prefix_len, list_all};
ghost use Rattle.hpf_lex.specs.Bytes.{is_letter, is_digit, is_name_byte};
ghost use Rattle.hpf_lex.specs.Lexeme.{lexeme_at, word_at, number_at, sign_at, sign, number_of, max_number};

use crate::bytes::{is_digit, is_letter, is_name_byte};
use crate::refusal::Fault;
use crate::token::{Token, TokenKind};
use crate::word::Word;

/// The greatest number.
const MAX_NUMBER: u64 = 2147483647;

/// A token without its place. `width` is the number of its bytes.
#[derive(Clone, Copy)]
pub struct Lexeme {
    pub kind: TokenKind,
    pub word: Word,
    pub number: u32,
    pub width: usize,
}

impl Lexeme {
    ghost use Rattle.hpf_lex.specs.Statement.{token_at};

    /// The token at this place.
    pub fn at(&self, line: u32, column: u32) -> Token
        ensures { result ≡ token_at self.now line column }
    {
        Token {
            kind: self.kind,
            word: self.word,
            number: self.number,
            line,
            column,
        }
    }
}

/// The token that these bytes begin with, the first of which isn't blank.
#[tactic(auto, unfolding(crate::specs::Lexeme::lexeme_at))]
pub fn lexeme_at(bytes: &[u8]) -> Result<Lexeme, Fault>
    requires { 0 < length bytes.now }
    ensures found { result ≡ lexeme_at bytes.now }
    ensures within { IfOk result (λ lexeme. lexeme.width ≤ length bytes.now) }
    ensures some { IfOk result (λ lexeme. 0 < lexeme.width) }
{
    let first = bytes[0];
    if is_letter(first) {
        word_at(bytes)
    } else if is_digit(first) {
        number_at(bytes)
    } else {
        let second = if bytes.len() > 1 { bytes[1] } else { 0 };
        sign_at(first, second)
    }
}

/// How many letters, digits and `_` stand at the front.
fn name_bytes(bytes: &[u8]) -> usize
    ensures count { result ≡ prefix_len is_name_byte bytes.now }
    ensures within { result ≤ length bytes.now }
{
    bytes.iter().take_while(|byte| is_name_byte(**byte)).count()
}

fn word_at(bytes: &[u8]) -> Result<Lexeme, Fault>
    requires some { 0 < length bytes.now }
    requires letter { IsTrue (is_letter (slice_index bytes.now 0)) }
    ensures found { result ≡ word_at bytes.now }
    ensures within { IfOk result (λ lexeme. lexeme.width ≤ length bytes.now) }
    ensures some { IfOk result (λ lexeme. 0 < lexeme.width) }
{
    let width = name_bytes(bytes);
    match Word::from_bytes(&bytes[..width]) {
        None => Err(Fault::NameTooLong),
        Some(word) => Ok(Lexeme {
            kind: TokenKind::Word,
            word,
            number: 0,
            width,
        }),
    }
}

fn number_at(bytes: &[u8]) -> Result<Lexeme, Fault>
    requires some { 0 < length bytes.now }
    requires digit { IsTrue (is_digit (slice_index bytes.now 0)) }
    ensures found { result ≡ number_at bytes.now }
    ensures within { IfOk result (λ lexeme. lexeme.width ≤ length bytes.now) }
    ensures some { IfOk result (λ lexeme. 0 < lexeme.width) }
{
    let width = name_bytes(bytes);
    match number_of(&bytes[..width]) {
        None => Err(Fault::BadNumber),
        Some(number) => Ok(Lexeme {
            kind: TokenKind::Number,
            word: Word::empty(),
            number,
            width,
        }),
    }
}

/// The number that bytes stand for, if they are digits and it isn't too great.
fn number_of(bytes: &[u8]) -> Option<u32>
    ensures { result
        ≡ (if list_all is_digit bytes.now && nat_le (number_of bytes.now) max_number
        then Some (number_of bytes.now) else None) }
{
    let mut number: u64 = 0;
    for byte in bytes {
        if !is_digit(*byte) {
            return None;
        }
        number = 10 * number + u64::from(*byte - b'0');
        if number > MAX_NUMBER {
            return None;
        }
    }
    Some(number as u32)
}

/// A sign, by its first byte and the one behind it, which is 0 where there is none.
fn sign_at(first: u8, second: u8) -> Result<Lexeme, Fault>
    ensures found { result ≡ sign_at first second }
{
    match (first, second) {
        (b'(', b'/') => sign(TokenKind::LeftArray, 2),
        (b'/', b')') => sign(TokenKind::RightArray, 2),
        (b':', b':') => sign(TokenKind::DoubleColon, 2),
        (b'(', _) => sign(TokenKind::LeftParen, 1),
        (b')', _) => sign(TokenKind::RightParen, 1),
        (b',', _) => sign(TokenKind::Comma, 1),
        (b':', _) => sign(TokenKind::Colon, 1),
        (b'*', _) => sign(TokenKind::Star, 1),
        (b'+', _) => sign(TokenKind::Plus, 1),
        (b'-', _) => sign(TokenKind::Minus, 1),
        (b'=', _) => sign(TokenKind::Equals, 1),
        _ => Err(Fault::BadByte),
    }
}

fn sign(kind: TokenKind, width: usize) -> Result<Lexeme, Fault>
    ensures { result ≡ sign kind width }
{
    Ok(Lexeme {
        kind,
        word: Word::empty(),
        number: 0,
        width,
    })
}
