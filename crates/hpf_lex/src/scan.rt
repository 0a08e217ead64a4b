//! Goes over the lines of a text, and puts its tokens into a list.

ghost use Rattle.std.specs.Prelude.{◌≡◌, ◌↔◌, List, ◌+◌, ◌<◌, ◌≤◌, ◌^◌, length, IfOk};
ghost use Rattle.hpf_lex.specs.Statement.{refusal_at, max_text, marks, past_last, place, prefix_kind, prefix_marks, first_marks, later_marks};
ghost use Rattle.hpf_lex.specs.Text.{HasTokens, HasFault, Answers, IfRefused, IsRead, IsRefused};
ghost use Rattle.hpf_lex.specs.Views.{part_view};
ghost use Rattle.hpf_lex.specs.Line.{part_of};
ghost use Rattle.hpf_lex.specs.declared.token.Token.{Token};
ghost use Rattle.hpf_lex.specs.declared.refusal.MapRefusal.{MapRefusal};
ghost use Rattle.hpf_lex.specs.Whole.{AreWhole};
ghost use Rattle.hpf_lex.specs.Scanning.{Pushes, inner_marks, past_inner, pending_behind, closing_marks, part_marks, pending_part, line_marks, pending_line};

use crate::bytes::is_blank;
use crate::lexeme::lexeme_at;
use crate::line::{Form, LinePart, first_line, part_of, same_form};
use crate::place::Place;
use crate::refusal::{Fault, MapError, MapRefusal};
use crate::token::{Token, TokenKind, Tokens};
use std::alloc::Global;

/// The most bytes that a mapping text has.
pub const MAX_TEXT: usize = 1_048_576;

/// A statement that goes on behind a line: what kind it is of, the place of the line's `&`, and the place one column
/// past its last token.
#[derive(Clone, Copy)]
pub struct Pending {
    pub form: Form,
    pub line: u32,
    pub column: u32,
    pub past: Place,
}

impl Pending {
    /// The fault that nothing continues it.
    fn dangling(self) -> MapRefusal
        ensures { result ≡ refusal_at Fault.DanglingContinuation self.line self.column }
    {
        Fault::DanglingContinuation.at(self.line, self.column)
    }
}

/// Pushes the tokens of bytes of one line, the first of which is in this column. Answers the place one column past the
/// last of them, or `past` where there is none.
fn push_tokens(
    tokens: &mut Vec<Token>,
    past: Place,
    line: u32,
    column: u32,
    bytes: &[u8],
) -> Result<Place, MapError>
    requires { column + length bytes.now < 2 ^ 32 }
    ensures { let found = marks line column 0 bytes.now in
        Pushes tokens.old.items tokens.new.items (λ end. end ≡ past_last past found) found result }
{
    let mut past = past;
    let mut column = column;
    let mut rest = bytes;
    while !rest.is_empty() {
        if is_blank(rest[0]) {
            column += 1;
            rest = &rest[1..];
        } else {
            let lexeme = match lexeme_at(rest) {
                Ok(lexeme) => lexeme,
                Err(fault) => return Err(MapError::Refused(fault.at(line, column))),
            };
            tokens.push(lexeme.at(line, column))?;
            column += lexeme.width as u32;
            past = Place { line, column };
            rest = &rest[lexeme.width..];
        }
    }
    Ok(past)
}

/// Pushes the prefix of a statement's first line. Answers the place past it.
#[tactic(auto, unfolding(crate::specs::Statement::prefix_marks))]
fn push_prefix(tokens: &mut Vec<Token>, part: &LinePart<'_>) -> Result<Place, MapError>
    requires { part.now.start < 2 ^ 31 }
    ensures { let found = prefix_marks (part_view part.now) in
        Pushes tokens.old.items tokens.new.items
        (λ end. end ≡ past_last (place part.now.line part.now.start) found) found result }
{
    let line = part.line;
    let column = part.start;
    match prefix_kind(part.form) {
        None => Ok(Place { line, column }),
        Some(kind) => {
            tokens.push(Token::bare(kind, line, column))?;
            let column = column + part.form.prefix_width() as u32;
            Ok(Place { line, column })
        }
    }
}

fn prefix_kind(form: Form) -> Option<TokenKind>
    ensures { result ≡ prefix_kind form }
{
    match form {
        Form::Directive => Some(TokenKind::Hpf),
        Form::Pipeline => Some(TokenKind::Pipe),
        Form::Fortran => None,
    }
}

/// Pushes the tokens of a statement's first line. Answers the place past the last of them.
#[tactic(auto, unfolding(crate::specs::Statement::first_marks))]
fn push_first(tokens: &mut Vec<Token>, part: &LinePart<'_>) -> Result<Place, MapError>
    requires start { part.now.start < 2 ^ 31 }
    requires column { part.now.column + length part.now.text.now < 2 ^ 32 }
    ensures { let found = first_marks (part_view part.now) in
        Pushes tokens.old.items tokens.new.items
        (λ end. end ≡ past_last (place part.now.line part.now.start) found) found result }
{
    let past = push_prefix(tokens, part)?;
    push_tokens(tokens, past, part.line, part.column, part.own_text())
}

/// Pushes the tokens of a line that continues a statement. Answers the place past the last of them, or `past` where
/// there is none.
#[tactic(auto, unfolding(crate::specs::Statement::later_marks))]
fn push_later(tokens: &mut Vec<Token>, past: Place, part: &LinePart<'_>) -> Result<Place, MapError>
    requires { part.now.column + length part.now.text.now < 2 ^ 32 }
    ensures { let found = later_marks (part_view part.now) in
        Pushes tokens.old.items tokens.new.items (λ end. end ≡ past_last past found) found result }
{
    let text = part.own_text();
    if !text.is_empty() && text[0] == b'&' {
        push_tokens(tokens, past, part.line, part.column + 1, &text[1..])
    } else {
        push_tokens(tokens, past, part.line, part.column, text)
    }
}

/// Pushes the tokens of a part that continues the pending statement, or begins one where none is pending. Answers the
/// place past the last of them.
#[tactic(auto, unfolding(crate::specs::Scanning::inner_marks, crate::specs::Scanning::past_inner))]
fn push_inner(
    tokens: &mut Vec<Token>,
    pending: Option<Pending>,
    part: &LinePart<'_>,
) -> Result<Place, MapError>
    requires start { part.now.start < 2 ^ 31 }
    requires column { part.now.column + length part.now.text.now < 2 ^ 32 }
    ensures { Pushes tokens.old.items tokens.new.items
        (λ end. end ≡ past_inner pending (part_view part.now))
        (inner_marks pending (part_view part.now)) result }
{
    match pending {
        None => push_first(tokens, part),
        Some(pending) => {
            if !same_form(pending.form, part.form) {
                return Err(MapError::Refused(pending.dangling()));
            }
            push_later(tokens, pending.past, part)
        }
    }
}

/// Pushes the end of a statement behind its last part. Where the part ends with `&`, it answers what is pending.
fn close(
    tokens: &mut Vec<Token>,
    part: &LinePart<'_>,
    past: Place,
) -> Result<Option<Pending>, MapError>
    requires { part.now.column + length part.now.text.now < 2 ^ 32 }
    ensures pushed { Pushes tokens.old.items tokens.new.items
        (λ behind. behind ≡ pending_behind (part_view part.now) past)
        (closing_marks (part_view part.now) past) result }
    ensures ended { IfOk result (λ behind. behind ≡ None → AreWhole tokens.new.items) }
{
    if part.ends_open() {
        return Ok(Some(Pending {
            form: part.form,
            line: part.line,
            column: part.column + part.own_text().len() as u32,
            past,
        }));
    }
    tokens.push(Token::bare(TokenKind::End, past.line, past.column))?;
    Ok(None)
}

/// Pushes what a part has. Answers what is pending behind it.
#[tactic(auto, unfolding(crate::specs::Scanning::part_marks, crate::specs::Scanning::pending_part))]
fn push_part(
    tokens: &mut Vec<Token>,
    pending: Option<Pending>,
    part: &LinePart<'_>,
) -> Result<Option<Pending>, MapError>
    requires start { part.now.start < 2 ^ 31 }
    requires column { part.now.column + length part.now.text.now < 2 ^ 32 }
    ensures pushed { Pushes tokens.old.items tokens.new.items
        (λ behind. behind ≡ pending_part pending (part_view part.now))
        (part_marks pending (part_view part.now)) result }
    ensures ended { IfOk result (λ behind. behind ≡ None → AreWhole tokens.new.items) }
{
    let past = push_inner(tokens, pending, part)?;
    close(tokens, part, past)
}

/// Pushes what a line has. Answers what is pending behind it.
#[tactic(auto, unfolding(crate::specs::Scanning::line_marks, crate::specs::Scanning::pending_line))]
fn push_line(
    tokens: &mut Vec<Token>,
    pending: Option<Pending>,
    line: u32,
    bytes: &[u8],
) -> Result<Option<Pending>, MapError>
    requires short { length bytes.now ≤ max_text }
    requires ended { pending ≡ None → AreWhole tokens.old.items }
    ensures pushed { Pushes tokens.old.items tokens.new.items
        (λ behind. behind ≡ pending_line pending (part_of line bytes.now))
        (line_marks pending (part_of line bytes.now)) result }
    ensures ended { IfOk result (λ behind. behind ≡ None → AreWhole tokens.new.items) }
{
    match part_of(line, bytes) {
        None => Ok(pending),
        Some(part) => push_part(tokens, pending, &part),
    }
}

/// The tokens of a text that isn't too long.
fn scan_lines(alloc: Global, text: &[u8]) -> Result<Tokens, MapError>
    requires { length text.now ≤ max_text }
    ensures answers { Answers result text.now }
    ensures placed { IfRefused result (λ f. 1 ≤ f.line) }
{
    let mut tokens = Vec::new(alloc);
    let mut pending = None;
    let mut line = 0;
    let mut rest = text;
    while !rest.is_empty() {
        let (bytes, behind) = first_line(rest);
        line += 1;
        pending = push_line(&mut tokens, pending, line, bytes)?;
        rest = behind;
    }
    match pending {
        None => Ok(Tokens::new(tokens)),
        Some(pending) => Err(MapError::Refused(pending.dangling())),
    }
}

/// The tokens of a mapping text, in order, each with its place. A text with a fault is refused with its first fault: at
/// line 0 and column 0 if it has more than 1,048,576 bytes, and else at the least place of a fault, by line and then
/// column.
pub fn tokens(alloc: Global, text: &[u8]) -> Result<Tokens, MapError>
    // Tokens are those of the text, which has no fault.
    ensures found { IfOk result (λ tokens. HasTokens text.now tokens) }
    // A refusal is the text's first fault.
    ensures refused { IfRefused result (λ f. HasFault text.now f) }
    // A text without a fault gives its tokens, unless memory runs out.
    ensures only_tokens { (tokens : List Token) → HasTokens text.now tokens → IsRead result tokens }
    // A text with a fault is refused with the first one, unless memory runs out.
    ensures only_fault { (f : MapRefusal) → HasFault text.now f → IsRefused result f }
    // The refusal for the length comes exactly there.
    ensures too_long { (max_text < length text.now)
        ↔ (result ≡ Err (MapError.Refused (refusal_at Fault.TooLong 0 0))) }
{
    if text.len() > MAX_TEXT {
        return Err(MapError::Refused(Fault::TooLong.at(0, 0)));
    }
    scan_lines(alloc, text)
}
