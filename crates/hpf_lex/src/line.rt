//! The lines of a text, and what stands on each.

ghost use Rattle.std.specs.Prelude.{◌≡◌, ◌+◌, ◌<◌, ◌≤◌, ◌==◌, ◌∷◌, length, IfSome};
ghost use Rattle.std.specs.List.{prefix_len, suffix_len, before_first, position_or_len};
ghost use Rattle.std.specs.Option.{option_map};
ghost use Rattle.hpf_lex.specs.Bytes.{is_blank};
ghost use Rattle.hpf_lex.specs.Line.{lines_of, begins_with, form_of, prefix_width, before_comment, without_blanks_at_end, part_of};
ghost use Rattle.hpf_lex.specs.Statement.{same_form, max_text};
ghost use Rattle.hpf_lex.specs.Views.{part_view};

use crate::bytes::{is_blank, upper};

/// What kind of statement a line belongs to.
#[derive(Clone, Copy, PartialEq, Eq)]
pub enum Form {
    Fortran,
    Directive,
    Pipeline,
}

/// The part of a statement that stands on one line. `start` is the column of the first byte that isn't blank, and
/// `column` that of the first byte of `text`.
#[derive(Clone, Copy)]
pub struct LinePart<'a> {
    pub form: Form,
    pub line: u32,
    pub start: u32,
    pub column: u32,
    pub text: &'a [u8],
}

impl Form {
    /// The number of bytes of its prefix.
    pub fn prefix_width(self) -> usize
        ensures { result ≡ prefix_width self }
    {
        match self {
            Form::Directive => 5,
            Form::Pipeline => 6,
            Form::Fortran => 0,
        }
    }
}

impl<'a> LinePart<'a> {
    ghost use Rattle.hpf_lex.specs.Statement.{ends_open, own_text};

    /// Whether its last byte is `&`, so that its statement goes on.
    #[tactic(auto, unfolding(crate::specs::Statement::ends_open))]
    pub fn ends_open(&self) -> bool
        ensures { result ≡ ends_open (part_view self.now) }
    {
        let text = self.text;
        !text.is_empty() && text[text.len() - 1] == b'&'
    }

    /// Its text without the `&` that ends it.
    #[tactic(auto, unfolding(crate::specs::Statement::ends_open))]
    pub fn own_text(&self) -> &'a [u8]
        ensures text { result.now ≡ own_text (part_view self.now) }
        ensures within { length result.now ≤ length self.now.text.now }
    {
        let text = self.text;
        if self.ends_open() {
            &text[..text.len() - 1]
        } else {
            text
        }
    }
}

/// Whether two lines belong to statements of one kind.
pub fn same_form(a: Form, b: Form) -> bool
    ensures { result ≡ same_form a b }
{
    a == b
}

/// The first line of a text, and the text behind it.
pub fn first_line(text: &[u8]) -> (&[u8], &[u8])
    requires { 0 < length text.now }
    ensures lines { lines_of text.now ≡ result.0.now ∷ lines_of result.1.now }
    ensures within { length result.0.now + length result.1.now ≤ length text.now }
    ensures shorter { length result.1.now < length text.now }
{
    let end = text_before(text, b'\n');
    if end == text.len() {
        return (text, &text[end..]);
    }
    let behind = &text[end + 1..];
    if end > 0 && text[end - 1] == b'\r' {
        (&text[..end - 1], behind)
    } else {
        (&text[..end], behind)
    }
}

/// How many bytes stand before the first such byte.
fn text_before(bytes: &[u8], sought: u8) -> usize
    ensures place { result ≡ position_or_len (λ byte. byte == sought) bytes.now }
    ensures within { result ≤ length bytes.now }
{
    bytes.iter().take_while(|byte| **byte != sought).count()
}

/// How many blanks and tabs stand at the front.
fn blanks_at_front(bytes: &[u8]) -> usize
    ensures count { result ≡ prefix_len is_blank bytes.now }
    ensures within { result ≤ length bytes.now }
{
    bytes.iter().take_while(|byte| is_blank(**byte)).count()
}

/// The bytes without the blanks and tabs at their end.
fn without_blanks_at_end(bytes: &[u8]) -> &[u8]
    ensures text { result.now ≡ without_blanks_at_end bytes.now }
    ensures within { length result.now ≤ length bytes.now }
{
    let blanks = blanks_at_back(bytes);
    &bytes[..bytes.len() - blanks]
}

/// How many blanks and tabs stand at the end.
fn blanks_at_back(bytes: &[u8]) -> usize
    ensures count { result ≡ suffix_len is_blank bytes.now }
    ensures within { result ≤ length bytes.now }
{
    bytes
        .iter()
        .rev()
        .take_while(|byte| is_blank(**byte))
        .count()
}

/// The bytes before the first `!`.
fn before_comment(bytes: &[u8]) -> &[u8]
    ensures text { result.now ≡ before_comment bytes.now }
    ensures within { length result.now ≤ length bytes.now }
{
    &bytes[..text_before(bytes, b'!')]
}

/// Whether the bytes begin with this prefix, letters in either case.
fn begins_with(prefix: &[u8], bytes: &[u8]) -> bool
    ensures same { result ≡ begins_with prefix.now bytes.now }
{
    for (i, sought) in prefix.iter().enumerate() {
        if i >= bytes.len() || upper(bytes[i]) != *sought {
            return false;
        }
    }
    true
}

/// What kind of statement a line belongs to, by its bytes behind the blanks. None where it is a comment line or empty.
#[tactic(auto, unfolding(crate::specs::Line::form_of))]
fn form_of(bytes: &[u8]) -> Option<Form>
    ensures form { result ≡ form_of bytes.now }
    ensures fits { IfSome result (λ form. prefix_width form ≤ length bytes.now) }
{
    if begins_with(b"!HPF$", bytes) {
        Some(Form::Directive)
    } else if begins_with(b"!PIPE$", bytes) {
        Some(Form::Pipeline)
    } else if begins_with(b"!", bytes) || bytes.is_empty() {
        None
    } else {
        Some(Form::Fortran)
    }
}

/// The part of a statement that a line has. None where the line is empty or a comment line.
#[tactic(auto, unfolding(crate::specs::Line::part_of))]
pub fn part_of(line: u32, bytes: &[u8]) -> Option<LinePart<'_>>
    requires { length bytes.now ≤ max_text }
    ensures part { option_map part_view result ≡ part_of line bytes.now }
    ensures fits { IfSome result (λ part. part.column + length part.text.now ≤ length bytes.now + 1) }
    ensures starts { IfSome result (λ part. part.start ≤ length bytes.now + 1) }
{
    let blanks = blanks_at_front(bytes);
    let found = &bytes[blanks..];
    let form = form_of(found)?;
    let width = form.prefix_width();
    let behind = &found[width..];
    let gap = blanks_at_front(behind);
    Some(LinePart {
        form,
        line,
        start: blanks as u32 + 1,
        column: (blanks + width + gap) as u32 + 1,
        text: without_blanks_at_end(before_comment(&behind[gap..])),
    })
}
