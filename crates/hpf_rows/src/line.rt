//! The lines of a table.

/// A line that says something: its number in the table from 1, its first word, and what follows behind one blank.
#[derive(Clone, Copy, Debug)]
pub struct Line<'a> {
    pub number: usize,
    pub head: &'a str,
    pub rest: &'a str,
}

impl<'a> Line<'a> {
    /// The line of this text. None is an empty one, or a comment.
    pub fn read(number: usize, text: &'a str) -> Option<Line<'a>> {
        let text = text.trim_start();
        if text.is_empty() || text.starts_with('#') {
            return None;
        }
        let (head, rest) = cut(text);
        Some(Line { number, head, rest })
    }
}

/// The first word of a text, and what follows behind one blank.
pub fn cut(text: &str) -> (&str, &str) {
    text.split_once(' ').unwrap_or((text, ""))
}

/// The name in front of a text, which may be in quotes, and what follows behind one blank.
pub fn cut_name(text: &str) -> (&str, &str) {
    let quoted = text.strip_prefix('"');
    match quoted.and_then(|quoted| quoted.split_once('"')) {
        Some((name, rest)) => (name, rest.trim_start()),
        None => cut(text),
    }
}
