//! The name of an array on the command line.

ghost use Rattle.std.specs.Prelude.{◌≡◌, ◌↔◌, map, IsTrue};
ghost use Rattle.std.specs.Char.{to_ascii_uppercase};

use std::marker::Model;

/// The name of an array, as the words give it. It is seen as its bytes with letters in upper case, since names don't
/// differ by the case of ASCII letters.
#[derive(Debug, Drop)]
pub struct Name<'a> {
    text: &'a str,
}

impl<'a> Model for Name<'a> {
    ghost use Rattle.std.specs.Prelude.{ℕ, List, map};
    ghost use Rattle.std.specs.Char.{to_ascii_uppercase};

    ghost Value = { List ℕ };

    ghost view = { λ name. map to_ascii_uppercase name.text.now };
}

impl<'a> Name<'a> {
    /// The name that a word gives.
    pub(crate) fn new(text: &'a str) -> Name<'a>
        ensures { result ≡ map to_ascii_uppercase text.entry.now }
    {
        Name { text }
    }

    /// The name as it was given.
    pub fn as_str(&self) -> &'a str
        ensures { map to_ascii_uppercase result.now ≡ self.now }
    {
        self.text
    }

    /// Whether these bytes are the name in upper case.
    pub fn is_spelled(&self, word: &[u8]) -> bool
        ensures { IsTrue result ↔ (word.now ≡ self.now) }
    {
        let bytes = self.text.as_bytes();
        bytes.len() == word.len()
            && bytes
                .iter()
                .zip(word)
                .all(|(a, b)| a.to_ascii_uppercase() == *b)
    }
}
