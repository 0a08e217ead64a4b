//! What the names in the lines of a row stand for.

use anyhow::{Context, Result};
use std::alloc::Global;

/// Bytes with a name.
#[derive(Drop)]
pub struct Named<'a> {
    pub name: &'a str,
    pub bytes: Vec<u8>,
}

/// A variable of a row, and the number that it stands for.
#[derive(Clone, Copy, Debug)]
pub struct Variable<'a> {
    pub name: &'a str,
    pub number: u64,
}

/// The texts of the table so far, and the variables of the row.
#[derive(Clone, Copy)]
pub struct Scope<'a, 'b> {
    pub texts: &'b [Named<'a>],
    pub variables: &'b [Variable<'a>],
}

impl<'b> Scope<'_, 'b> {
    /// The number that a word is, or stands for, or the difference of two such words.
    pub fn number(&self, word: &str) -> Result<u64> {
        match word.split_once('-') {
            Some((from, less)) => {
                let (from, less) = (self.value(from)?, self.value(less)?);
                from.checked_sub(less)
                    .context(format_args!("no number: {word}"))
            }
            None => self.value(word),
        }
    }

    /// The number that a word is, or stands for.
    fn value(&self, word: &str) -> Result<u64> {
        match self.variables.iter().find(|known| known.name == word) {
            Some(known) => Ok(known.number),
            None => word
                .parse::<u64>()
                .context(format_args!("no number: {word}")),
        }
    }

    /// The numbers of some words.
    pub fn numbers(&self, alloc: Global, words: &str) -> Result<Vec<u64>> {
        let mut numbers = Vec::new(alloc);
        for word in words.split_whitespace() {
            numbers.push(self.number(word)?)?;
        }
        Ok(numbers)
    }

    /// The bytes of a text.
    pub fn text(&self, name: &str) -> Result<&'b [u8]> {
        let found = self.texts.iter().find(|text| text.name == name);
        let text = found.context(format_args!("no text has the name {name}"))?;
        Ok(text.bytes.as_slice())
    }
}
