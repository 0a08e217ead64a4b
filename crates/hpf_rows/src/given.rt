//! What a run of the call is given.

use crate::line::{Line, cut, cut_name};
use crate::piece::push_piece;
use crate::scope::{Named, Scope};
use crate::words::words_of;
use anyhow::{Context, Result, bail};
use std::alloc::Global;
use std::num::NonZeroUsize;

/// The room of a sink of which the row says nothing: a mebibyte.
const AMPLE: usize = 1 << 20;

/// The input.
#[derive(Drop)]
pub struct Input {
    pub bytes: Vec<u8>,
    /// The most bytes that a read moves.
    pub step: NonZeroUsize,
    /// The numbers from 0 of the reads that fail.
    pub fails: Vec<u64>,
}

/// A sink.
#[derive(Drop)]
pub struct Sink {
    /// The most bytes that it holds.
    pub room: usize,
    /// The most bytes that a write moves.
    pub step: NonZeroUsize,
    /// The numbers from 0 of the writes and flushes that fail.
    pub fails: Vec<u64>,
}

/// What the next pieces belong to.
#[derive(Clone, Copy, Debug)]
enum Open {
    Nothing,
    File,
    Input,
}

/// What a run of the call is given.
#[derive(Drop)]
pub struct Given<'a> {
    pub words: Vec<String>,
    /// The files that the loader holds.
    pub files: Vec<Named<'a>>,
    /// The numbers from 0 of the loads that fail.
    pub loader_fails: Vec<u64>,
    pub input: Input,
    pub out: Sink,
    pub notes: Sink,
    open: Open,
}

impl<'a> Given<'a> {
    /// What the lines of a row give.
    pub fn read(alloc: Global, lines: &[Line<'a>], scope: Scope<'a, '_>) -> Result<Given<'a>> {
        let mut given = Given {
            words: Vec::new(alloc),
            files: Vec::new(alloc),
            loader_fails: Vec::new(alloc),
            input: Input::new(alloc),
            out: Sink::new(alloc),
            notes: Sink::new(alloc),
            open: Open::Nothing,
        };
        for line in lines {
            let taken = given.take(alloc, *line, scope);
            taken.context(format_args!("line {}", line.number))?;
        }
        Ok(given)
    }

    /// Takes a line.
    fn take(&mut self, alloc: Global, line: Line<'a>, scope: Scope<'a, '_>) -> Result<()> {
        match line.head {
            // The series are read with the row.
            "for" => Ok(()),
            "words" => {
                self.words = words_of(alloc, line.rest)?;
                Ok(())
            }
            "file" => {
                let (name, piece) = cut_name(line.rest);
                self.open = Open::File;
                self.files.push(Named {
                    name,
                    bytes: Vec::new(alloc),
                })?;
                self.begin(alloc, piece, scope)
            }
            "input" if !is_setting(line.rest) => {
                self.open = Open::Input;
                self.begin(alloc, line.rest, scope)
            }
            "step" => {
                let step = step_of(scope, line.rest)?;
                self.input.step = step;
                self.out.step = step;
                self.notes.step = step;
                Ok(())
            }
            "loader" | "input" | "out" | "notes" => self.set(alloc, line, scope),
            _ => self.add(alloc, line.head, line.rest, scope),
        }
    }

    /// Takes a setting of an object.
    fn set(&mut self, alloc: Global, line: Line<'a>, scope: Scope<'a, '_>) -> Result<()> {
        let (setting, words) = cut(line.rest);
        match (line.head, setting) {
            ("loader", "fails") => self.loader_fails = scope.numbers(alloc, words)?,
            ("input", "fails") => self.input.fails = scope.numbers(alloc, words)?,
            ("input", "step") => self.input.step = step_of(scope, words)?,
            ("out", _) => self.out.set(alloc, setting, words, scope)?,
            ("notes", _) => self.notes.set(alloc, setting, words, scope)?,
            _ => bail!("{} has no setting {setting}", line.head),
        }
        Ok(())
    }

    /// Adds the first piece of a file or of the input, if it stands in that line.
    fn begin(&mut self, alloc: Global, piece: &str, scope: Scope<'a, '_>) -> Result<()> {
        if piece.is_empty() {
            return Ok(());
        }
        let (head, rest) = cut(piece);
        self.add(alloc, head, rest, scope)
    }

    /// Adds a piece to the file or to the input that was begun last.
    fn add(&mut self, alloc: Global, head: &str, rest: &str, scope: Scope<'a, '_>) -> Result<()> {
        match (self.open, self.files.last_mut()) {
            (Open::Input, _) => push_piece(alloc, scope, head, rest, &mut self.input.bytes),
            (Open::File, Some(file)) => push_piece(alloc, scope, head, rest, &mut file.bytes),
            _ => bail!("neither a file nor an input has begun"),
        }
    }
}

/// The words that set something of an object, behind its name.
fn is_setting(words: &str) -> bool {
    matches!(cut(words).0, "step" | "room" | "fails")
}

impl Input {
    /// No bytes, with large steps.
    fn new(alloc: Global) -> Input {
        Input {
            bytes: Vec::new(alloc),
            step: NonZeroUsize::MAX,
            fails: Vec::new(alloc),
        }
    }
}

impl Sink {
    /// Ample room, and large steps.
    fn new(alloc: Global) -> Sink {
        Sink {
            room: AMPLE,
            step: NonZeroUsize::MAX,
            fails: Vec::new(alloc),
        }
    }

    fn set(
        &mut self,
        alloc: Global,
        setting: &str,
        words: &str,
        scope: Scope<'_, '_>,
    ) -> Result<()> {
        match setting {
            "room" => self.room = scope.number(words)? as usize,
            "step" => self.step = step_of(scope, words)?,
            "fails" => self.fails = scope.numbers(alloc, words)?,
            _ => bail!("a sink has no setting {setting}"),
        }
        Ok(())
    }
}

/// The step that a word gives.
fn step_of(scope: Scope<'_, '_>, word: &str) -> Result<NonZeroUsize> {
    NonZeroUsize::new(scope.number(word)? as usize).context("a step is at least 1")
}
