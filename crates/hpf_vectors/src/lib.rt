//! The worked rows as data: what is asked, and the answer beside it. `hpf_rows` asks, and tells how many came out right.
//!
//! A table is one text. A line that is empty or begins with `#` says nothing. A block begins with one of these lines, and
//! ends before the next:
//!
//! ```text
//! text NAME         bytes with a name, by which later blocks call them; its pieces follow
//! row TITLE         what the program's one call is given; its lines follow, and what is due
//! sure TITLE        the same over ends that can't fail, once with the rooms of the row and once into an out without an end
//! ```
//!
//! The lines of a row:
//!
//! ```text
//! words WORD ..     the words of the command line; one in quotes, as in "a b", may have blanks, or be empty
//! file NAME         a file that the loader holds, whose pieces follow; it holds no other; quotes as for words
//! input             the bytes of the input, whose pieces follow; else it has none
//! step 3            the most bytes that a call of input, out or notes moves; else all that it is asked for
//! out step 3        the same for out alone, and so for input and for notes
//! out room 20       the most bytes that out holds, and so for notes; else a mebibyte
//! out fails 3 4     the calls of out that fail, numbered from 0, and so for notes, input and loader; else none
//! for N 0..33 40    the row is run for each of these numbers, which N stands for in its other lines; with more such
//!                   lines, for each choice of their numbers
//! gives             what is due; or `gives for N 0..11 40`, what is due of the runs with these numbers
//! ```
//!
//! What is due:
//!
//! ```text
//! status 6 write fault         the number of the status, and the line that tells it
//! load "M" limit 1048576       each load that was asked for, with its limit, and `failed` where it failed
//! input left 34-N              the bytes of the input that weren't taken, where the status settles that
//! input failed 1               how many reads failed, if one did
//! out @ F3 N                   what out was given, in pieces, if it was given anything
//! out failed 1                 how many writes and flushes of it failed, if one did; and the same of the notes
//! ```
//!
//! Pieces, one a line. The first may stand in the line of its file, behind the name, or in that of input, out or notes:
//!
//! ```text
//! | TEXT            a line of text, with its line feed
//! - TEXT            text without a line feed
//! = 0d 0a           bytes in hexadecimal digits, with blanks anywhere
//! @ NAME            a text, and `@ NAME 20` the first 20 bytes of it
//! 50 * PIECE        a piece so many times
//! ```
//!
//! Any other block is one line: what is asked, a blank, what it is asked of, and behind the last `~` the answer. In both,
//! `\n`, `\r`, `\t`, `\\` and `\x20` stand for the bytes that they do in Rust.
//!
//! ```text
//! asks WORD ..      what the words of a command line ask for
//! ending STATUS     how a status, with its numbers, is told
//! tokens TEXT       the tokens of a mapping text with their places, or its refusal
//! statements TEXT   its statements, in a form of their own: an operator has parentheses round its operands, a shape is in
//!                   brackets, and a common one between slashes; `places TEXT` has the places of their parts too
//! canonical TEXT    its canonical text
//! names TEXT        whether its names, values, shapes and lists are accepted, or the first breach in them; in this and
//!                   in what follows `%` stands for 1022 names, with commas between them
//! mapping TEXT      whether its mappings are accepted; `pipeline TEXT` whether its pipeline is too
//! owners TEXT~A     the owners of each element of A, in element order and with commas between several owners of one;
//!                   `unmapped` where A is no array whose ultimate base is distributed
//! held TEXT~A       what each processor holds of A
//! counts TEXT       how much it declares
//! stages TEXT       its stages: of each the array, the dimensions of the stage before that stand in its own, its buffers and
//!                   the owners of its elements
//! word WORD         the name that it is; `message ERROR` the message of an error
//! last TEXT~9       how many tokens the first 9 bytes of this text have, again and again, and the place of the last
//! printed A~B~9     how long A with nine times B behind it is, and whether it is its own canonical text
//! chain 9           the owners of the first of nine arrays, each aligned with the next one; `steep 9` with coefficients as
//!                   great as may be; `cycle 9` what comes of it where the last is aligned with the first
//! list FORMAT 9     what comes of nine DISTRIBUTE by a list of 100,000 values
//! part owned M 0    what processor 0 owns, or holds, under a mapping that is made by hand
//! ```
#![tactic(auto)]

mod calls;
mod canonical;
mod constraints;
mod grammar;
mod long;
mod made;
mod shadows;
mod stages;
mod tokens;

pub use calls::{ASKED, ENDS, LINES, RUNS};

/// A table. The texts of the tables before it may be named in it.
#[derive(Clone, Copy, Debug)]
pub struct Table {
    pub title: &'static str,
    pub rows: &'static str,
}

/// How mapping texts are read: tokens and long texts.
pub const TOKENS: &[Table] = &[
    Table {
        title: "tokens of a statement",
        rows: tokens::STATEMENTS,
    },
    Table {
        title: "comments",
        rows: tokens::COMMENTS,
    },
    Table {
        title: "ends of lines",
        rows: tokens::LINE_ENDS,
    },
    Table {
        title: "prefixes",
        rows: tokens::PREFIXES,
    },
    Table {
        title: "continuations",
        rows: tokens::CONTINUATIONS,
    },
    Table {
        title: "words",
        rows: long::WORDS,
    },
    Table {
        title: "messages",
        rows: long::MESSAGES,
    },
    Table {
        title: "long texts",
        rows: long::TEXTS,
    },
];

/// How mapping texts are read: statements and canonical texts.
pub const STATEMENTS: &[Table] = &[
    Table {
        title: "statements",
        rows: grammar::ACCEPTED,
    },
    Table {
        title: "statements refused",
        rows: grammar::REFUSED,
    },
    Table {
        title: "long expressions",
        rows: grammar::LONG,
    },
    Table {
        title: "places",
        rows: grammar::PLACES,
    },
    Table {
        title: "canonical statements",
        rows: canonical::STATEMENTS,
    },
    Table {
        title: "canonical expressions",
        rows: canonical::EXPRESSIONS,
    },
    Table {
        title: "canonical texts",
        rows: canonical::TEXTS,
    },
];

/// What mapping texts mean: constraints.
pub const CONSTRAINTS: &[Table] = &[
    Table {
        title: "declarations",
        rows: constraints::DECLARATIONS,
    },
    Table {
        title: "directives",
        rows: constraints::DIRECTIVES,
    },
    Table {
        title: "formats",
        rows: constraints::FORMATS,
    },
    Table {
        title: "pipelines",
        rows: constraints::PIPELINES,
    },
    Table {
        title: "forms not built, for a mapping",
        rows: constraints::NOT_BUILT_FOR_MAPPINGS,
    },
    Table {
        title: "forms not built, for a pipeline",
        rows: constraints::NOT_BUILT_FOR_PIPELINES,
    },
];

/// What mapping texts mean: the lines of a pipeline.
pub const STAGES: &[Table] = &[
    Table {
        title: "stages beside the line before",
        rows: stages::EXTENTS,
    },
    Table {
        title: "permutations",
        rows: stages::PERMUTATIONS,
    },
    Table {
        title: "buffers",
        rows: stages::BUFFERS,
    },
    Table {
        title: "lines of a pipeline",
        rows: stages::LINES,
    },
    Table {
        title: "lines beside breaches",
        rows: stages::UNTESTED,
    },
    Table {
        title: "stages",
        rows: stages::STAGES,
    },
];

/// What mapping texts mean: owners and parts.
pub const PARTS: &[Table] = &[
    Table {
        title: "owners",
        rows: constraints::OWNERS,
    },
    Table {
        title: "shadows",
        rows: shadows::SHADOWS,
    },
    Table {
        title: "held parts",
        rows: shadows::HELD,
    },
    Table {
        title: "texts that are made",
        rows: made::TEXTS,
    },
    Table {
        title: "programs",
        rows: made::PROGRAMS,
    },
    Table {
        title: "parts by hand",
        rows: made::PARTS,
    },
];
