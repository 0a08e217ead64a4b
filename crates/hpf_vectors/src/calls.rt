//! Rows of the program's one call: what it is given, and what comes of it.

mod checks;
mod endings;
mod faults;
mod lines;
mod locals;
mod makes;
mod mappings;
mod maps;
mod owners;
mod runs;
mod shows;
mod texts;
mod words;

use crate::Table;

/// Command lines, and the words and maps of calls.
pub const LINES: &[Table] = &[
    Table {
        title: "texts",
        rows: texts::ROWS,
    },
    Table {
        title: "command lines",
        rows: lines::ROWS,
    },
    Table {
        title: "calls: words",
        rows: words::ROWS,
    },
    Table {
        title: "calls: maps",
        rows: maps::ROWS,
    },
];

/// What is asked of a map.
pub const ASKED: &[Table] = &[
    Table {
        title: "calls: checks",
        rows: checks::ROWS,
    },
    Table {
        title: "calls: owners",
        rows: owners::ROWS,
    },
    Table {
        title: "calls: locals",
        rows: locals::ROWS,
    },
];

/// Runs, faults and mappings.
pub const RUNS: &[Table] = &[
    Table {
        title: "calls: runs",
        rows: runs::ROWS,
    },
    Table {
        title: "calls: faults",
        rows: faults::ROWS,
    },
    Table {
        title: "calls: mappings",
        rows: mappings::ROWS,
    },
];

/// What is shown and made, and how calls end.
pub const ENDS: &[Table] = &[
    Table {
        title: "calls: shows",
        rows: shows::ROWS,
    },
    Table {
        title: "calls: makes",
        rows: makes::ROWS,
    },
    Table {
        title: "statuses",
        rows: endings::ROWS,
    },
];
