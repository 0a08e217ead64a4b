//! Places of a text.

/// A line and a column, both from 1. A column counts bytes.
#[derive(Clone, Copy)]
pub struct Place {
    pub line: u32,
    pub column: u32,
}
