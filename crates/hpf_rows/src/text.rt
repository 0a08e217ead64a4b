//! The texts of rows, and names by number.

use std::alloc::{AllocError, Global};

/// The text of a row, where `%` stands for 1022 names.
pub fn text_of(alloc: Global, row: &str) -> Result<String, AllocError> {
    let Some((front, back)) = row.split_once('%') else {
        return String::from_str(alloc, row);
    };
    let mut text = String::from_str(alloc, front)?;
    push_names(&mut text, 1022)?;
    text.push_str(back)?;
    Ok(text)
}

/// Adds so many names, `N1` and so on, with commas between them.
pub fn push_names(text: &mut String, count: u32) -> Result<(), AllocError> {
    for i in 1..=count {
        if i > 1 {
            text.push_str(", ")?;
        }
        write!(text, "N{i}")?;
    }
    Ok(())
}
