//! How a call of the program ends: its status, the number that the program exits with, and the line that tells it.
#![tactic(auto)]

mod exit;
mod line;
mod names;
mod status;

pub use exit::report;
pub use line::{LONGEST, Line, plain, push_number};
pub use status::{Status, status_line};
