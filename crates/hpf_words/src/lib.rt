//! The words of the program's command line. [`read_words`] reads them as one simple command of `clap`, and then by the
//! table of actions: what each of them needs besides the map, and what it may have.
#![tactic(auto)]

mod asked;
mod command;
mod given;
mod laws;
mod matches;
mod name;
mod refusal;
mod table;
mod words;

pub use asked::{Asked, CommandLine};
pub use laws::one_line;
pub use name::Name;
pub use refusal::WordsError;
pub use words::read_words;
