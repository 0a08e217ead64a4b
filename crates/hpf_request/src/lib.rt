//! What the words of the command line and the map that they name come to: what is to be done (a `Deed`), or the
//! status by which it is refused. `words` reads the words, `map` the text, and `request` puts both together, in the
//! order of tests that `specs/Order.antt` says. `form` and `part` are what a run is made of, with the marks of its
//! parts.
#![tactic(auto)]

mod form;
mod laws;
mod map;
mod named;
mod part;
mod parts;
mod request;
mod stages;
mod words;

pub use form::Form;
pub use laws::{a_run_gives_a_file, one_asking, one_verdict};
pub use part::Part;
pub use parts::add_frame;
pub use request::{Request, request_of};
pub use words::Action;
