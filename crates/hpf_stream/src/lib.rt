//! Frames on their way from a source, through a consumer, to a sink, and what is said of the way: of the objects
//! between two moments, of what an action gives for frames (`Flow`), and of what came of it at each end (`Streams`).
#![tactic(auto)]

mod consumer;
mod pass;
mod stop;

pub use consumer::Consumer;
pub use pass::stream;
pub use stop::Stop;
