//! What a command line asks for.

use crate::name::Name;

/// What is asked for of a map, with all that it needs. Processors and stages count from 0.
#[derive(Debug, Drop)]
pub enum Asked<'a> {
    /// Whether the map is accepted.
    Check,
    /// Its canonical text.
    Show,
    /// The owners of each element of an array.
    Owners {
        name: Name<'a>,
    },
    /// The part of an array that a processor, 0 to 63, holds.
    Local {
        name: Name<'a>,
        processor: u32,
    },
    /// All routes, and the planned number of elements.
    Plan,
    /// The frames that leave the pipeline, by 1 to 64 workers.
    Run {
        workers: u32,
    },
    /// The parts of a stage, 0 to 15, by 1 to 64 workers.
    Parts {
        stage: u32,
        workers: u32,
    },
    /// A file of so many frames, generated from a seed.
    Make {
        frames: u32,
        seed: u32,
    },
    /// A run on so many frames, generated from a seed, by 1 to 64 workers.
    Trial {
        frames: u32,
        seed: u32,
        workers: u32,
    },
}

/// A command line that is accepted.
#[derive(Debug, Drop)]
pub struct CommandLine<'a> {
    pub asked: Asked<'a>,
    /// The name of the map that it is asked of.
    pub map: &'a str,
}
