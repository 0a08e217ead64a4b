//! What a mapping text means. [`resolve`] gives the program of a text that breaks no constraint, or the breach that comes
//! first by line, column and code. Its way through the modules:
//!
//! - `built`: forms that aren't built are refused before all else.
//! - `checked` goes through the layers of constraints. Each constraint has one function that notes into the `breaches` found
//!   so far, of which the first is kept, and no function ends early.
//!   - `statements`: names and what they are (`declare`, `constants`, `shapes`, `values`), and what the subscripts of each ALIGN
//!     and the widths of each DISTRIBUTE and SHADOW say (`directives`, `subscripts`, `linear`, `dummy_places`, `format_widths`,
//!     `shadow_widths`).
//!   - `alignments` and `distributions` (`arrangements`): directives, each by itself; `dealing` and `formats`: what each format
//!     of a DISTRIBUTE asks for; `ways` and `cycles`: how each name is mapped, and chains.
//!   - `pipeline`: the lines of a pipeline; `stages`: each beside those in front of it (`lines` is what they say); `shadows`:
//!     names in SHADOW, and the first one of each array.
//! - `direct`: the images of each array in its base; `landings`: those in its ultimate base, composed once an array
//!   (`plain`, `compose`).
//! - `cuts`: how each dimension of a base is divided; `mapped`, `mappings`: the mapping of an array, and those of all, with
//!   the stages.
//! - `resolution` joins them to a [`Program`].
#![tactic(auto)]

mod alignments;
mod arithmetic;
mod arrangements;
mod breaches;
mod built;
mod checked;
mod compose;
mod constants;
mod constraint;
mod counts;
mod cuts;
mod cycles;
mod dealing;
mod declare;
mod direct;
mod directives;
mod distributions;
mod dummies;
mod dummy_places;
mod expressions;
mod format_widths;
mod formats;
mod gathered;
mod given;
mod landings;
mod linear;
mod lines;
mod lists;
mod mapped;
mod mappings;
mod name;
mod names;
mod paired;
mod pipeline;
mod places;
mod plain;
mod program;
mod resolution;
mod role;
mod scope;
mod shadow_widths;
mod shadows;
mod shapes;
mod sound;
mod spaces;
mod stages;
mod statements;
mod subscript;
mod subscripts;
mod triplet;
mod uses;
mod uses_that_map;
mod values;
mod walk;
mod way;
mod ways;

pub use constraint::Constraint;
pub use name::{Dimensions, Meaning, Name, Shape, Space, Span, Values};
pub use names::Names;
pub use program::{Counts, Need, Program, Stage};
pub use resolution::resolve;
pub use statements::declared_names;
