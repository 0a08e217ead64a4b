//! What a name is used for.

ghost use Rattle.std.specs.Prelude.{◌≡◌};
ghost use Rattle.hpf_map.specs.Uses.{suits};

use crate::name::{Meaning, Space};

/// What a name is used for.
#[derive(Clone, Copy, Debug, PartialEq, Eq)]
pub(crate) enum Role {
    /// A name in an expression: a named constant without a shape.
    Value,
    /// The name in GEN_BLOCK and INDIRECT: a named constant with a shape.
    List,
    /// An alignee, and the name in INPUT and STAGE: an array.
    Array,
    /// A distributee, a base, and the name in SHADOW: an array or a template.
    Mapped,
    /// The name in ONTO: an arrangement of processors.
    Target,
}

impl Role {
    /// Whether a name of this meaning is what the role asks for.
    pub(crate) fn suits(self, meaning: &Meaning) -> bool
        ensures { result ≡ suits self meaning.now }
    {
        match meaning {
            Meaning::Scalar => false,
            Meaning::Constant(_) => matches!(self, Role::Value),
            Meaning::List(_) => matches!(self, Role::List),
            Meaning::Shaped(space, _) => match space {
                Space::Array => matches!(self, Role::Array | Role::Mapped),
                Space::Template => matches!(self, Role::Mapped),
                Space::Arrangement => matches!(self, Role::Target),
            },
        }
    }
}
