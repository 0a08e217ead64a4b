//! The constraints of a mapping text.

ghost use Rattle.std.specs.Prelude.{◌≡◌};

use hpf_lex::MapRefusal;
use hpf_syntax::At;

/// What the statements of a mapping text may break.
#[derive(Clone, Copy, Debug, PartialEq, Eq)]
pub enum Constraint {
    /// A name is declared that an earlier place declares.
    Twice,
    /// A name is used that nothing declares, or in an expression that nothing declares before.
    Unknown,
    /// A name is used for what it isn't.
    Kind,
    /// A number of dimensions or of values differs from what it should be.
    Rank,
    /// An upper bound is below its lower bound.
    Empty,
    /// A value, a number of bounds, of elements or of names, or an extent is too great.
    Limit,
    /// The blocks of all processors together are shorter than the dimension.
    BlockTooSmall,
    /// A width is below 1.
    WidthZero,
    /// There isn't one length for each processor.
    LengthCount,
    /// A length is negative.
    NegativeLength,
    /// The lengths together are shorter than the dimension.
    LengthSum,
    /// There isn't one value for each position.
    PlaceCount,
    /// A value is no subscript of the arrangement.
    PlaceValue,
    /// No arrangement has as many dimensions as a DISTRIBUTE without ONTO divides.
    NoArrangement,
    /// A name is mapped that an earlier directive maps.
    MappedTwice,
    /// A dummy stands twice among the sources, or in two subscripts.
    DummyTwice,
    /// A subscript has more than one dummy, or a triplet has one.
    NotLinear,
    /// The `:` sources and the triplets don't match.
    Unlike,
    /// An element is aligned with a position outside the base.
    Outside,
    /// An alignee is aligned with itself, over others or at once.
    Cycle,
    /// An array has a shadow that an earlier directive gives it, a template has one, or a width is negative.
    Shadow,
    /// The lines of a pipeline don't go together.
    Pipeline,
}

impl Constraint {
    ghost use Rattle.hpf_map.specs.Constraint.{code_of, breach};

    /// The code number of a refusal for it.
    pub fn code(self) -> u8
        ensures { result ≡ code_of self }
    {
        match self {
            Constraint::Twice => 21,
            Constraint::Unknown => 22,
            Constraint::Kind => 23,
            Constraint::Rank => 24,
            Constraint::Empty => 25,
            Constraint::Limit => 26,
            Constraint::BlockTooSmall => 27,
            Constraint::WidthZero => 28,
            Constraint::LengthCount => 29,
            Constraint::NegativeLength => 30,
            Constraint::LengthSum => 31,
            Constraint::PlaceCount => 32,
            Constraint::PlaceValue => 33,
            Constraint::NoArrangement => 34,
            Constraint::MappedTwice => 35,
            Constraint::DummyTwice => 36,
            Constraint::NotLinear => 37,
            Constraint::Unlike => 38,
            Constraint::Outside => 39,
            Constraint::Cycle => 40,
            Constraint::Shadow => 41,
            Constraint::Pipeline => 42,
        }
    }

    /// The refusal of a text that breaks it at this place.
    pub(crate) fn at(self, at: At) -> MapRefusal
        ensures { result ≡ breach self at }
    {
        MapRefusal {
            code: self.code(),
            line: at.line,
            column: at.column,
        }
    }
}
