//! Pieces of statements, and lists of them.

ghost use Rattle.std.specs.Prelude.{◌≡◌, ℕ, List, map, ◌++◌, OnOk};
ghost use Rattle.hpf_syntax.specs.Canonical.{listed, parenthesized, name_text};
ghost use Rattle.hpf_syntax.specs.declared.tree.Spot.{Spot};

use crate::printed::Printed;
use crate::tree::Spot;
use std::alloc::AllocError;

/// What lists in a statement are made of. It is printed as the text of what it is seen as, which knows no boxes.
pub(crate) trait Piece {
    ghost Tree: { Type 0 };

    ghost tree: { Self → Tree };

    ghost text: { Tree → List ℕ };

    fn print(&self, out: &mut Printed) -> Result<(), AllocError>
        ensures { OnOk result (out.new ≡ out.old ++ text (tree self.now)) };
}

impl Piece for Spot {
    ghost Tree = { Spot };

    ghost tree = { λ x. x };

    ghost text = { name_text };

    fn print(&self, out: &mut Printed) -> Result<(), AllocError> {
        out.put(self.word.as_slice())
    }
}

/// Pieces, with a comma and a blank between two.
pub(crate) fn listed<P: Piece>(out: &mut Printed, pieces: &[P]) -> Result<(), AllocError>
    ensures { OnOk result (out.new ≡ out.old ++ listed P.text (map P.tree pieces.now)) }
{
    if let [first, rest @ ..] = pieces {
        first.print(out)?;
        for piece in rest {
            out.put(b", ")?;
            piece.print(out)?;
        }
    }
    Ok(())
}

/// Pieces in parentheses.
pub(crate) fn enclosed<P: Piece>(out: &mut Printed, pieces: &[P]) -> Result<(), AllocError>
    ensures { OnOk result (out.new ≡ out.old ++ parenthesized (listed P.text (map P.tree pieces.now))) }
{
    out.put(b"(")?;
    listed(out, pieces)?;
    out.put(b")")
}

/// A name in parentheses.
pub(crate) fn name_argument(out: &mut Printed, name: &Spot) -> Result<(), AllocError>
    ensures { OnOk result (out.new ≡ out.old ++ parenthesized (name_text name.now)) }
{
    out.put(b"(")?;
    name.print(out)?;
    out.put(b")")
}
