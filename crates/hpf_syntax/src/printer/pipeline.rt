//! Pipeline statements.

ghost use Rattle.std.specs.Prelude.{◌≡◌, map, option_map, codes, ◌++◌, OnOk};
ghost use Rattle.hpf_syntax.specs.Plain.{tree, op_tree};
ghost use Rattle.hpf_syntax.specs.Canonical.{name_text, permute_text, buffers_text, operation_text};

use crate::list::List;
use crate::printed::Printed;
use crate::printer::expression::{argument, array, expression};
use crate::printer::piece::{Piece, enclosed};
use crate::tree::{Expr, OpItem, Spot};
use std::alloc::AllocError;

/// The order of dimensions behind PERMUTE, if there is one.
fn order(out: &mut Printed, permute: &Option<List<Expr>>) -> Result<(), AllocError>
    ensures { OnOk result (out.new ≡ out.old ++ permute_text (option_map (map tree) permute.now)) }
{
    match permute {
        Some(order) => {
            out.put(b" PERMUTE")?;
            enclosed(out, order.as_slice())
        }
        None => Ok(()),
    }
}

/// The number of buffers behind BUFFERS, if there is one.
fn buffer_count(out: &mut Printed, buffers: &Option<Expr>) -> Result<(), AllocError>
    ensures { OnOk result (out.new ≡ out.old ++ buffers_text (option_map tree buffers.now)) }
{
    match buffers {
        Some(count) => {
            out.put(b" BUFFERS")?;
            argument(out, count)
        }
        None => Ok(()),
    }
}

/// The operation of a stage.
fn operation(out: &mut Printed, op: &OpItem) -> Result<(), AllocError>
    ensures { OnOk result (out.new ≡ out.old ++ operation_text (op_tree op.now)) }
{
    match op {
        OpItem::Plain => Ok(()),
        OpItem::Add(_, e) => {
            out.put(b" ADD")?;
            argument(out, e)
        }
        OpItem::Mul(_, e) => {
            out.put(b" MUL")?;
            argument(out, e)
        }
        OpItem::Prefix(_, e) => {
            out.put(b" PREFIX")?;
            argument(out, e)
        }
        OpItem::Stencil(_, e, weights) => {
            out.put(b" STENCIL(")?;
            expression(out, e)?;
            out.put(b", ")?;
            array(out, weights.as_slice())?;
            out.put(b")")
        }
    }
}

/// The stage of the input.
pub(crate) fn input(
    out: &mut Printed,
    name: &Spot,
    buffers: &Option<Expr>,
    op: &OpItem,
) -> Result<(), AllocError>
    ensures { OnOk result (out.new ≡ out.old
        ++ (codes "!PIPE$ INPUT " ++ (name_text name.now ++ (buffers_text (option_map tree buffers.now) ++ operation_text (op_tree op.now))))) }
{
    out.put(b"!PIPE$ INPUT ")?;
    name.print(out)?;
    buffer_count(out, buffers)?;
    operation(out, op)
}

/// A later stage.
pub(crate) fn stage(
    out: &mut Printed,
    name: &Spot,
    permute: &Option<List<Expr>>,
    buffers: &Option<Expr>,
    op: &OpItem,
) -> Result<(), AllocError>
    ensures { OnOk result (out.new ≡ out.old
        ++ (codes "!PIPE$ STAGE " ++ (name_text name.now ++ (permute_text (option_map (map tree) permute.now)
        ++ (buffers_text (option_map tree buffers.now) ++ operation_text (op_tree op.now)))))) }
{
    out.put(b"!PIPE$ STAGE ")?;
    name.print(out)?;
    order(out, permute)?;
    buffer_count(out, buffers)?;
    operation(out, op)
}
