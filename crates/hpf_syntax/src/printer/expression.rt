//! Expressions, with no more parentheses than they need.

ghost use Rattle.std.specs.Prelude.{◌≡◌, ℕ, List, map, option_map, ◌++◌, [], OnOk};
ghost use Rattle.std.specs.Fmt.{decimal};
ghost use Rattle.hpf_syntax.specs.Plain.{Tree, tree};
ghost use Rattle.hpf_syntax.specs.Canonical.{is_sum, is_product, expression_text, guarded, argument_text, array_text, optional, colon_text};

use crate::printed::Printed;
use crate::printer::piece::{Piece, listed};
use crate::tree::Expr;
use itoa::Buffer;
use std::alloc::AllocError;

/// Whether it is a sum, a difference or a negation.
fn is_sum(e: &Expr) -> bool
    ensures { result ≡ is_sum (tree e.now) }
{
    matches!(e, Expr::Neg(..) | Expr::Plus(..) | Expr::Minus(..))
}

/// Whether it is a product.
fn is_product(e: &Expr) -> bool
    ensures { result ≡ is_product (tree e.now) }
{
    matches!(e, Expr::Times(..))
}

/// A number in decimal.
fn number(out: &mut Printed, n: u32) -> Result<(), AllocError>
    ensures { OnOk result (out.new ≡ out.old ++ decimal n) }
{
    let mut digits = Buffer::new();
    out.put(digits.format(n).as_bytes())
}

/// An expression, in parentheses where they are needed.
#[cycle(printed_expression)]
fn guarded(out: &mut Printed, needed: bool, e: &Expr) -> Result<(), AllocError>
    ensures { OnOk result (out.new ≡ out.old ++ guarded needed (expression_text (tree e.now))) }
{
    if needed {
        out.put(b"(")?;
        expression(out, e)?;
        out.put(b")")
    } else {
        expression(out, e)
    }
}

/// An expression.
#[cycle(printed_expression)]
pub(crate) fn expression(out: &mut Printed, e: &Expr) -> Result<(), AllocError>
    ensures { OnOk result (out.new ≡ out.old ++ expression_text (tree e.now)) }
{
    match e {
        Expr::Number(_, n) => number(out, *n),
        Expr::Name(_, word) => out.put(word.as_slice()),
        Expr::Neg(_, operand) => {
            out.put(b"-")?;
            guarded(out, is_sum(operand), operand)
        }
        Expr::Plus(_, left, right) => {
            expression(out, left)?;
            out.put(b"+")?;
            guarded(out, is_sum(right), right)
        }
        Expr::Minus(_, minuend, subtrahend) => {
            expression(out, minuend)?;
            out.put(b"-")?;
            guarded(out, is_sum(subtrahend), subtrahend)
        }
        Expr::Times(_, left, right) => {
            guarded(out, is_sum(left), left)?;
            out.put(b"*")?;
            guarded(out, is_sum(right) || is_product(right), right)
        }
    }
}

impl Piece for Expr {
    ghost Tree = { Tree };

    ghost tree = { tree };

    ghost text = { expression_text };

    fn print(&self, out: &mut Printed) -> Result<(), AllocError> {
        expression(out, self)
    }
}

/// An expression in parentheses.
pub(crate) fn argument(out: &mut Printed, e: &Expr) -> Result<(), AllocError>
    ensures { OnOk result (out.new ≡ out.old ++ argument_text (tree e.now)) }
{
    out.put(b"(")?;
    expression(out, e)?;
    out.put(b")")
}

/// Expressions as the list of an array.
pub(crate) fn array(out: &mut Printed, es: &[Expr]) -> Result<(), AllocError>
    ensures { OnOk result (out.new ≡ out.old ++ array_text (map tree es.now)) }
{
    out.put(b"(/ ")?;
    listed(out, es)?;
    out.put(b" /)")
}

/// An expression, if there is one.
pub(crate) fn maybe(out: &mut Printed, e: &Option<Expr>) -> Result<(), AllocError>
    ensures { OnOk result (out.new ≡ out.old ++ optional [] expression_text (option_map tree e.now)) }
{
    match e {
        Some(e) => expression(out, e),
        None => Ok(()),
    }
}

/// An expression behind a colon, if there is one.
pub(crate) fn behind_colon(out: &mut Printed, e: &Option<Expr>) -> Result<(), AllocError>
    ensures { OnOk result (out.new ≡ out.old ++ colon_text (option_map tree e.now)) }
{
    match e {
        Some(e) => {
            out.put(b":")?;
            expression(out, e)
        }
        None => Ok(()),
    }
}
