//! Declarations.

ghost use Rattle.std.specs.Prelude.{◌≡◌, map, option_map, codes, ◌++◌, OnOk};
ghost use Rattle.hpf_syntax.specs.Plain.{BoundTree, DeclaredTree, ConstantTree, tree, bound_tree, declared_tree, value_tree, constant_tree};
ghost use Rattle.hpf_syntax.specs.Canonical.{listed, low_text, bound_text, shape_text, declared_text, value_text, constant_text, dimension_text, before_variables};

use crate::printed::Printed;
use crate::printer::expression::{array, expression};
use crate::printer::piece::{Piece, enclosed, listed};
use crate::tree::{Bound, Constant, Declared, Expr, Value};
use std::alloc::AllocError;

/// An expression with a colon behind it, if there is one.
fn low(out: &mut Printed, e: &Option<Expr>) -> Result<(), AllocError>
    ensures { OnOk result (out.new ≡ out.old ++ low_text (option_map tree e.now)) }
{
    match e {
        Some(e) => {
            expression(out, e)?;
            out.put(b":")
        }
        None => Ok(()),
    }
}

impl Piece for Bound {
    ghost Tree = { BoundTree };

    ghost tree = { bound_tree };

    ghost text = { bound_text };

    fn print(&self, out: &mut Printed) -> Result<(), AllocError> {
        low(out, &self.low)?;
        expression(out, &self.high)
    }
}

/// A shape, if there is one.
fn shape(out: &mut Printed, bounds: &[Bound]) -> Result<(), AllocError>
    ensures { OnOk result (out.new ≡ out.old ++ shape_text (map bound_tree bounds.now)) }
{
    match bounds {
        [] => Ok(()),
        _ => enclosed(out, bounds),
    }
}

impl Piece for Declared {
    ghost Tree = { DeclaredTree };

    ghost tree = { declared_tree };

    ghost text = { declared_text };

    fn print(&self, out: &mut Printed) -> Result<(), AllocError> {
        self.name.print(out)?;
        shape(out, self.shape.as_slice())
    }
}

/// The value of a constant.
fn value(out: &mut Printed, value: &Value) -> Result<(), AllocError>
    ensures { OnOk result (out.new ≡ out.old ++ value_text (value_tree value.now)) }
{
    match value {
        Value::One(e) => expression(out, e),
        Value::Many(es) => array(out, es.as_slice()),
    }
}

impl Piece for Constant {
    ghost Tree = { ConstantTree };

    ghost tree = { constant_tree };

    ghost text = { constant_text };

    fn print(&self, out: &mut Printed) -> Result<(), AllocError> {
        self.name.print(out)?;
        shape(out, self.shape.as_slice())?;
        out.put(b" = ")?;
        value(out, &self.value)
    }
}

/// The shape that names have in common, if there is one.
fn dimension(out: &mut Printed, common: &[Bound]) -> Result<(), AllocError>
    ensures { OnOk result (out.new ≡ out.old ++ dimension_text (map bound_tree common.now)) }
{
    match common {
        [] => Ok(()),
        _ => {
            out.put(b", DIMENSION")?;
            shape(out, common)
        }
    }
}

/// What stands between INTEGER and the names of variables.
fn before_variables(out: &mut Printed, common: &[Bound]) -> Result<(), AllocError>
    ensures { OnOk result (out.new ≡ out.old ++ before_variables (map bound_tree common.now)) }
{
    match common {
        [] => out.put(b" "),
        _ => {
            dimension(out, common)?;
            out.put(b" :: ")
        }
    }
}

/// Variables with the shape that they have in common.
pub(crate) fn variables(
    out: &mut Printed,
    common: &[Bound],
    names: &[Declared],
) -> Result<(), AllocError>
    ensures { OnOk result (out.new ≡ out.old
        ++ (codes "INTEGER" ++ (before_variables (map bound_tree common.now) ++ listed declared_text (map declared_tree names.now)))) }
{
    out.put(b"INTEGER")?;
    before_variables(out, common)?;
    listed(out, names)
}

/// Constants with the shape that they have in common.
pub(crate) fn constants(
    out: &mut Printed,
    common: &[Bound],
    names: &[Constant],
) -> Result<(), AllocError>
    ensures { OnOk result (out.new ≡ out.old
        ++ (codes "INTEGER, PARAMETER" ++ (dimension_text (map bound_tree common.now) ++ (codes " :: " ++ listed constant_text (map constant_tree names.now))))) }
{
    out.put(b"INTEGER, PARAMETER")?;
    dimension(out, common)?;
    out.put(b" :: ")?;
    listed(out, names)
}
