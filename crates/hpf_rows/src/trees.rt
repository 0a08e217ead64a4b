//! Statements, as the rows of tables show them: a tree with parentheses round the operands of each operator.

use hpf_lex::Word;
use hpf_syntax::{
    At, Bound, Constant, Declared, Expr, FormatItem, Item, OpItem, SourceItem, Spot, SubItem,
    Value, WidthItem,
};
use std::alloc::{AllocError, Global};

/// The statements, with the places of their parts where that is asked.
pub fn statements(alloc: Global, items: &[Item], places: bool) -> Result<String, AllocError> {
    let mut out = Shown {
        text: String::new(alloc),
        places,
    };
    for item in items {
        show_item(&mut out, item)?;
    }
    Ok(out.text)
}

/// What is shown, and whether with places.
#[derive(Drop)]
struct Shown {
    text: String,
    places: bool,
}

impl Shown {
    fn put(&mut self, text: &str) -> Result<(), AllocError> {
        self.text.push_str(text)
    }

    fn at(&mut self, at: &At) -> Result<(), AllocError> {
        if self.places {
            write!(self.text, "@{}:{}", at.line, at.column)?;
        }
        Ok(())
    }

    fn word(&mut self, word: &Word) -> Result<(), AllocError> {
        for byte in word.as_slice() {
            self.text.push(char::from(*byte))?;
        }
        Ok(())
    }

    fn spot(&mut self, spot: &Spot) -> Result<(), AllocError> {
        self.word(&spot.word)?;
        self.at(&spot.at)
    }
}

/// An expression, with parentheses round the operands of each operator.
fn show_expr(out: &mut Shown, e: &Expr) -> Result<(), AllocError> {
    match e {
        Expr::Number(at, n) => {
            write!(out.text, "{n}")?;
            out.at(at)
        }
        Expr::Name(at, word) => {
            out.word(word)?;
            out.at(at)
        }
        Expr::Neg(at, inner) => {
            out.put("-")?;
            out.at(at)?;
            out.put("(")?;
            show_expr(out, inner)?;
            out.put(")")
        }
        Expr::Plus(at, left, right) => {
            out.put("(")?;
            show_expr(out, left)?;
            out.put("+")?;
            out.at(at)?;
            show_expr(out, right)?;
            out.put(")")
        }
        Expr::Minus(at, left, right) => {
            out.put("(")?;
            show_expr(out, left)?;
            out.put("-")?;
            out.at(at)?;
            show_expr(out, right)?;
            out.put(")")
        }
        Expr::Times(at, left, right) => {
            out.put("(")?;
            show_expr(out, left)?;
            out.put("*")?;
            out.at(at)?;
            show_expr(out, right)?;
            out.put(")")
        }
    }
}

/// A comma, but not in front of the first.
fn show_comma(out: &mut Shown, i: usize) -> Result<(), AllocError> {
    if i > 0 {
        out.put(",")?;
    }
    Ok(())
}

fn show_list(out: &mut Shown, list: &[Expr]) -> Result<(), AllocError> {
    for (i, e) in list.iter().enumerate() {
        show_comma(out, i)?;
        show_expr(out, e)?;
    }
    Ok(())
}

fn show_maybe(out: &mut Shown, e: &Option<Expr>) -> Result<(), AllocError> {
    match e {
        Some(e) => show_expr(out, e),
        None => out.put("_"),
    }
}

fn show_shape(out: &mut Shown, shape: &[Bound]) -> Result<(), AllocError> {
    for (i, bound) in shape.iter().enumerate() {
        show_comma(out, i)?;
        if let Some(low) = &bound.low {
            show_expr(out, low)?;
            out.put(":")?;
        }
        show_expr(out, &bound.high)?;
    }
    Ok(())
}

fn show_own_shape(out: &mut Shown, shape: &[Bound]) -> Result<(), AllocError> {
    if shape.is_empty() {
        return Ok(());
    }
    out.put("[")?;
    show_shape(out, shape)?;
    out.put("]")
}

fn show_common(out: &mut Shown, shape: &[Bound]) -> Result<(), AllocError> {
    if shape.is_empty() {
        return Ok(());
    }
    out.put("/")?;
    show_shape(out, shape)?;
    out.put("/")
}

fn show_declared(out: &mut Shown, names: &[Declared]) -> Result<(), AllocError> {
    for declared in names {
        out.put(" ")?;
        out.spot(&declared.name)?;
        show_own_shape(out, declared.shape.as_slice())?;
    }
    Ok(())
}

fn show_constants(out: &mut Shown, names: &[Constant]) -> Result<(), AllocError> {
    for constant in names {
        out.put(" ")?;
        out.spot(&constant.name)?;
        show_own_shape(out, constant.shape.as_slice())?;
        out.put("=")?;
        match &constant.value {
            Value::One(e) => show_expr(out, e)?,
            Value::Many(list) => {
                out.put("{")?;
                show_list(out, list.as_slice())?;
                out.put("}")?;
            }
        }
    }
    Ok(())
}

fn show_names(out: &mut Shown, names: &[Spot]) -> Result<(), AllocError> {
    for name in names {
        out.put(" ")?;
        out.spot(name)?;
    }
    Ok(())
}

fn show_width(
    out: &mut Shown,
    word: &str,
    at: &At,
    width: &Option<Expr>,
) -> Result<(), AllocError> {
    out.put(word)?;
    out.at(at)?;
    if let Some(width) = width {
        out.put(" ")?;
        show_expr(out, width)?;
    }
    Ok(())
}

fn show_formats(out: &mut Shown, formats: &[FormatItem]) -> Result<(), AllocError> {
    for (i, format) in formats.iter().enumerate() {
        show_comma(out, i)?;
        match format {
            FormatItem::Star(at) => {
                out.put("*")?;
                out.at(at)?;
            }
            FormatItem::Block(at, width) => show_width(out, "block", at, width)?,
            FormatItem::Cyclic(at, width) => show_width(out, "cyclic", at, width)?,
            FormatItem::GenBlock(at, name) => {
                show_width(out, "gen_block", at, &None)?;
                out.put(" ")?;
                out.spot(name)?;
            }
            FormatItem::Indirect(at, name) => {
                show_width(out, "indirect", at, &None)?;
                out.put(" ")?;
                out.spot(name)?;
            }
        }
    }
    Ok(())
}

fn show_sources(out: &mut Shown, sources: &[SourceItem]) -> Result<(), AllocError> {
    for (i, source) in sources.iter().enumerate() {
        show_comma(out, i)?;
        match source {
            SourceItem::Colon(at) => {
                out.put(":")?;
                out.at(at)?;
            }
            SourceItem::Star(at) => {
                out.put("*")?;
                out.at(at)?;
            }
            SourceItem::Dummy(name) => out.spot(name)?,
        }
    }
    Ok(())
}

fn show_subs(out: &mut Shown, subs: &[SubItem]) -> Result<(), AllocError> {
    for (i, sub) in subs.iter().enumerate() {
        show_comma(out, i)?;
        match sub {
            SubItem::Star(at) => {
                out.put("*")?;
                out.at(at)?;
            }
            SubItem::Value(e) => show_expr(out, e)?,
            SubItem::Triplet {
                at,
                low,
                high,
                step,
            } => {
                show_maybe(out, low)?;
                out.put(":")?;
                out.at(at)?;
                show_maybe(out, high)?;
                out.put(":")?;
                show_maybe(out, step)?;
            }
        }
    }
    Ok(())
}

fn show_widths(out: &mut Shown, widths: &[WidthItem]) -> Result<(), AllocError> {
    for (i, width) in widths.iter().enumerate() {
        show_comma(out, i)?;
        show_expr(out, &width.low)?;
        if let Some(high) = &width.high {
            out.put(":")?;
            show_expr(out, high)?;
        }
    }
    Ok(())
}

fn show_buffers(out: &mut Shown, buffers: &Option<Expr>) -> Result<(), AllocError> {
    if let Some(buffers) = buffers {
        out.put(" buffers ")?;
        show_expr(out, buffers)?;
    }
    Ok(())
}

fn show_argument(out: &mut Shown, word: &str, at: &At, e: &Expr) -> Result<(), AllocError> {
    out.put(" ")?;
    out.put(word)?;
    out.at(at)?;
    out.put(" ")?;
    show_expr(out, e)
}

fn show_op(out: &mut Shown, op: &OpItem) -> Result<(), AllocError> {
    match op {
        OpItem::Plain => Ok(()),
        OpItem::Add(at, e) => show_argument(out, "add", at, e),
        OpItem::Mul(at, e) => show_argument(out, "mul", at, e),
        OpItem::Prefix(at, e) => show_argument(out, "prefix", at, e),
        OpItem::Stencil(at, e, weights) => {
            show_argument(out, "stencil", at, e)?;
            out.put(" {")?;
            show_list(out, weights.as_slice())?;
            out.put("}")
        }
    }
}

fn show_item(out: &mut Shown, item: &Item) -> Result<(), AllocError> {
    match item {
        Item::ImplicitNone(at) => {
            out.put("none")?;
            out.at(at)?;
        }
        Item::Variables { common, names } => {
            out.put("integer")?;
            show_common(out, common.as_slice())?;
            show_declared(out, names.as_slice())?;
        }
        Item::Constants { common, names } => {
            out.put("constant")?;
            show_common(out, common.as_slice())?;
            show_constants(out, names.as_slice())?;
        }
        Item::Processors(names) => {
            out.put("processors")?;
            show_declared(out, names.as_slice())?;
        }
        Item::Template(names) => {
            out.put("template")?;
            show_declared(out, names.as_slice())?;
        }
        item => show_mapping(out, item)?,
    }
    out.put(";")
}

fn show_mapping(out: &mut Shown, item: &Item) -> Result<(), AllocError> {
    match item {
        Item::Distribute {
            names,
            formats,
            onto,
        } => {
            out.put("distribute")?;
            show_names(out, names.as_slice())?;
            out.put(" (")?;
            show_formats(out, formats.as_slice())?;
            out.put(")")?;
            if let Some(onto) = onto {
                out.put(" onto ")?;
                out.spot(onto)?;
            }
            Ok(())
        }
        Item::Align {
            names,
            sources,
            base,
            subs,
        } => {
            out.put("align")?;
            show_names(out, names.as_slice())?;
            if let Some(sources) = sources {
                out.put(" (")?;
                show_sources(out, sources.as_slice())?;
                out.put(")")?;
            }
            out.put(" with ")?;
            out.spot(base)?;
            if let Some(subs) = subs {
                out.put(" (")?;
                show_subs(out, subs.as_slice())?;
                out.put(")")?;
            }
            Ok(())
        }
        Item::Shadow { names, widths } => {
            out.put("shadow")?;
            show_names(out, names.as_slice())?;
            out.put(" (")?;
            show_widths(out, widths.as_slice())?;
            out.put(")")
        }
        item => show_stage(out, item),
    }
}

fn show_stage(out: &mut Shown, item: &Item) -> Result<(), AllocError> {
    match item {
        Item::Input {
            at,
            name,
            buffers,
            op,
        } => {
            out.put("input")?;
            out.at(at)?;
            out.put(" ")?;
            out.spot(name)?;
            show_buffers(out, buffers)?;
            show_op(out, op)
        }
        Item::Stage {
            at,
            name,
            permute,
            buffers,
            op,
        } => {
            out.put("stage")?;
            out.at(at)?;
            out.put(" ")?;
            out.spot(name)?;
            if let Some(permute) = permute {
                out.put(" permute (")?;
                show_list(out, permute.as_slice())?;
                out.put(")")?;
            }
            show_buffers(out, buffers)?;
            show_op(out, op)
        }
        _ => Ok(()),
    }
}
