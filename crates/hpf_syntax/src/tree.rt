//! The tree of a mapping text.

use crate::list::List;
use hpf_lex::Word;

/// The place of a token: its line and its column, counted from 1 in bytes.
#[derive(Clone, Copy, Debug, PartialEq, Eq)]
pub struct At {
    pub line: u32,
    pub column: u32,
}

/// A name where it stands.
#[derive(Clone, Copy)]
pub struct Spot {
    pub word: Word,
    pub at: At,
}

/// An expression. The place of an operator is that of its sign.
#[derive(Drop)]
pub enum Expr {
    Number(At, u32),
    Name(At, Word),
    Neg(At, Box<Expr>),
    Plus(At, Box<Expr>, Box<Expr>),
    Minus(At, Box<Expr>, Box<Expr>),
    Times(At, Box<Expr>, Box<Expr>),
}

/// The bounds of a dimension. Without a lower one it begins at 1.
#[derive(Drop)]
pub struct Bound {
    pub low: Option<Expr>,
    pub high: Expr,
}

/// A name that is declared, with its own shape, which is empty where it has none.
#[derive(Drop)]
pub struct Declared {
    pub name: Spot,
    pub shape: List<Bound>,
}

/// The value of a constant.
#[derive(Drop)]
pub enum Value {
    One(Expr),
    /// A list in `(/ /)`.
    Many(List<Expr>),
}

/// A constant that is declared, with its own shape, which is empty where it has none.
#[derive(Drop)]
pub struct Constant {
    pub name: Spot,
    pub shape: List<Bound>,
    pub value: Value,
}

/// How one dimension is distributed, with the place of its first token.
#[derive(Drop)]
pub enum FormatItem {
    Star(At),
    Block(At, Option<Expr>),
    Cyclic(At, Option<Expr>),
    GenBlock(At, Spot),
    Indirect(At, Spot),
}

/// One dimension of an alignee.
#[derive(Drop)]
pub enum SourceItem {
    Colon(At),
    Star(At),
    Dummy(Spot),
}

/// One dimension of an align target. The place of a triplet is its first colon.
#[derive(Drop)]
pub enum SubItem {
    Star(At),
    Value(Expr),
    Triplet {
        at: At,
        low: Option<Expr>,
        high: Option<Expr>,
        step: Option<Expr>,
    },
}

/// The width of a shadow. A missing `high` equals `low`.
#[derive(Drop)]
pub struct WidthItem {
    pub low: Expr,
    pub high: Option<Expr>,
}

/// The operation of a stage, with the place of its word.
#[derive(Drop)]
pub enum OpItem {
    Plain,
    Add(At, Expr),
    Mul(At, Expr),
    Prefix(At, Expr),
    /// The dimension, and the weights.
    Stencil(At, Expr, List<Expr>),
}

/// A statement.
#[derive(Drop)]
pub enum Item {
    ImplicitNone(At),
    /// INTEGER variables. An empty `common` means that there is no DIMENSION.
    Variables {
        common: List<Bound>,
        names: List<Declared>,
    },
    /// Named constants. An empty `common` means that there is no DIMENSION.
    Constants {
        common: List<Bound>,
        names: List<Constant>,
    },
    Processors(List<Declared>),
    Template(List<Declared>),
    Distribute {
        names: List<Spot>,
        formats: List<FormatItem>,
        onto: Option<Spot>,
    },
    Align {
        names: List<Spot>,
        sources: Option<List<SourceItem>>,
        base: Spot,
        subs: Option<List<SubItem>>,
    },
    Shadow {
        names: List<Spot>,
        widths: List<WidthItem>,
    },
    Input {
        at: At,
        name: Spot,
        buffers: Option<Expr>,
        op: OpItem,
    },
    Stage {
        at: At,
        name: Spot,
        permute: Option<List<Expr>>,
        buffers: Option<Expr>,
        op: OpItem,
    },
}
