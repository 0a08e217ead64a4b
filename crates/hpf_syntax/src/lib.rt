//! The tree of a mapping text, the parser that reads it from tokens, and its canonical text.
#![tactic(auto)]

mod declare;
mod directive;
mod expression;
mod grammar;
mod list;
mod parser;
mod pieces;
mod pipeline;
mod printed;
mod printer;
mod rule;
mod stack;
mod stop;
mod terminal;
mod tree;

pub use grammar::{never_both, one_canonical_text, one_fault, one_text, text_or_fault};
pub use list::{Items, List};
pub use parser::parse;
pub use printed::Printed;
pub use printer::print;
pub use tree::{
    At, Bound, Constant, Declared, Expr, FormatItem, Item, OpItem, SourceItem, Spot, SubItem,
    Value, WidthItem,
};
