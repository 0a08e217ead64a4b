//! The greatest line of the places that statements keep.

ghost use Rattle.std.specs.Prelude.{◌≡◌, ℕ, List, Option, map, option_map};
ghost use Rattle.hpf_syntax.specs.Plain.{Tree, tree, BoundTree, bound_tree, DeclaredTree, declared_tree, ValueTree, value_tree, ConstantTree, constant_tree, FormatTree, format_tree, SubTree, sub_tree, WidthTree, width_tree, OpTree, op_tree, ItemTree, item_tree};
ghost use Rattle.hpf_syntax.specs.declared.tree.Spot.{Spot};
ghost use Rattle.hpf_syntax.specs.declared.tree.SourceItem.{SourceItem};
ghost use Rattle.hpf_map.specs.Places.{in_all, in_maybe, in_tree, in_spot, in_bound, in_declared, in_value, in_constant, in_format, in_source, in_subscript, in_width, in_operation, in_item, place_behind};

use hpf_syntax::{
    At, Bound, Constant, Declared, Expr, FormatItem, Item, List, OpItem, SourceItem, Spot, SubItem,
    Value, WidthItem,
};

/// What has places in the text.
trait Placed {
    ghost Tree: { Type 0 };

    ghost tree: { Self → Tree };

    ghost greatest: { Tree → ℕ };

    /// The greatest line of its places, 0 where it has none.
    fn last_line(&self) -> u32
        ensures { result ≡ greatest (tree self.now) };
}

/// The greatest line in several things.
fn last_line_of_all<T: Placed>(things: &[T]) -> u32
    ensures { result ≡ in_all T.greatest (map T.tree things.now) }
{
    let mut last = 0;
    for thing in things {
        last = last.max(thing.last_line());
    }
    last
}

impl<T: Placed> Placed for List<T> {
    ghost Tree = { List T.Tree };

    ghost tree = { map T.tree };

    ghost greatest = { in_all T.greatest };

    fn last_line(&self) -> u32 {
        last_line_of_all(self.as_slice())
    }
}

impl<T: Placed> Placed for Option<T> {
    ghost Tree = { Option T.Tree };

    ghost tree = { option_map T.tree };

    ghost greatest = { in_maybe T.greatest };

    fn last_line(&self) -> u32 {
        match self {
            Some(thing) => thing.last_line(),
            None => 0,
        }
    }
}

impl Placed for Spot {
    ghost Tree = { Spot };

    ghost tree = { λ spot. spot };

    ghost greatest = { in_spot };

    fn last_line(&self) -> u32 {
        self.at.line
    }
}

/// The greatest line in an expression.
#[tactic(auto, unfolding(crate::specs::Places::in_tree))]
fn last_line_of(e: &Expr) -> u32
    ensures { result ≡ in_tree (tree e.now) }
{
    match e {
        Expr::Number(at, _) | Expr::Name(at, _) => at.line,
        Expr::Neg(at, operand) => at.line.max(last_line_of(operand)),
        Expr::Plus(at, left, right) | Expr::Minus(at, left, right) | Expr::Times(at, left, right) =>
            {
                let operands = last_line_of(left).max(last_line_of(right));
                at.line.max(operands)
            }
    }
}

impl Placed for Expr {
    ghost Tree = { Tree };

    ghost tree = { tree };

    ghost greatest = { in_tree };

    fn last_line(&self) -> u32 {
        last_line_of(self)
    }
}

impl Placed for Bound {
    ghost Tree = { BoundTree };

    ghost tree = { bound_tree };

    ghost greatest = { in_bound };

    fn last_line(&self) -> u32 {
        self.low.last_line().max(self.high.last_line())
    }
}

impl Placed for Declared {
    ghost Tree = { DeclaredTree };

    ghost tree = { declared_tree };

    ghost greatest = { in_declared };

    fn last_line(&self) -> u32 {
        self.name.at.line.max(self.shape.last_line())
    }
}

impl Placed for Value {
    ghost Tree = { ValueTree };

    ghost tree = { value_tree };

    ghost greatest = { in_value };

    fn last_line(&self) -> u32 {
        match self {
            Value::One(e) => e.last_line(),
            Value::Many(es) => es.last_line(),
        }
    }
}

impl Placed for Constant {
    ghost Tree = { ConstantTree };

    ghost tree = { constant_tree };

    ghost greatest = { in_constant };

    fn last_line(&self) -> u32 {
        let given = self.shape.last_line().max(self.value.last_line());
        self.name.last_line().max(given)
    }
}

impl Placed for FormatItem {
    ghost Tree = { FormatTree };

    ghost tree = { format_tree };

    ghost greatest = { in_format };

    fn last_line(&self) -> u32 {
        match self {
            FormatItem::Star(at) => at.line,
            FormatItem::Block(at, width) | FormatItem::Cyclic(at, width) => {
                at.line.max(width.last_line())
            }
            FormatItem::GenBlock(at, name) | FormatItem::Indirect(at, name) => {
                at.line.max(name.last_line())
            }
        }
    }
}

impl Placed for SourceItem {
    ghost Tree = { SourceItem };

    ghost tree = { λ source. source };

    ghost greatest = { in_source };

    fn last_line(&self) -> u32 {
        match self {
            SourceItem::Colon(at) | SourceItem::Star(at) => at.line,
            SourceItem::Dummy(dummy) => dummy.last_line(),
        }
    }
}

impl Placed for SubItem {
    ghost Tree = { SubTree };

    ghost tree = { sub_tree };

    ghost greatest = { in_subscript };

    fn last_line(&self) -> u32 {
        match self {
            SubItem::Star(at) => at.line,
            SubItem::Value(e) => e.last_line(),
            SubItem::Triplet {
                at,
                low,
                high,
                step,
            } => {
                let last = low.last_line().max(high.last_line().max(step.last_line()));
                at.line.max(last)
            }
        }
    }
}

impl Placed for WidthItem {
    ghost Tree = { WidthTree };

    ghost tree = { width_tree };

    ghost greatest = { in_width };

    fn last_line(&self) -> u32 {
        self.low.last_line().max(self.high.last_line())
    }
}

impl Placed for OpItem {
    ghost Tree = { OpTree };

    ghost tree = { op_tree };

    ghost greatest = { in_operation };

    fn last_line(&self) -> u32 {
        match self {
            OpItem::Plain => 0,
            OpItem::Add(at, e) | OpItem::Mul(at, e) | OpItem::Prefix(at, e) => {
                at.line.max(e.last_line())
            }
            OpItem::Stencil(at, e, weights) => {
                at.line.max(e.last_line().max(weights.last_line()))
            }
        }
    }
}

impl Placed for Item {
    ghost Tree = { ItemTree };

    ghost tree = { item_tree };

    ghost greatest = { in_item };

    #[tactic(auto, unfolding(crate::specs::Places::in_item))]
    fn last_line(&self) -> u32 {
        match self {
            Item::ImplicitNone(at) => at.line,
            Item::Variables { common, names } => common.last_line().max(names.last_line()),
            Item::Constants { common, names } => common.last_line().max(names.last_line()),
            Item::Processors(names) | Item::Template(names) => names.last_line(),
            Item::Distribute {
                names,
                formats,
                onto,
            } => {
                let target = formats.last_line().max(onto.last_line());
                names.last_line().max(target)
            }
            Item::Align {
                names,
                sources,
                base,
                subs,
            } => {
                let target = base.last_line().max(subs.last_line());
                names.last_line().max(sources.last_line().max(target))
            }
            Item::Shadow { names, widths } => names.last_line().max(widths.last_line()),
            Item::Input {
                at,
                name,
                buffers,
                op,
            } => {
                let options = buffers.last_line().max(op.last_line());
                at.line.max(name.last_line().max(options))
            }
            Item::Stage {
                at,
                name,
                permute,
                buffers,
                op,
            } => {
                let options = buffers.last_line().max(op.last_line());
                at.line
                    .max(name.last_line().max(permute.last_line().max(options)))
            }
        }
    }
}

/// The place behind these statements: column 1 of the line after the last one that a place in them tells.
pub(crate) fn place_behind(items: &[Item]) -> At
    ensures { result ≡ place_behind (map item_tree items.now) }
{
    At {
        line: last_line_of_all(items).saturating_add(1),
        column: 1,
    }
}
