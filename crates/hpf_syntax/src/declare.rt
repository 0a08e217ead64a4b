//! Declarations: INTEGER, with DIMENSION and PARAMETER, and IMPLICIT NONE.

ghost use Rattle.std.specs.Prelude.{◌≡◌, Ok, map};
ghost use Rattle.hpf_syntax.specs.Plain.{BoundTree, bound_tree, DeclaredTree, declared_tree, ConstantTree, constant_tree, value_tree, item_tree, tree};
ghost use Rattle.hpf_syntax.specs.Partial.{max_expression};
ghost use Rattle.hpf_syntax.specs.Reading.{Gives};
ghost use Rattle.hpf_syntax.specs.Statements.{bound_at, shape_at, own_shape_at, variable_at, shaped_at, array_at, value_at, constant_at, dimension_at, variables_at, constants_at, behind_dimension_at, more_dimension_at, attributes_at, skip_colons_at, integer_at, fortran_at};

use crate::expression::expression;
use crate::list::List;
use crate::pieces::{ExpressionRule, colon, first_place, name};
use crate::rule::{Rule, behind, enclosed, separated, take};
use crate::stop::Stop;
use crate::terminal::{Terminal, begins};
use crate::tree::{Bound, Constant, Declared, Expr, Item, Value};
use hpf_lex::Token;
use std::alloc::Global;

/// The rule of a bound.
pub(crate) struct BoundRule;

impl Rule for BoundRule {
    type Value = Bound;

    ghost Tree = { BoundTree };

    ghost tree = { bound_tree };

    ghost reading = { bound_at max_expression };

    #[tactic(auto, unfolding(crate::specs::Statements::bound_at))]
    fn read(alloc: Global, tokens: &[Token]) -> Result<(Bound, &[Token]), Stop> {
        let (first, rest) = expression(alloc, tokens)?;
        let (second, rest) = colon(alloc, rest)?;
        let bound = match second {
            Some(high) => Bound {
                low: Some(first),
                high,
            },
            None => Bound {
                low: None,
                high: first,
            },
        };
        Ok((bound, rest))
    }
}

/// A shape.
#[tactic(auto, unfolding(crate::specs::Statements::shape_at))]
pub(crate) fn shape(alloc: Global, tokens: &[Token]) -> Result<(List<Bound>, &[Token]), Stop>
    ensures { Gives (λ x. (map bound_tree x.0, x.1.now)) result (shape_at max_expression tokens.now) }
{
    enclosed::<BoundRule>(alloc, Terminal::LeftParen, Terminal::RightParen, tokens)
}

/// A shape, or none.
#[tactic(auto, unfolding(crate::specs::Statements::own_shape_at))]
fn own_shape(alloc: Global, tokens: &[Token]) -> Result<(List<Bound>, &[Token]), Stop>
    ensures { Gives (λ x. (map bound_tree x.0, x.1.now)) result (own_shape_at max_expression tokens.now) }
{
    if begins(Terminal::LeftParen, tokens) {
        shape(alloc, tokens)
    } else {
        Ok((List::new(alloc), tokens))
    }
}

/// The rule of a variable, whose shape may be missing.
pub(crate) struct VariableRule;

impl Rule for VariableRule {
    type Value = Declared;

    ghost Tree = { DeclaredTree };

    ghost tree = { declared_tree };

    ghost reading = { variable_at max_expression };

    #[tactic(auto, unfolding(crate::specs::Statements::variable_at))]
    fn read(alloc: Global, tokens: &[Token]) -> Result<(Declared, &[Token]), Stop> {
        let name = name(tokens)?;
        let (shape, rest) = own_shape(alloc, behind(tokens))?;
        Ok((Declared { name, shape }, rest))
    }
}

/// The rule of a name with a shape.
pub(crate) struct ShapedRule;

impl Rule for ShapedRule {
    type Value = Declared;

    ghost Tree = { DeclaredTree };

    ghost tree = { declared_tree };

    ghost reading = { shaped_at max_expression };

    #[tactic(auto, unfolding(crate::specs::Statements::shaped_at))]
    fn read(alloc: Global, tokens: &[Token]) -> Result<(Declared, &[Token]), Stop> {
        let name = name(tokens)?;
        let (shape, rest) = shape(alloc, behind(tokens))?;
        Ok((Declared { name, shape }, rest))
    }
}

/// A list of expressions in `(/ /)`.
#[tactic(auto, unfolding(crate::specs::Statements::array_at))]
pub(crate) fn array(alloc: Global, tokens: &[Token]) -> Result<(List<Expr>, &[Token]), Stop>
    ensures { Gives (λ x. (map tree x.0, x.1.now)) result (array_at max_expression tokens.now) }
{
    enclosed::<ExpressionRule>(alloc, Terminal::LeftArray, Terminal::RightArray, tokens)
}

#[tactic(auto, unfolding(crate::specs::Statements::value_at))]
fn value(alloc: Global, tokens: &[Token]) -> Result<(Value, &[Token]), Stop>
    ensures { Gives (λ x. (value_tree x.0, x.1.now)) result (value_at max_expression tokens.now) }
{
    if begins(Terminal::LeftArray, tokens) {
        let (list, rest) = array(alloc, tokens)?;
        Ok((Value::Many(list), rest))
    } else {
        let (one, rest) = expression(alloc, tokens)?;
        Ok((Value::One(one), rest))
    }
}

/// The rule of a constant.
struct ConstantRule;

impl Rule for ConstantRule {
    type Value = Constant;

    ghost Tree = { ConstantTree };

    ghost tree = { constant_tree };

    ghost reading = { constant_at max_expression };

    #[tactic(auto, unfolding(crate::specs::Statements::constant_at))]
    fn read(alloc: Global, tokens: &[Token]) -> Result<(Constant, &[Token]), Stop> {
        let name = name(tokens)?;
        let (shape, rest) = own_shape(alloc, behind(tokens))?;
        let rest = take(Terminal::Equals, rest)?;
        let (value, rest) = value(alloc, rest)?;
        Ok((Constant { name, shape, value }, rest))
    }
}

#[tactic(auto, unfolding(crate::specs::Statements::dimension_at))]
fn dimension(alloc: Global, tokens: &[Token]) -> Result<(List<Bound>, &[Token]), Stop>
    ensures { Gives (λ x. (map bound_tree x.0, x.1.now)) result (dimension_at max_expression tokens.now) }
{
    let rest = take(Terminal::Dimension, tokens)?;
    shape(alloc, rest)
}

#[tactic(auto, unfolding(crate::specs::Statements::variables_at))]
fn variables(alloc: Global, common: List<Bound>, tokens: &[Token]) -> Result<(Item, &[Token]), Stop>
    ensures { Gives (λ x. (item_tree x.0, x.1.now)) result (variables_at max_expression (map bound_tree common) tokens.now) }
{
    let (names, rest) = separated::<VariableRule>(alloc, tokens)?;
    Ok((Item::Variables { common, names }, rest))
}

/// Two colons, and constants.
#[tactic(auto, unfolding(crate::specs::Statements::constants_at))]
fn constants(alloc: Global, common: List<Bound>, tokens: &[Token]) -> Result<(Item, &[Token]), Stop>
    ensures { Gives (λ x. (item_tree x.0, x.1.now)) result (constants_at max_expression (map bound_tree common) tokens.now) }
{
    let rest = take(Terminal::DoubleColon, tokens)?;
    let (names, rest) = separated::<ConstantRule>(alloc, rest)?;
    Ok((Item::Constants { common, names }, rest))
}

/// What stands behind DIMENSION and its shape.
#[tactic(auto, unfolding(crate::specs::Statements::behind_dimension_at))]
fn behind_dimension(
    alloc: Global,
    common: List<Bound>,
    tokens: &[Token],
) -> Result<(Item, &[Token]), Stop>
    ensures { Gives (λ x. (item_tree x.0, x.1.now)) result (behind_dimension_at max_expression (map bound_tree common) tokens.now) }
{
    if begins(Terminal::Comma, tokens) {
        let rest = take(Terminal::Parameter, behind(tokens))?;
        constants(alloc, common, rest)
    } else {
        let rest = take(Terminal::DoubleColon, tokens)?;
        variables(alloc, common, rest)
    }
}

/// A dimension behind a comma, if there is a comma.
#[tactic(auto, unfolding(crate::specs::Statements::more_dimension_at))]
fn more_dimension(alloc: Global, tokens: &[Token]) -> Result<(List<Bound>, &[Token]), Stop>
    ensures { Gives (λ x. (map bound_tree x.0, x.1.now)) result (more_dimension_at max_expression tokens.now) }
{
    if begins(Terminal::Comma, tokens) {
        dimension(alloc, behind(tokens))
    } else {
        Ok((List::new(alloc), tokens))
    }
}

/// What stands behind INTEGER and a comma.
#[tactic(auto, unfolding(crate::specs::Statements::attributes_at))]
fn attributes(alloc: Global, tokens: &[Token]) -> Result<(Item, &[Token]), Stop>
    ensures { Gives (λ x. (item_tree x.0, x.1.now)) result (attributes_at max_expression tokens.now) }
{
    if begins(Terminal::Dimension, tokens) {
        let (common, rest) = dimension(alloc, tokens)?;
        behind_dimension(alloc, common, rest)
    } else {
        let rest = take(Terminal::Parameter, tokens)?;
        let (common, rest) = more_dimension(alloc, rest)?;
        constants(alloc, common, rest)
    }
}

/// The tokens without two colons in front, if they are there.
#[tactic(auto, unfolding(crate::specs::Statements::skip_colons_at))]
fn skip_colons(tokens: &[Token]) -> &[Token]
    ensures { skip_colons_at tokens.now ≡ Ok (tt, result.now) }
{
    if begins(Terminal::DoubleColon, tokens) {
        behind(tokens)
    } else {
        tokens
    }
}

/// What stands behind INTEGER.
#[tactic(auto, unfolding(crate::specs::Statements::integer_at))]
fn integer(alloc: Global, tokens: &[Token]) -> Result<(Item, &[Token]), Stop>
    ensures { Gives (λ x. (item_tree x.0, x.1.now)) result (integer_at max_expression tokens.now) }
{
    if begins(Terminal::Comma, tokens) {
        attributes(alloc, behind(tokens))
    } else {
        variables(alloc, List::new(alloc), skip_colons(tokens))
    }
}

/// A declaration.
#[tactic(auto, unfolding(crate::specs::Statements::fortran_at))]
pub(crate) fn fortran(alloc: Global, tokens: &[Token]) -> Result<(Item, &[Token]), Stop>
    ensures { Gives (λ x. (item_tree x.0, x.1.now)) result (fortran_at max_expression tokens.now) }
{
    if begins(Terminal::Implicit, tokens) {
        let rest = take(Terminal::NoneWord, behind(tokens))?;
        Ok((Item::ImplicitNone(first_place(tokens)), rest))
    } else {
        let rest = take(Terminal::Integer, tokens)?;
        integer(alloc, rest)
    }
}
