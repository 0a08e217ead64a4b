//! Directives: PROCESSORS, TEMPLATE, DISTRIBUTE, ALIGN and SHADOW.

ghost use Rattle.std.specs.Prelude.{◌≡◌, ◌∷◌, [], ◌||◌, List, map, option_map};
ghost use Rattle.hpf_syntax.specs.declared.tree.SourceItem.{SourceItem};
ghost use Rattle.hpf_syntax.specs.Plain.{FormatTree, format_tree, SubTree, sub_tree, WidthTree, width_tree, item_tree, tree};
ghost use Rattle.hpf_syntax.specs.Partial.{max_expression};
ghost use Rattle.hpf_syntax.specs.Reading.{Gives};
ghost use Rattle.hpf_syntax.specs.Statements.{colons_names_at, of_names_at, format_width_at, format_at, formats_at, onto_at, distribution_at, distribute_at, source_at, begins_expression, maybe_expression_at, triplet_at, begins_triplet, sub_at, alignment_at, align_at, width_at, widths_at, shadow_at, directive_at, shaped_at};

use crate::declare::ShapedRule;
use crate::expression::expression;
use crate::list::List;
use crate::pieces::{NameRule, argument, colon, first_place, maybe_list, name, name_argument};
use crate::rule::{Rule, behind, enclosed, separated, take};
use crate::stop::Stop;
use crate::terminal::{Terminal, begins};
use crate::tree::{Expr, FormatItem, Item, SourceItem, Spot, SubItem, WidthItem};
use hpf_lex::Token;
use std::alloc::Global;

/// Two colons, and names.
#[tactic(auto, unfolding(crate::specs::Statements::colons_names_at, crate::specs::Statements::names_at))]
fn colons_names(alloc: Global, tokens: &[Token]) -> Result<(List<Spot>, &[Token]), Stop>
    ensures { Gives (λ x. (x.0, x.1.now)) result (colons_names_at tokens.now) }
{
    let rest = take(Terminal::DoubleColon, tokens)?;
    separated::<NameRule>(alloc, rest)
}

/// A name and what a rule says of it, or what it says of several names and these behind two colons.
#[tactic(auto, unfolding(crate::specs::Statements::of_names_at))]
fn of_names<R: Rule>(
    alloc: Global,
    tokens: &[Token],
) -> Result<(List<Spot>, R::Value, &[Token]), Stop>
    ensures { Gives (λ x. ((x.0, R.tree x.1), x.2.now)) result (of_names_at R.reading tokens.now) }
{
    if begins(Terminal::Name, tokens) {
        let name = name(tokens)?;
        let (said, rest) = R::read(alloc, behind(tokens))?;
        Ok((List::of_one(alloc, name)?, said, rest))
    } else {
        let (said, rest) = R::read(alloc, tokens)?;
        let (names, rest) = colons_names(alloc, rest)?;
        Ok((names, said, rest))
    }
}

/// A width of a format, if there is one.
#[tactic(auto, unfolding(crate::specs::Statements::format_width_at))]
fn format_width(alloc: Global, tokens: &[Token]) -> Result<(Option<Expr>, &[Token]), Stop>
    ensures { Gives (λ x. (option_map tree x.0, x.1.now)) result (format_width_at max_expression tokens.now) }
{
    if begins(Terminal::LeftParen, tokens) {
        let (width, rest) = argument(alloc, tokens)?;
        Ok((Some(width), rest))
    } else {
        Ok((None, tokens))
    }
}

/// The rule of a format.
struct FormatRule;

impl Rule for FormatRule {
    type Value = FormatItem;

    ghost Tree = { FormatTree };

    ghost tree = { format_tree };

    ghost reading = { format_at max_expression };

    #[tactic(auto, unfolding(crate::specs::Statements::format_at))]
    fn read(alloc: Global, tokens: &[Token]) -> Result<(FormatItem, &[Token]), Stop> {
        let at = first_place(tokens);
        if begins(Terminal::Star, tokens) {
            Ok((FormatItem::Star(at), behind(tokens)))
        } else if begins(Terminal::Block, tokens) {
            let (width, rest) = format_width(alloc, behind(tokens))?;
            Ok((FormatItem::Block(at, width), rest))
        } else if begins(Terminal::Cyclic, tokens) {
            let (width, rest) = format_width(alloc, behind(tokens))?;
            Ok((FormatItem::Cyclic(at, width), rest))
        } else if begins(Terminal::GenBlock, tokens) {
            match name_argument(behind(tokens)) {
                Ok((lengths, rest)) => Ok((FormatItem::GenBlock(at, lengths), rest)),
                Err(stop) => Err(stop),
            }
        } else {
            let rest = take(Terminal::Indirect, tokens)?;
            match name_argument(rest) {
                Ok((places, rest)) => Ok((FormatItem::Indirect(at, places), rest)),
                Err(stop) => Err(stop),
            }
        }
    }
}

#[tactic(auto, unfolding(crate::specs::Statements::formats_at))]
fn formats(alloc: Global, tokens: &[Token]) -> Result<(List<FormatItem>, &[Token]), Stop>
    ensures { Gives (λ x. (map format_tree x.0, x.1.now)) result (formats_at max_expression tokens.now) }
{
    enclosed::<FormatRule>(alloc, Terminal::LeftParen, Terminal::RightParen, tokens)
}

/// ONTO and a name, if it is there.
#[tactic(auto, unfolding(crate::specs::Statements::onto_at))]
fn onto(tokens: &[Token]) -> Result<(Option<Spot>, &[Token]), Stop>
    ensures { Gives (λ x. (x.0, x.1.now)) result (onto_at tokens.now) }
{
    if begins(Terminal::Onto, tokens) {
        let target = name(behind(tokens))?;
        Ok((Some(target), behind(behind(tokens))))
    } else {
        Ok((None, tokens))
    }
}

/// What DISTRIBUTE says of names.
#[derive(Drop)]
struct Distribution {
    formats: List<FormatItem>,
    onto: Option<Spot>,
}

/// The rule of what DISTRIBUTE says of names.
struct DistributionRule;

impl Rule for DistributionRule {
    type Value = Distribution;

    ghost use Rattle.std.specs.Prelude.{Option};
    ghost use Rattle.hpf_syntax.specs.declared.tree.Spot.{Spot};

    ghost Tree = { List FormatTree × Option Spot };

    ghost tree = { λ x. (map format_tree x.formats, x.onto) };

    ghost reading = { distribution_at max_expression };

    #[tactic(auto, unfolding(crate::specs::Statements::distribution_at))]
    fn read(alloc: Global, tokens: &[Token]) -> Result<(Distribution, &[Token]), Stop> {
        let (formats, rest) = formats(alloc, tokens)?;
        match onto(rest) {
            Ok((onto, rest)) => Ok((Distribution { formats, onto }, rest)),
            Err(stop) => Err(stop),
        }
    }
}

/// What stands behind DISTRIBUTE.
#[tactic(auto, unfolding(crate::specs::Statements::distribute_at))]
fn distribute(alloc: Global, tokens: &[Token]) -> Result<(Item, &[Token]), Stop>
    ensures { Gives (λ x. (item_tree x.0, x.1.now)) result (distribute_at max_expression tokens.now) }
{
    let (names, said, rest) = of_names::<DistributionRule>(alloc, tokens)?;
    let item = Item::Distribute {
        names,
        formats: said.formats,
        onto: said.onto,
    };
    Ok((item, rest))
}

/// The rule of a source of ALIGN.
struct SourceRule;

impl Rule for SourceRule {
    type Value = SourceItem;

    ghost Tree = { SourceItem };

    ghost tree = { λ x. x };

    ghost reading = { source_at };

    #[tactic(auto, unfolding(crate::specs::Statements::source_at))]
    fn read(_alloc: Global, tokens: &[Token]) -> Result<(SourceItem, &[Token]), Stop> {
        if begins(Terminal::Colon, tokens) {
            Ok((SourceItem::Colon(first_place(tokens)), behind(tokens)))
        } else if begins(Terminal::Star, tokens) {
            Ok((SourceItem::Star(first_place(tokens)), behind(tokens)))
        } else {
            Ok((SourceItem::Dummy(name(tokens)?), behind(tokens)))
        }
    }
}

/// Whether an expression begins here.
fn begins_expression(tokens: &[Token]) -> bool
    ensures { result ≡ begins_expression tokens.now }
{
    begins(Terminal::Number, tokens)
        || begins(Terminal::Name, tokens)
        || begins(Terminal::LeftParen, tokens)
        || begins(Terminal::Plus, tokens)
        || begins(Terminal::Minus, tokens)
}

#[tactic(auto, unfolding(crate::specs::Statements::maybe_expression_at))]
fn maybe_expression(alloc: Global, tokens: &[Token]) -> Result<(Option<Expr>, &[Token]), Stop>
    ensures { Gives (λ x. (option_map tree x.0, x.1.now)) result (maybe_expression_at max_expression tokens.now) }
{
    if begins_expression(tokens) {
        let (value, rest) = expression(alloc, tokens)?;
        Ok((Some(value), rest))
    } else {
        Ok((None, tokens))
    }
}

/// A triplet, from its first colon on.
#[tactic(auto, unfolding(crate::specs::Statements::triplet_at))]
fn triplet(alloc: Global, low: Option<Expr>, tokens: &[Token]) -> Result<(SubItem, &[Token]), Stop>
    ensures { Gives (λ x. (sub_tree x.0, x.1.now)) result (triplet_at max_expression (option_map tree low) tokens.now) }
{
    let at = first_place(tokens);
    if begins(Terminal::DoubleColon, tokens) {
        let (step, rest) = expression(alloc, behind(tokens))?;
        let triplet = SubItem::Triplet {
            at,
            low,
            high: None,
            step: Some(step),
        };
        Ok((triplet, rest))
    } else {
        let rest = take(Terminal::Colon, tokens)?;
        let (high, rest) = maybe_expression(alloc, rest)?;
        let (step, rest) = colon(alloc, rest)?;
        Ok((
            SubItem::Triplet {
                at,
                low,
                high,
                step,
            },
            rest,
        ))
    }
}

/// Whether the rest of a triplet begins here.
fn begins_triplet(tokens: &[Token]) -> bool
    ensures { result ≡ begins_triplet tokens.now }
{
    begins(Terminal::Colon, tokens) || begins(Terminal::DoubleColon, tokens)
}

/// The rule of a subscript of ALIGN.
struct SubRule;

impl Rule for SubRule {
    type Value = SubItem;

    ghost Tree = { SubTree };

    ghost tree = { sub_tree };

    ghost reading = { sub_at max_expression };

    #[tactic(auto, unfolding(crate::specs::Statements::sub_at))]
    fn read(alloc: Global, tokens: &[Token]) -> Result<(SubItem, &[Token]), Stop> {
        if begins(Terminal::Star, tokens) {
            Ok((SubItem::Star(first_place(tokens)), behind(tokens)))
        } else if begins_triplet(tokens) {
            triplet(alloc, None, tokens)
        } else {
            let (value, rest) = expression(alloc, tokens)?;
            if begins_triplet(rest) {
                triplet(alloc, Some(value), rest)
            } else {
                Ok((SubItem::Value(value), rest))
            }
        }
    }
}

/// What ALIGN says of names.
#[derive(Drop)]
struct Alignment {
    sources: Option<List<SourceItem>>,
    base: Spot,
    subs: Option<List<SubItem>>,
}

/// The rule of what ALIGN says of names.
struct AlignmentRule;

impl Rule for AlignmentRule {
    type Value = Alignment;

    ghost use Rattle.std.specs.Prelude.{Option};
    ghost use Rattle.hpf_syntax.specs.declared.tree.Spot.{Spot};

    ghost Tree = { Option (List SourceItem) × Spot × Option (List SubTree) };

    ghost tree = { λ x. (x.sources, x.base, option_map (map sub_tree) x.subs) };

    ghost reading = { alignment_at max_expression };

    #[tactic(auto, unfolding(crate::specs::Statements::alignment_at))]
    fn read(alloc: Global, tokens: &[Token]) -> Result<(Alignment, &[Token]), Stop> {
        let (sources, rest) = maybe_list::<SourceRule>(alloc, tokens)?;
        let rest = take(Terminal::With, rest)?;
        let base = name(rest)?;
        let (subs, rest) = maybe_list::<SubRule>(alloc, behind(rest))?;
        let alignment = Alignment {
            sources,
            base,
            subs,
        };
        Ok((alignment, rest))
    }
}

/// What stands behind ALIGN.
#[tactic(auto, unfolding(crate::specs::Statements::align_at))]
fn align(alloc: Global, tokens: &[Token]) -> Result<(Item, &[Token]), Stop>
    ensures { Gives (λ x. (item_tree x.0, x.1.now)) result (align_at max_expression tokens.now) }
{
    let (names, said, rest) = of_names::<AlignmentRule>(alloc, tokens)?;
    let item = Item::Align {
        names,
        sources: said.sources,
        base: said.base,
        subs: said.subs,
    };
    Ok((item, rest))
}

/// The rule of a width of SHADOW.
struct WidthRule;

impl Rule for WidthRule {
    type Value = WidthItem;

    ghost Tree = { WidthTree };

    ghost tree = { width_tree };

    ghost reading = { width_at max_expression };

    #[tactic(auto, unfolding(crate::specs::Statements::width_at))]
    fn read(alloc: Global, tokens: &[Token]) -> Result<(WidthItem, &[Token]), Stop> {
        let (low, rest) = expression(alloc, tokens)?;
        let (high, rest) = colon(alloc, rest)?;
        Ok((WidthItem { low, high }, rest))
    }
}

/// The rule of the widths of SHADOW.
struct WidthsRule;

impl Rule for WidthsRule {
    type Value = List<WidthItem>;

    ghost Tree = { List WidthTree };

    ghost tree = { λ x. map width_tree x };

    ghost reading = { widths_at max_expression };

    #[tactic(auto, unfolding(crate::specs::Statements::widths_at))]
    fn read(alloc: Global, tokens: &[Token]) -> Result<(List<WidthItem>, &[Token]), Stop> {
        enclosed::<WidthRule>(alloc, Terminal::LeftParen, Terminal::RightParen, tokens)
    }
}

/// What stands behind SHADOW.
#[tactic(auto, unfolding(crate::specs::Statements::shadow_at))]
fn shadow(alloc: Global, tokens: &[Token]) -> Result<(Item, &[Token]), Stop>
    ensures { Gives (λ x. (item_tree x.0, x.1.now)) result (shadow_at max_expression tokens.now) }
{
    let (names, widths, rest) = of_names::<WidthsRule>(alloc, tokens)?;
    Ok((Item::Shadow { names, widths }, rest))
}

/// A directive, behind its prefix.
#[tactic(auto, unfolding(crate::specs::Statements::directive_at))]
pub(crate) fn directive(alloc: Global, tokens: &[Token]) -> Result<(Item, &[Token]), Stop>
    ensures { Gives (λ x. (item_tree x.0, x.1.now)) result (directive_at max_expression tokens.now) }
{
    if begins(Terminal::Processors, tokens) {
        let (names, rest) = separated::<ShapedRule>(alloc, behind(tokens))?;
        Ok((Item::Processors(names), rest))
    } else if begins(Terminal::Template, tokens) {
        let (names, rest) = separated::<ShapedRule>(alloc, behind(tokens))?;
        Ok((Item::Template(names), rest))
    } else if begins(Terminal::Distribute, tokens) {
        distribute(alloc, behind(tokens))
    } else if begins(Terminal::Align, tokens) {
        align(alloc, behind(tokens))
    } else {
        let rest = take(Terminal::Shadow, tokens)?;
        shadow(alloc, rest)
    }
}
