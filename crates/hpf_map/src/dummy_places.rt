//! Where the dummies of an ALIGN stand.

ghost use Rattle.std.specs.Prelude.{◌≡◌, ◌||◌, ◌++◌, ℕ, List, Bool, Some, map, drop, option_map, OnOk};
ghost use Rattle.std.specs.List.{flat_map};
ghost use Rattle.hpf_syntax.specs.declared.tree.Spot.{Spot as PlainSpot};
ghost use Rattle.hpf_syntax.specs.Plain.{SubTree, tree, sub_tree};
ghost use Rattle.hpf_map.specs.Constraint.{breaches_at};
ghost use Rattle.hpf_map.specs.Dummies.{allowed_dummies, source_dummy, dummy_at, dummies_in, maybe_dummies_in, subscript_dummies, linear_breaches, stands_among, seen_breaches, twice_breaches, source_breaches, subscript_dummy_breaches};
ghost use Rattle.hpf_map.specs.Found.{least_with};
ghost use Rattle.hpf_map.specs.Hidden.{hides};
ghost use Rattle.hpf_syntax.specs.declared.tree.SourceItem.{SourceItem as PlainSource};

use crate::breaches::Breaches;
use crate::constraint::Constraint;
use hpf_lex::Word;
use hpf_syntax::{At, Expr, List, SourceItem, Spot, SubItem};
use std::alloc::{AllocError, Global};
use std::collections::BTreeSet;

/// A name, where it is a dummy.
fn add_name(
    dummies: &BTreeSet<Word>,
    at: At,
    word: Word,
    spots: &mut Vec<Spot>,
) -> Result<(), AllocError>
    ensures { OnOk result (spots.new.items ≡ spots.old.items ++ dummy_at (hides (Some dummies.now)) at word) }
{
    if dummies.contains(&word) {
        spots.push(Spot { word, at })?;
    }
    Ok(())
}

/// The dummies in an expression, in the order of the text.
#[tactic(auto, unfolding(crate::specs::Dummies::dummies_in))]
fn add_dummies(dummies: &BTreeSet<Word>, e: &Expr, spots: &mut Vec<Spot>) -> Result<(), AllocError>
    ensures { OnOk result (spots.new.items ≡ spots.old.items ++ dummies_in (hides (Some dummies.now)) (tree e.now)) }
{
    match e {
        Expr::Number(..) => Ok(()),
        Expr::Name(at, word) => add_name(dummies, *at, *word, spots),
        Expr::Neg(_, operand) => add_dummies(dummies, operand, spots),
        Expr::Plus(_, left, right) | Expr::Minus(_, left, right) | Expr::Times(_, left, right) => {
            add_dummies(dummies, left, spots)?;
            add_dummies(dummies, right, spots)
        }
    }
}

/// The dummies in an expression, if there is one.
fn add_maybe_dummies(
    dummies: &BTreeSet<Word>,
    e: &Option<Expr>,
    spots: &mut Vec<Spot>,
) -> Result<(), AllocError>
    ensures { OnOk result (spots.new.items
        ≡ spots.old.items ++ maybe_dummies_in (hides (Some dummies.now)) (option_map tree e.now)) }
{
    match e {
        Some(e) => add_dummies(dummies, e, spots),
        None => Ok(()),
    }
}

/// What holds dummies: a source or a subscript.
trait Holder {
    ghost Tree: { Type 0 };

    ghost tree: { Self → Tree };

    ghost held: { (List ℕ → Bool) → Tree → List PlainSpot };

    /// Adds its dummies, in the order of the text.
    fn add_to(&self, dummies: &BTreeSet<Word>, spots: &mut Vec<Spot>) -> Result<(), AllocError>
        ensures { OnOk result (spots.new.items ≡ spots.old.items ++ held (hides (Some dummies.now)) (tree self.now)) };
}

impl Holder for SourceItem {
    ghost Tree = { PlainSource };

    ghost tree = { λ source. source };

    ghost held = { λ hides. source_dummy };

    fn add_to(&self, dummies: &BTreeSet<Word>, spots: &mut Vec<Spot>) -> Result<(), AllocError> {
        if let SourceItem::Dummy(dummy) = self {
            spots.push(*dummy)?;
        }
        Ok(())
    }
}

impl Holder for SubItem {
    ghost Tree = { SubTree };

    ghost tree = { sub_tree };

    ghost held = { subscript_dummies };

    #[tactic(auto, unfolding(crate::specs::Dummies::subscript_dummies))]
    fn add_to(&self, dummies: &BTreeSet<Word>, spots: &mut Vec<Spot>) -> Result<(), AllocError> {
        match self {
            SubItem::Star(_) => Ok(()),
            SubItem::Value(e) => add_dummies(dummies, e, spots),
            SubItem::Triplet {
                low,
                high,
                step,
                ..
            } => {
                add_maybe_dummies(dummies, low, spots)?;
                add_maybe_dummies(dummies, high, spots)?;
                add_maybe_dummies(dummies, step, spots)
            }
        }
    }
}

/// The dummies that are seen again.
#[tactic(auto, using(crate::proofs::FoundLemmas::least_with_laws))]
fn test_seen(seen: &BTreeSet<Word>, spots: &[Spot], breaches: &mut Breaches)
    ensures { breaches.new ≡ least_with breaches.old (seen_breaches (hides (Some seen.now)) spots.now) }
{
    for spot in spots {
        breaches.note_if(seen.contains(&spot.word), Constraint::DummyTwice, spot.at);
    }
}

/// Takes these dummies for seen.
fn add_seen(seen: &mut BTreeSet<Word>, spots: &[Spot]) -> Result<(), AllocError>
    ensures { OnOk result ((word : List ℕ)
        → hides (Some seen.new) word ≡ (hides (Some seen.old) word || stands_among spots.now word)) }
{
    for spot in spots {
        seen.insert(spot.word)?;
    }
    Ok(())
}

/// The dummies that stand in two of these.
fn test_twice<H: Holder>(
    alloc: Global,
    dummies: &BTreeSet<Word>,
    holders: &[H],
    breaches: &mut Breaches,
) -> Result<(), AllocError>
    ensures { OnOk result (breaches.new ≡ least_with breaches.old
        (twice_breaches (H.Holder.held (hides (Some dummies.now))) (map H.Holder.tree holders.now))) }
{
    let mut seen = BTreeSet::new(alloc);
    let mut spots = Vec::new(alloc);
    for holder in holders {
        spots.clear();
        holder.add_to(dummies, &mut spots)?;
        test_seen(&seen, spots.as_slice(), breaches);
        add_seen(&mut seen, spots.as_slice())?;
    }
    Ok(())
}

/// A breach at each of these names.
#[tactic(auto, using(crate::proofs::FoundLemmas::least_with_laws))]
pub(crate) fn note_each(constraint: Constraint, spots: &[Spot], breaches: &mut Breaches)
    ensures { breaches.new ≡ least_with breaches.old (breaches_at constraint spots.now) }
{
    for spot in spots {
        breaches.note(constraint, spot.at);
    }
}

/// All but the first.
fn rest(spots: &[Spot]) -> &[Spot]
    ensures { result.now ≡ drop 1 spots.now }
{
    if spots.is_empty() { spots } else { &spots[1..] }
}

/// The dummies that a subscript has too many, of these.
fn surplus<'a>(sub: &SubItem, spots: &'a [Spot]) -> &'a [Spot]
    ensures { result.now ≡ drop (allowed_dummies (sub_tree sub.now)) spots.now }
{
    match sub {
        SubItem::Value(_) => rest(spots),
        SubItem::Star(_) | SubItem::Triplet { .. } => spots,
    }
}

/// The dummies that a subscript has too many.
#[tactic(auto, unfolding(crate::specs::Dummies::surplus_dummies))]
fn test_linear(
    dummies: &BTreeSet<Word>,
    sub: &SubItem,
    spots: &mut Vec<Spot>,
    breaches: &mut Breaches,
) -> Result<(), AllocError>
    ensures { OnOk result (breaches.new ≡ least_with breaches.old
        (linear_breaches (hides (Some dummies.now)) (sub_tree sub.now))) }
{
    spots.clear();
    sub.add_to(dummies, spots)?;
    note_each(
        Constraint::NotLinear,
        surplus(sub, spots.as_slice()),
        breaches,
    );
    Ok(())
}

/// The same of all subscripts.
#[tactic(auto, using(crate::proofs::FoundLemmas::least_with_laws))]
fn test_all_linear(
    alloc: Global,
    dummies: &BTreeSet<Word>,
    subs: &[SubItem],
    breaches: &mut Breaches,
) -> Result<(), AllocError>
    ensures { OnOk result (breaches.new ≡ least_with breaches.old
        (flat_map (linear_breaches (hides (Some dummies.now))) (map sub_tree subs.now))) }
{
    let mut spots = Vec::new(alloc);
    for sub in subs {
        test_linear(dummies, sub, &mut spots, breaches)?;
    }
    Ok(())
}

/// The dummies that stand twice among the sources.
#[tactic(auto, using(crate::proofs::FoundLemmas::least_with_laws))]
fn test_sources(
    alloc: Global,
    dummies: &BTreeSet<Word>,
    sources: &Option<List<SourceItem>>,
    breaches: &mut Breaches,
) -> Result<(), AllocError>
    ensures { OnOk result (breaches.new ≡ least_with breaches.old (source_breaches sources.now)) }
{
    match sources {
        Some(sources) => test_twice(alloc, dummies, sources.as_slice(), breaches),
        None => Ok(()),
    }
}

/// The dummies that stand in two subscripts, or are too many in one.
#[tactic(auto, using(crate::proofs::FoundLemmas::least_with_laws))]
fn test_subscript_dummies(
    alloc: Global,
    dummies: &BTreeSet<Word>,
    subs: &Option<List<SubItem>>,
    breaches: &mut Breaches,
) -> Result<(), AllocError>
    ensures { OnOk result (breaches.new ≡ least_with breaches.old
        (subscript_dummy_breaches (hides (Some dummies.now)) (option_map (map sub_tree) subs.now))) }
{
    let Some(subs) = subs else {
        return Ok(());
    };
    test_twice(alloc, dummies, subs.as_slice(), breaches)?;
    test_all_linear(alloc, dummies, subs.as_slice(), breaches)
}

/// The dummies that an ALIGN breaks a constraint with.
#[tactic(auto, using(crate::proofs::FoundLemmas::least_with_laws))]
pub(crate) fn test_dummies(
    alloc: Global,
    dummies: &BTreeSet<Word>,
    sources: &Option<List<SourceItem>>,
    subs: &Option<List<SubItem>>,
    breaches: &mut Breaches,
) -> Result<(), AllocError>
    ensures { OnOk result (breaches.new ≡ least_with breaches.old
        (source_breaches sources.now
        ++ subscript_dummy_breaches (hides (Some dummies.now)) (option_map (map sub_tree) subs.now))) }
{
    test_sources(alloc, dummies, sources, breaches)?;
    test_subscript_dummies(alloc, dummies, subs, breaches)
}
