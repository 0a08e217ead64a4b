//! Expressions in directives and in pipeline lines.

ghost use Rattle.std.specs.Prelude.{◌≡◌, ◌++◌, List, Some, None, true, false, map, option_map, IfOk, OnOk};
ghost use Rattle.std.specs.List.{flat_map};
ghost use Rattle.hpf_syntax.specs.Plain.{Tree, tree, op_tree, sub_tree, item_tree};
ghost use Rattle.hpf_lex.specs.declared.refusal.MapRefusal.{MapRefusal};
ghost use Rattle.hpf_map.specs.declared.name.Name.{Name};
ghost use Rattle.hpf_map.specs.Expressions.{list_breaches, operation_breaches, subscript_name_breaches, align_expression_breaches, directive_breaches};
ghost use Rattle.hpf_map.specs.Found.{least_with};
ghost use Rattle.hpf_map.specs.Hidden.{hides};
ghost use Rattle.hpf_map.specs.Lines.{entries_of, number_of, statement_line};
ghost use Rattle.hpf_map.specs.ShadowWidths.{statement_shadow};
ghost use Rattle.hpf_map.specs.Subscripts.{is_empty, dummy_breaches, subscripts_of, statement_subscripts};
ghost use Rattle.hpf_map.specs.Uses.{dummies};
ghost use Rattle.hpf_map.specs.Values.{expression_breaches, maybe_expression_breaches};
ghost use Rattle.hpf_map.specs.Widths.{statement_widths};

use crate::breaches::Breaches;
use crate::dummies::dummies_of;
use crate::dummy_places::test_dummies;
use crate::expressions::{expression, test_subscripts};
use crate::format_widths::{FormatWidths, read_widths};
use crate::lines::{Line, read_number, read_permute};
use crate::scope::Scope;
use crate::shadow_widths::{ShadowWidths, read_shadow};
use crate::subscripts::{Subscripts, said};
use hpf_lex::Word;
use hpf_syntax::{Expr, Item, List, OpItem, SourceItem, Spot, SubItem};
use std::alloc::{AllocError, Global};
use std::collections::BTreeSet;

/// What lists in a directive are made of, with the breaches of the expressions in it.
trait Part {
    ghost Tree: { Type 0 };

    ghost tree: { Self → Tree };

    ghost found: { List Name → Tree → List MapRefusal };

    fn test(&self, scope: &Scope, breaches: &mut Breaches)
        ensures { breaches.new ≡ least_with breaches.old (found scope.now (tree self.now)) };
}

impl Part for Expr {
    ghost Tree = { Tree };

    ghost tree = { tree };

    ghost found = { expression_breaches };

    fn test(&self, scope: &Scope, breaches: &mut Breaches) {
        let _ = expression(scope, self, breaches);
    }
}

/// The breaches in each of a list.
#[tactic(auto, using(crate::proofs::FoundLemmas::least_with_laws))]
fn test_each<P: Part>(scope: &Scope, parts: &[P], breaches: &mut Breaches)
    ensures { breaches.new ≡ least_with breaches.old
        (flat_map (P.found scope.now) (map P.tree parts.now)) }
{
    for part in parts {
        part.test(scope, breaches);
    }
}

/// The breaches in an operation.
#[tactic(auto, using(crate::proofs::FoundLemmas::least_with_laws), unfolding(crate::specs::Expressions::operation_breaches))]
fn test_operation(scope: &Scope, op: &OpItem, breaches: &mut Breaches)
    ensures { breaches.new ≡ least_with breaches.old
        (operation_breaches scope.now (op_tree op.now)) }
{
    match op {
        OpItem::Plain => {}
        OpItem::Add(_, e) | OpItem::Mul(_, e) | OpItem::Prefix(_, e) => e.test(scope, breaches),
        OpItem::Stencil(_, e, weights) => {
            e.test(scope, breaches);
            test_each(scope, weights.as_slice(), breaches);
        }
    }
}

/// The names in the subscripts of an ALIGN.
#[tactic(auto, using(crate::proofs::FoundLemmas::least_with_laws))]
fn test_subscript_names(
    scope: &Scope,
    dummies: &BTreeSet<Word>,
    subs: &Option<List<SubItem>>,
    breaches: &mut Breaches,
)
    ensures { breaches.new ≡ least_with breaches.old
        (subscript_name_breaches scope.now (hides (Some dummies.now)) (option_map (map sub_tree) subs.now)) }
{
    if let Some(subs) = subs {
        test_subscripts(scope, dummies, subs.as_slice(), breaches);
    }
}

/// Whether no dummy of an ALIGN has a breach. Those that there are are taken in.
fn have_free_dummies(
    alloc: Global,
    dummies: &BTreeSet<Word>,
    sources: &Option<List<SourceItem>>,
    subs: &Option<List<SubItem>>,
    breaches: &mut Breaches,
) -> Result<bool, AllocError>
    ensures free { IfOk result (λ free. free
        ≡ is_empty (dummy_breaches (hides (Some dummies.now)) sources.now (option_map (map sub_tree) subs.now))) }
    ensures breaches { OnOk result (breaches.new ≡ least_with breaches.old
        (dummy_breaches (hides (Some dummies.now)) sources.now (option_map (map sub_tree) subs.now))) }
{
    let mut found = Breaches::new();
    test_dummies(alloc, dummies, sources, subs, &mut found)?;
    breaches.take_in(&found);
    Ok(found.is_empty())
}

/// What the subscripts of an ALIGN with these dummies say, where they are free, and the breaches in them.
#[tactic(auto, using(crate::proofs::FoundLemmas::least_with_laws), unfolding(crate::specs::Expressions::align_expression_breaches, crate::specs::Subscripts::subscripts_of))]
fn read_subscripts(
    alloc: Global,
    scope: &Scope,
    dummies: &BTreeSet<Word>,
    sources: &Option<List<SourceItem>>,
    subs: &Option<List<SubItem>>,
    breaches: &mut Breaches,
) -> Result<Option<Subscripts>, AllocError>
    ensures said { IfOk result (λ s. s
        ≡ subscripts_of scope.now (hides (Some dummies.now)) sources.now (option_map (map sub_tree) subs.now)) }
    ensures breaches { OnOk result (breaches.new ≡ least_with breaches.old
        (align_expression_breaches scope.now (hides (Some dummies.now)) sources.now (option_map (map sub_tree) subs.now))) }
{
    test_subscript_names(scope, dummies, subs, breaches);
    let said = said(alloc, scope, dummies, subs, breaches)?;
    if have_free_dummies(alloc, dummies, sources, subs, breaches)? {
        Ok(said)
    } else {
        Ok(None)
    }
}

/// The same of an ALIGN with these sources.
fn read_align(
    alloc: Global,
    scope: &Scope,
    sources: &Option<List<SourceItem>>,
    subs: &Option<List<SubItem>>,
    breaches: &mut Breaches,
) -> Result<Option<Subscripts>, AllocError>
    ensures said { IfOk result (λ s. s
        ≡ subscripts_of scope.now (dummies sources.now) sources.now (option_map (map sub_tree) subs.now)) }
    ensures breaches { OnOk result (breaches.new ≡ least_with breaches.old
        (align_expression_breaches scope.now (dummies sources.now) sources.now (option_map (map sub_tree) subs.now))) }
{
    let dummies = dummies_of(alloc, sources)?;
    read_subscripts(alloc, scope, &dummies, sources, subs, breaches)
}

/// What an INPUT line says, and the breaches in its expressions.
#[tactic(auto, using(crate::proofs::FoundLemmas::least_with_laws))]
fn read_input(
    scope: &Scope,
    array: &Spot,
    buffers: &Option<Expr>,
    op: &OpItem,
    breaches: &mut Breaches,
) -> Line
    ensures said { result ≡ record {
      follows = false;
      array = array.now;
      permute = None;
      buffers = option_map (number_of scope.now) (option_map tree buffers.now);
    } }
    ensures breaches { breaches.new ≡ least_with breaches.old
        (maybe_expression_breaches scope.now (option_map tree buffers.now) ++ operation_breaches scope.now (op_tree op.now)) }
{
    let buffers = read_number(scope, buffers, breaches);
    test_operation(scope, op, breaches);
    Line {
        follows: false,
        array: *array,
        permute: None,
        buffers,
    }
}

/// What a STAGE line says, and the breaches in its expressions.
#[tactic(auto, using(crate::proofs::FoundLemmas::least_with_laws))]
fn read_stage(
    alloc: Global,
    scope: &Scope,
    array: &Spot,
    permute: &Option<List<Expr>>,
    buffers: &Option<Expr>,
    op: &OpItem,
    breaches: &mut Breaches,
) -> Result<Line, AllocError>
    ensures said { IfOk result (λ line. line ≡ record {
      follows = true;
      array = array.now;
      permute = option_map (entries_of scope.now) (option_map (map tree) permute.now);
      buffers = option_map (number_of scope.now) (option_map tree buffers.now);
    }) }
    ensures breaches { OnOk result (breaches.new ≡ least_with breaches.old
        (list_breaches scope.now (option_map (map tree) permute.now)
        ++ maybe_expression_breaches scope.now (option_map tree buffers.now) ++ operation_breaches scope.now (op_tree op.now))) }
{
    let permute = read_permute(alloc, scope, permute, breaches)?;
    let buffers = read_number(scope, buffers, breaches);
    test_operation(scope, op, breaches);
    Ok(Line {
        follows: true,
        array: *array,
        permute,
        buffers,
    })
}

/// What the expressions of a directive say, where they are free.
#[derive(Drop)]
pub(crate) struct Said {
    /// The subscripts of an ALIGN.
    pub subscripts: Option<Subscripts>,
    /// The widths in the formats of a DISTRIBUTE.
    pub widths: Option<FormatWidths>,
    /// The widths of a SHADOW.
    pub shadow: Option<ShadowWidths>,
    /// An INPUT or a STAGE line.
    pub line: Option<Line>,
}

/// What the expressions of a directive say, and the breaches in those of a directive or of a pipeline line.
#[tactic(auto, using(crate::proofs::FoundLemmas::least_with_laws), unfolding(crate::specs::Expressions::directive_breaches))]
pub(crate) fn read_directive(
    alloc: Global,
    scope: &Scope,
    item: &Item,
    breaches: &mut Breaches,
) -> Result<Said, AllocError>
    ensures subscripts { IfOk result (λ s. s.subscripts ≡ statement_subscripts scope.now (item_tree item.now)) }
    ensures widths { IfOk result (λ s. s.widths ≡ statement_widths scope.now (item_tree item.now)) }
    ensures shadow { IfOk result (λ s. s.shadow ≡ statement_shadow scope.now (item_tree item.now)) }
    ensures line { IfOk result (λ s. s.line ≡ statement_line scope.now (item_tree item.now)) }
    ensures breaches { OnOk result (breaches.new ≡ least_with breaches.old
        (directive_breaches scope.now (item_tree item.now))) }
{
    match item {
        Item::Distribute { formats, .. } => {
            return Ok(Said {
                subscripts: None,
                widths: Some(read_widths(alloc, scope, formats.as_slice(), breaches)?),
                shadow: None,
                line: None,
            });
        }
        Item::Align { sources, subs, .. } => {
            return Ok(Said {
                subscripts: read_align(alloc, scope, sources, subs, breaches)?,
                widths: None,
                shadow: None,
                line: None,
            });
        }
        Item::Shadow { widths, .. } => {
            return Ok(Said {
                subscripts: None,
                widths: None,
                shadow: read_shadow(alloc, scope, widths.as_slice(), breaches)?,
                line: None,
            });
        }
        Item::Input {
            name,
            buffers,
            op,
            ..
        } => {
            return Ok(Said {
                subscripts: None,
                widths: None,
                shadow: None,
                line: Some(read_input(scope, name, buffers, op, breaches)),
            });
        }
        Item::Stage {
            name,
            permute,
            buffers,
            op,
            ..
        } => {
            return Ok(Said {
                subscripts: None,
                widths: None,
                shadow: None,
                line: Some(read_stage(alloc, scope, name, permute, buffers, op, breaches)?),
            });
        }
        Item::ImplicitNone(_)
        | Item::Variables { .. }
        | Item::Constants { .. }
        | Item::Processors(_)
        | Item::Template(_) => {}
    }
    Ok(Said {
        subscripts: None,
        widths: None,
        shadow: None,
        line: None,
    })
}
