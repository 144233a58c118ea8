//! The parts of plans that engines are asked for as windows.
ghost use Rattle.op_labels.specs.Rules.{Kept};
ghost use Rattle.plan_serving.specs.Asking.{asked_range, range_in};
ghost use Rattle.promql_ast.specs.declared.tree.Node.TheViews.{out-Node};
ghost use Rattle.std.specs.Prelude.{◌≡◌, ◌↔◌, None, Some, IfNone, IfOk, IfSome, IsSomeAnd, IsTrue};
ghost use Rattle.window_parts.specs.Engines.{IsGatherUnder, IsGathered, IsGatheringWithin, with_rules};
ghost use Rattle.window_parts.specs.Over.{IsRangePlan};

use holders::Items;
use label_set::Rule;
use logical_plan::{Plan, PlanNode};
use promql_ast::{Expr, Node, Selector};
use remote_api::Part;
use std::alloc::AllocError;
use step_table::PartKind;
use ticks::Ms;

/// A part that engines are asked for, the numbers of these, and the rules of the filters over it, if there are any.
#[derive(Drop)]
pub(crate) struct Gathering {
    pub part: Part,
    pub asked: Items<u32>,
    pub rules: Option<Items<Rule>>,
}

/// The rules of a filter behind others. The only error is want of memory.
fn joined(rules: Option<Items<Rule>>, more: &Items<Rule>) -> Result<Items<Rule>, AllocError>
    ensures { IfOk result (λ all. all ≡ with_rules rules more.now) }
{
    match rules {
        None => more.copy(),
        Some(rules) => {
            let mut all = rules;
            all.extend_from_slice(more.as_slice())?;
            Ok(all)
        }
    }
}

impl Gathering {
    /// The same part under one filter more. The only error is want of memory.
    fn filtered(self, more: &Items<Rule>) -> Result<Gathering, AllocError>
        ensures part { IfOk result (λ g. g.part ≡ self.part) }
        ensures asked { IfOk result (λ g. g.asked ≡ self.asked) }
        ensures rules { IfOk result (λ g. g.rules ≡ Some (with_rules self.rules more.now)) }
    {
        let rules = joined(self.rules, more)?;
        Ok(Gathering {
            part: self.part,
            asked: self.asked,
            rules: Some(rules),
        })
    }
}

/// A part that engines are asked for, under no filter. The only error is want of memory.
fn bare(expr: &Expr, kind: &PartKind, asked: &Items<u32>) -> Result<Gathering, AllocError>
    ensures expr { IfOk result (λ g. g.part.expr ≡ expr.now) }
    ensures kind { IfOk result (λ g. g.part.kind ≡ kind.now) }
    ensures asked { IfOk result (λ g. g.asked ≡ asked.now) }
    ensures rules { IfOk result (λ g. g.rules ≡ None) }
{
    Ok(Gathering {
        part: Part {
            expr: expr.copy()?,
            kind: kind.copy()?,
        },
        asked: asked.copy()?,
        rules: None,
    })
}

/// The part that engines are asked for, which a plan is, or which stands under its filters. Other plans have none. The only error is want
/// of memory.
pub(crate) fn gathering_of(p: &Plan) -> Result<Option<Gathering>, AllocError>
    ensures gather { IfOk result (λ o. IfSome o (λ g. IsGatherUnder g.part g.asked g.rules p.now)) }
    ensures total { (kept : Kept) → IsRangePlan kept p.now → IsGathered p.now → IfOk result (λ o. IsSomeAnd o (IsGatheringWithin kept)) }
{
    match &p.node {
        PlanNode::Gather { expr, kind, asked } => Ok(Some(bare(expr, kind, asked)?)),
        PlanNode::Filter { base, rules } => match gathering_of(base.get())? {
            Some(below) => Ok(Some(below.filtered(rules)?)),
            None => Ok(None),
        },
        _ => Ok(None),
    }
}

/// Whether a plan is a part that engines are asked for, or one under filters. It takes no memory.
pub fn is_gathered(p: &Plan) -> bool
    ensures { IsTrue result ↔ IsGathered p.now }
{
    match &p.node {
        PlanNode::Gather { .. } => true,
        PlanNode::Filter { base, .. } => is_gathered(base.get()),
        _ => false,
    }
}

/// The range selector that a node is, and its range.
fn within(node: &Node) -> Option<(&Selector, Ms)>
    ensures some { IfSome result (λ s. range_in (out-Node node.now) ≡ Some (record { selector = s.0.now; range = s.1 })) }
    ensures none { IfNone result (range_in (out-Node node.now) ≡ None) }
{
    match node {
        Node::Range(selector, range) => Some((selector, *range)),
        Node::Number(_) => None,
        Node::Words(_) => None,
        Node::Paren(_) => None,
        Node::Negate(_) => None,
        Node::Select(_) => None,
        Node::Subquery { .. } => None,
        Node::Call(_, _) => None,
        Node::Aggregate(_, _, _) => None,
        Node::Pair(_, _, _, _) => None,
        Node::Set(_, _, _, _) => None,
    }
}

/// The range selector whose windows a part is, and its range.
pub(crate) fn range_asked<'a>(kind: &PartKind, expr: &'a Expr) -> Option<(&'a Selector, Ms)>
    ensures some { IfSome result (λ s. asked_range kind.now expr.now ≡ Some (record { selector = s.0.now; range = s.1 })) }
    ensures none { IfNone result (asked_range kind.now expr.now ≡ None) }
{
    match kind {
        PartKind::Rows => None,
        PartKind::Windows => within(&expr.node),
        PartKind::Partial(_, _) => None,
    }
}
