//! The leaf of a part that engines are asked for.
ghost use Rattle.logical_plan.specs.Validity.{deepest};
ghost use Rattle.logical_plan.specs.declared.nodes.Plan.{Plan};
ghost use Rattle.logical_plan.specs.declared.nodes.PlanNode.TheVariants as node;
ghost use Rattle.match_rule.specs.Patterns.{HaveTheirPatterns};
ghost use Rattle.plan_parts.specs.Courses.{IsCourseNear, IsMomentWithin};
ghost use Rattle.plan_parts.specs.Parts.{IsBuilt, IsPart};
ghost use Rattle.plan_parts.specs.Requested.{asked_with};
ghost use Rattle.plan_serving.specs.Asking.{asked_selector, is_rising};
ghost use Rattle.promql_ast.specs.declared.tree.Selector.{Selector};
ghost use Rattle.promql_meaning.specs.Selecting.{AllSeries};
ghost use Rattle.sample_store.specs.Samples.{AllSeries as Samples};
ghost use Rattle.std.specs.Prelude.{◌≡◌, ◌<◌, ℕ, List, Some, false, IfOk, IsTrue, OnErr};

use crate::asking::{are_rising, selector_asked};
use crate::course::Course;
use crate::parts::{Part, is_within, settled};
use crate::unbuilt::Unbuilt;
use exchange::Exchange;
use holders::Items;
use match_rule::Patterns;
use plan_bases::are_rules_kept;
use plan_tree::Node;
use plan_work::laws::trees_stay_within;
use promql_ast::Expr;
use promql_meaning::laws::walk_moments_are_moments;
use std::alloc::AllocError;
use step_table::PartKind;
use ticks::{Grid, Ms, WalkMoment};

/// An equal part. The only error is want of memory.
fn copied(expr: &Expr, kind: &PartKind) -> Result<remote_api::Part, AllocError>
    ensures expr { IfOk result (λ part. part.expr ≡ expr.now) }
    ensures kind { IfOk result (λ part. part.kind ≡ kind.now) }
{
    Ok(remote_api::Part {
        expr: expr.copy()?,
        kind: kind.copy()?,
    })
}

/// A moment that is an instant itself.
fn instants_alone() -> WalkMoment {
    WalkMoment {
        fixed: None,
        offset: Ms(0),
        closed: false,
    }
}

/// The rows of a selector, or of its timestamp, which the engines under rising numbers are asked for at the instants of a course: the leaf
/// stands for the request that is added to an exchange. It is `Invalid` where the part is another one, the numbers don't rise, a pattern
/// isn't kept or a window leads beyond the times; else the only error is want of memory, and after any error the exchange is as it was.
pub fn gather(
    span: &Grid,
    course: &Course,
    expr: &Expr,
    kind: &PartKind,
    asked: &Items<u32>,
    exchange: &mut Exchange,
    patterns: &Patterns<'_>,
) -> Result<Part, Unbuilt>
    ensures part { IfOk result (λ part. (samples : Samples) (engines : List AllSeries) (p : Plan) → p.node ≡ node.Gather expr.now kind.now asked.now → IsPart (asked_with samples patterns.now span.now engines) course.now.walk exchange.old.requests exchange.new.requests p part) }
    ensures total { (n : ℕ) (s : Selector) → n < deepest → IsCourseNear n course.now → asked_selector kind.now expr.now ≡ Some s → IsTrue (is_rising asked.now) → HaveTheirPatterns patterns.now s.rules → IsMomentWithin s.moment → IsBuilt false result }
    ensures unchanged { OnErr result (exchange.new ≡ exchange.old) }
    ensures places { exchange.new.places ≡ exchange.old.places }
{
    trees_stay_within();
    walk_moments_are_moments();
    let Some(selector) = selector_asked(kind, expr) else {
        return Err(Unbuilt::Invalid);
    };
    if !are_rising(asked.as_slice()) {
        return Err(Unbuilt::Invalid);
    }
    if !are_rules_kept(patterns, selector.rules.as_slice()) {
        return Err(Unbuilt::Invalid);
    }
    let moment = settled(&selector.moment, span);
    if !is_within(course, &moment) {
        return Err(Unbuilt::Invalid);
    }
    let part = copied(expr, kind)?;
    let walk = course.walk().copy()?;
    let asked = asked.copy()?;
    let place = exchange.add(part, walk, instants_alone(), Ms(0), asked)?;
    Ok(Part {
        tree: Node::Gather { place },
        scalar: false,
        own: false,
    })
}
