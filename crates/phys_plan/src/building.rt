//! The tree of a plan.
ghost use Rattle.exchange.specs.Exchanging.{Exchanging};
ghost use Rattle.exchange.specs.declared.request.Request.{Request};
ghost use Rattle.logical_plan.specs.PlanMeaning.{plan_step};
ghost use Rattle.logical_plan.specs.declared.nodes.Plan.{Plan};
ghost use Rattle.phys_plan.specs.Asks.{AreBegun, HaveEngines};
ghost use Rattle.phys_plan.specs.Growth.{HasTree};
ghost use Rattle.plan_bases.specs.Looks.{LooksAt, plan_looks};
ghost use Rattle.plan_parts.specs.Courses.{IsAsked};
ghost use Rattle.plan_parts.specs.Gathered.{IsQueryOver};
ghost use Rattle.plan_parts.specs.Parts.{IsAskedIn, IsPart, OncesStay};
ghost use Rattle.plan_parts.specs.Requested.{AreMeant, asked_with};
ghost use Rattle.plan_serving.specs.Serving.{IsServed};
ghost use Rattle.plan_tree.specs.Chains.{AreKnown, IsReady};
ghost use Rattle.plan_tree.specs.Nodes.{shape_of};
ghost use Rattle.plan_tree.specs.Shapes.{is_single, rule};
ghost use Rattle.plan_tree.specs.Spending.{IsFresh};
ghost use Rattle.plan_tree.specs.Worlds.{Gathers, no_gathers, world};
ghost use Rattle.plan_work.specs.TreeBounds.{StaysWithin};
ghost use Rattle.promql_meaning.specs.Selecting.{AllSeries, Asked, asked_over};
ghost use Rattle.remote_api.specs.Seen.{EngineSeen};
ghost use Rattle.std.specs.Prelude.{◌≡◌, ◌<◌, ℕ, ℤ, List, [], None, Option, Some, length, slice_get, IfOk, IfSome, IsOkUnless, if◌then◌else◌};
ghost use Rattle.ticks.specs.Walks.{IsInstant, LeadsToTimes};

use crate::growing::grown;
use crate::site::Site;
use exchange::Exchange;
use logical_plan::Plan;
use match_rule::Patterns;
use plan_bases::Bases;
use plan_parts::{Course, Part, Unbuilt};
use plan_tree::Tree;
use plan_tree::laws::plain_trees_begin;
use sample_store::Store;
use std::alloc::Global;
use std::sync::ledger::Ledger;
use ticks::{Grid, Walk, Work, walks_are_listed};

/// The tree of kernels of a plan that is asked at the instants of a walk over a store, at most `batch` of them at once; `span`
/// has the start and the end that `@ start()` and `@ end()` stand for. The series of its selectors, and of filters over these, are found
/// once, before the tree grows. The parts that engines are asked for stand in the tree's exchange,
/// and a pull asks for at most `batch` steps. It is `Invalid` where the plan isn't typed, where its
/// patterns aren't kept, where it leads beyond the times, where engines are asked for other parts than the rows of selectors and, below
/// functions of windows, the windows of range selectors, or where the walk is neither a grid nor one instant; of a valid plan that kernels serve it never is, and the only error is want of memory. (The
/// kernels are those of thanos-io/promql-engine.)
pub fn build<W: Ledger>(
    alloc: Global,
    p: &Plan,
    store: &Store,
    walk: &Walk,
    span: &Grid,
    batch: u32,
    patterns: &mut Patterns<'_>,
    work: &mut Work<W>,
) -> Result<Tree, Unbuilt>
    requires { 0 < batch }
    // a valid plan that gives a scalar or a vector has a tree, at the instants of a grid and at one instant
    ensures total { HasTree patterns.old p.now → IsAsked walk.now → IsOkUnless result Unbuilt.Memory }
    // a tree that asks no engine may be stepped over this store and with these patterns, whatever engines there are
    ensures ready { IfOk result (λ tree. tree.exchange.requests ≡ [] → (es : List EngineSeen) → IsReady store.now patterns.old (Some no_gathers) es tree) }
    // one that asks engines may be stepped so over engines that were begun; where they tell what they hold, its gathers give what these
    // owe, joined
    ensures asks { IfOk result (λ tree. 0 < length tree.exchange.requests → (known : Option Gathers) (es : List EngineSeen) → AreBegun es → HaveEngines tree.exchange.requests es
        → IfSome known (AreKnown span.now patterns.old es tree) → IsReady store.now patterns.old known es tree) }
    // engines are asked for no other parts than the plan has, and for none where it has none
    ensures named { IfOk result (λ tree. (k : ℕ) (r : Request) → slice_get tree.exchange.requests k ≡ Some r → IsAskedIn r p.now) }
    ensures alone { IfOk result (λ tree. IsServed patterns.old p.now → tree.exchange.requests ≡ []) }
    // it was fed nothing
    ensures fed { IfOk result (λ tree. tree.fed ≡ None) }
    ensures fresh { IfOk result (λ tree. IsFresh tree.node) }
    ensures walk { IfOk result (λ tree. tree.walk ≡ walk.now) }
    // it is fed at most so many instants at once, and one where there is a subquery or a gather
    ensures batch { IfOk result (λ tree. tree.batch ≡ (if is_single (shape_of tree.node) then 1 else batch)) }
    // where gathers give what those of the plan do, and what stands below Once nodes is the same at all instants, the tree gives at each
    // instant what the plan gives, whatever else engines hold
    ensures gives { IfOk result (λ tree. (engines : List AllSeries) (gathers : Gathers) → AreMeant (asked_with store.now patterns.old span.now engines) tree.exchange.requests gathers → OncesStay (asked_with store.now patterns.old span.now engines) p.now
        → (t : ℤ) → IsInstant walk.now t → rule (world store.now gathers) patterns.old (shape_of tree.node) t ≡ plan_step (asked_with store.now patterns.old span.now engines) p.now t) }
    // over the whole walk it may spend at most what the plan costs at the walk's instants, which is worked out by hand over its selectors
    ensures within { IfOk result (λ tree. StaysWithin (asked_over store.now patterns.old span.now) walk.now p.now (shape_of tree.node)) }
    // on every answer at most the series were tested that the plan's distinct selectors look at, and for each filter over a selector those
    // that it stands over, once for each of its rules, or those that a selection by the rules of both looks at, whichever is less; and no
    // sample was read
    ensures tested { LooksAt work.old work.new (plan_looks patterns.old store.now p.now) }
    ensures same { patterns.new ≡ patterns.old }
{
    let Some(course) = Course::of(walk)? else {
        return Err(Unbuilt::Invalid);
    };
    let bases = Bases::of(alloc, p, store, patterns, work)?;
    let site = Site {
        alloc,
        bases: &bases,
        span,
    };
    let walk = course.walk().copy()?;
    let mut exchange = Exchange::new(alloc, batch);
    let part = grown(&site, &course, p, &mut exchange, patterns)?;
    Ok(planted(alloc, part, walk, batch, exchange, span))
}

/// The tree of a part, before the first instant of the walk that it is asked at, over the exchange that has its requests, if it has any.
/// It takes no memory.
fn planted(
    alloc: Global,
    part: Part,
    walk: Walk,
    batch: u32,
    exchange: Exchange,
    span: &Grid,
) -> Tree
    requires batch { 0 < batch }
    requires times { LeadsToTimes walk }
    requires unopened { exchange.places ≡ [] }
    ensures ready { (asked : Asked) (p : Plan) → exchange.requests ≡ [] → IsPart asked walk [] exchange.requests p part → (es : List EngineSeen) → IsReady asked.samples asked.kept (Some no_gathers) es result }
    ensures asks { (asked : Asked) (p : Plan) → 0 < length exchange.requests → IsQueryOver span.now asked.kept asked → IsPart asked walk [] exchange.requests p part → (known : Option Gathers) (es : List EngineSeen) → AreBegun es
        → HaveEngines exchange.requests es → IfSome known (AreKnown span.now asked.kept es result) → IsReady asked.samples asked.kept known es result }
    ensures requests { result.exchange.requests ≡ exchange.requests }
    ensures fed { result.fed ≡ None }
    ensures fresh { (asked : Asked) (p : Plan) → IsPart asked walk [] exchange.requests p part → IsFresh result.node }
    ensures walk { result.walk ≡ walk }
    ensures batch { result.batch ≡ (if is_single (shape_of result.node) then 1 else batch) }
    ensures within { (asked : Asked) (p : Plan) → IsPart asked walk [] exchange.requests p part → StaysWithin asked walk p (shape_of result.node) }
    ensures gives { (asked : Asked) (p : Plan) → IsPart asked walk [] exchange.requests p part → (gathers : Gathers) → AreMeant asked exchange.requests gathers → OncesStay asked p
        → (t : ℤ) → IsInstant walk t → rule (world asked.samples gathers) asked.kept (shape_of result.node) t ≡ plan_step asked p t }
{
    plain_trees_begin();
    walks_are_listed();
    if exchange.is_empty() {
        return Tree::new(alloc, part.tree, walk, batch as usize);
    }
    Tree::over(alloc, part.tree, walk, batch as usize, exchange, *span)
}
