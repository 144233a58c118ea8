//! The trees of the kinds of nodes, over those of their children.
ghost use Rattle.exchange.specs.declared.request.Request.{Request};
ghost use Rattle.logical_plan.specs.declared.nodes.Plan.{Plan};
ghost use Rattle.logical_plan.specs.declared.nodes.PlanNode.TheVariants as node;
ghost use Rattle.logical_plan.specs.Validity.{deepest};
ghost use Rattle.plan_bases.specs.Bases.{AreRight, AreSeries, Kept, is_under};
ghost use Rattle.plan_parts.specs.Courses.{IsCourseNear, IsMomentNear, IsMomentWithin};
ghost use Rattle.plan_parts.specs.Parts.{IsBinary, IsBuilt, IsClamp, IsInstants, IsPart, IsPartOf, IsSelectorOf, IsUnary};
ghost use Rattle.plan_parts.specs.Requested.{asked_with};
ghost use Rattle.plan_work.specs.TreeBounds.{BeginsAt};
ghost use Rattle.promql_meaning.specs.Selecting.{AllSeries, Asked, asked_over, lookback};
ghost use Rattle.promql_meaning.specs.WalkMoments.{IsMomentOf};
ghost use Rattle.std.specs.Prelude.{◌≡◌, ◌<◌, ℕ, ℤ, true, false, Bool, List, IfOk, IsOkUnless, IsTrue};
ghost use Rattle.step_kernels.specs.Binaries.{is_binary, takes_scalar};
ghost use Rattle.step_kernels.specs.Unaries.{KeepsPatterns, is_unary};
ghost use Rattle.ticks.specs.Walks.{HasTimes, IsInstant, moment_at};
ghost use Rattle.ticks.specs.declared.walk.Walk.{Walk};

use crate::course::Course;
use crate::kept::is_unary_kept;
use crate::unbuilt::Unbuilt;
use holders::Items;
use label_set::Rule;
use match_rule::Patterns;
use op_element::{ElementRows, ElementRule};
use op_select::Select;
use op_small::{Small, SmallRule};
use plan_bases::Bases;
use plan_tree::Node;
use plan_work::laws::trees_stay_within;
use promql_ast::{Fixed, Moment};
use promql_meaning::laws::walk_moments_are_moments;
use std::alloc::Global;
use step_batch::StepBuffer;
use step_batch::laws::lent_steps_are_tables;
use step_kernels::{Binary, BinaryRule, Unary, UnaryRule, is_binary, is_unary, takes_scalar};
use ticks::{Grid, Ms, WalkMoment};
use window_fn::laws::seconds_are_numbers;

/// How far back an evaluation looks for a sample, in milliseconds.
const LOOKBACK: i64 = 300_000;

/// The tree of a part of a plan; whether that gives scalars, and whether the values of its rows are the samples' own times.
#[derive(Drop)]
pub struct Part {
    pub tree: Node,
    pub scalar: bool,
    pub own: bool,
}

/// A number, or the time.
pub(crate) fn instants(alloc: Global, rule: SmallRule) -> Result<Part, Unbuilt>
    ensures made { IfOk result (IsInstants rule) }
    ensures total { IsBuilt true result }
{
    trees_stay_within();
    Ok(Part {
        tree: Node::Instants {
            kernel: Small::new(alloc, rule)?,
            none: StepBuffer::new(alloc),
        },
        scalar: true,
        own: false,
    })
}

/// What is made of the rows of a part.
pub(crate) fn unary(
    alloc: Global,
    rule: UnaryRule,
    scalar: bool,
    rows: Part,
    patterns: &Patterns<'_>,
) -> Result<Part, Unbuilt>
    ensures made { IfOk result (λ part. IsUnary patterns.now rule scalar rows part) }
    ensures total { IsTrue (is_unary rule) → KeepsPatterns patterns.now rule → IsBuilt scalar result }
{
    trees_stay_within();
    if !is_unary(&rule) {
        return Err(Unbuilt::Invalid);
    }
    if !is_unary_kept(patterns, &rule) {
        return Err(Unbuilt::Invalid);
    }
    Ok(Part {
        tree: Node::Unary {
            kernel: Unary::new(alloc, rule)?,
            rows: Box::new(alloc, rows.tree)?,
        },
        scalar,
        own: false,
    })
}

/// What is made of the rows of a part and of what stands beside it, which has to be a scalar where it is read as one.
pub(crate) fn binary(
    alloc: Global,
    rule: BinaryRule,
    scalar: bool,
    rows: Part,
    beside: Part,
) -> Result<Part, Unbuilt>
    ensures made { IfOk result (λ part. IsBinary rule scalar rows beside part) }
    ensures total { IsTrue (is_binary rule) → (IsTrue (takes_scalar rule) → IsTrue beside.scalar) → IsBuilt scalar result }
{
    trees_stay_within();
    if !is_binary(&rule) || (takes_scalar(&rule) && !beside.scalar) {
        return Err(Unbuilt::Invalid);
    }
    Ok(Part {
        tree: Node::Binary {
            kernel: Binary::new(alloc, rule)?,
            rows: Box::new(alloc, rows.tree)?,
            beside: Box::new(alloc, beside.tree)?,
        },
        scalar,
        own: false,
    })
}

/// A function of rows and of two scalars.
pub(crate) fn clamp(
    alloc: Global,
    rule: ElementRule,
    rows: Part,
    low: Part,
    high: Part,
) -> Result<Part, Unbuilt>
    ensures made { IfOk result (λ part. IsClamp rule rows low high part) }
    ensures total { IsTrue low.scalar → IsTrue high.scalar → IsBuilt false result }
{
    trees_stay_within();
    if !(low.scalar && high.scalar) {
        return Err(Unbuilt::Invalid);
    }
    Ok(Part {
        tree: Node::Clamp {
            kernel: ElementRows::new(alloc, rule)?,
            rows: Box::new(alloc, rows.tree)?,
            low: Box::new(alloc, low.tree)?,
            high: Box::new(alloc, high.tree)?,
        },
        scalar: false,
        own: false,
    })
}

/// What a part gives at one instant, the first of a walk, at each instant. It hands on why that wasn't built; else the only error is want
/// of memory.
pub fn repeated(alloc: Global, first: Ms, child: Result<Part, Unbuilt>) -> Result<Part, Unbuilt>
    ensures part { (asked : Asked) (walk below : Walk) (before now : List Request) (p inner : Plan) → BeginsAt walk first → below ≡ Walk.Fixed first → p.node ≡ node.Once inner → IsPartOf asked below before now inner child → IsPartOf asked walk before now p result }
    ensures total { (scalar : Bool) → IsBuilt scalar child → IsBuilt scalar result }
{
    trees_stay_within();
    let child = child?;
    Ok(Part {
        tree: Node::Once {
            first,
            steps: StepBuffer::new(alloc),
            child: Box::new(alloc, child.tree)?,
        },
        scalar: child.scalar,
        own: child.own,
    })
}

/// A moment whose `@` is a time: `@ start()` and `@ end()` stand for the start and the end of a grid. It takes no memory.
pub fn settled(moment: &Moment, span: &Grid) -> WalkMoment
    ensures moment { (samples kept : _) → IsMomentOf (asked_over samples kept span.now) moment.now result }
    ensures closed { result.closed ≡ moment.now.closed }
    ensures near { IsMomentWithin moment.now → IsMomentNear result }
{
    let fixed = match moment.fixed {
        None => None,
        Some(Fixed::At(at)) => Some(at),
        Some(Fixed::Start) => Some(span.start),
        Some(Fixed::End) => Some(span.end),
    };
    WalkMoment {
        fixed,
        offset: moment.offset,
        closed: moment.closed,
    }
}

/// Whether an evaluation looks back within the times at each instant.
pub(crate) fn is_within(course: &Course, moment: &WalkMoment) -> bool
    ensures times { IsTrue result → (t : ℤ) → IsInstant course.now.walk t → HasTimes (moment_at moment.now t) lookback }
    ensures near { (n : ℕ) → n < deepest → IsCourseNear n course.now → IsMomentNear moment.now → IsTrue result }
{
    match course.windows(moment, Ms(LOOKBACK)) {
        Some(_) => true,
        None => false,
    }
}

/// A copy of the numbers of the series that pass rules. It is `Invalid` where the rules aren't there; else the only error is want of
/// memory.
pub fn series_of(bases: &Bases<'_>, rules: &Items<Rule>) -> Result<Items<u32>, Unbuilt>
    ensures series { IfOk result (λ series. (kept : Kept) → AreRight kept bases.now.samples bases.now.lists → AreSeries kept bases.now.samples rules.now series) }
    ensures total { is_under bases.now.lists rules.now ≡ true → IsOkUnless result Unbuilt.Memory }
{
    match bases.series(rules)? {
        Some(series) => Ok(series.copy()?),
        None => Err(Unbuilt::Invalid),
    }
}

/// The newest rows of the series that pass rules, at the instants of a course: of a selector, or of filters over one. It is `Invalid`
/// where the series of the rules aren't there or a window leads beyond the times, as none does where the course stands in few enough
/// subqueries; else the only error is want of memory.
pub fn select(
    alloc: Global,
    bases: &Bases<'_>,
    span: &Grid,
    course: &Course,
    rules: &Items<Rule>,
    moment: &Moment,
    stamped: bool,
) -> Result<Part, Unbuilt>
    ensures part { (kept : Kept) (engines : List AllSeries) (requests : List Request) (p : Plan) → AreRight kept bases.now.samples bases.now.lists → p.node ≡ node.Select rules.now moment.now stamped → IsPartOf (asked_with bases.now.samples kept span.now engines) course.now.walk requests requests p result }
    ensures leaf { (kept : Kept) (engines : List AllSeries) (requests : List Request) (p : Plan) → AreRight kept bases.now.samples bases.now.lists → IsSelectorOf (asked_with bases.now.samples kept span.now engines) p rules.now moment.now stamped → IsPartOf (asked_with bases.now.samples kept span.now engines) course.now.walk requests requests p result }
    ensures total { (n : ℕ) → n < deepest → IsCourseNear n course.now → is_under bases.now.lists rules.now ≡ true → IsMomentWithin moment.now → IsBuilt false result }
{
    lent_steps_are_tables();
    seconds_are_numbers();
    walk_moments_are_moments();
    trees_stay_within();
    let moment = settled(moment, span);
    if !is_within(course, &moment) {
        return Err(Unbuilt::Invalid);
    }
    let series = series_of(bases, rules)?;
    let kernel = Select::new(alloc, series, moment, stamped)?;
    Ok(Part {
        tree: Node::Select(kernel),
        scalar: false,
        own: stamped,
    })
}
