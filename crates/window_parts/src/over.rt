//! The trees of functions of windows.
ghost use Rattle.exchange.specs.declared.request.Request.{Request};
ghost use Rattle.logical_plan.specs.declared.nodes.Plan.{Plan};
ghost use Rattle.logical_plan.specs.declared.nodes.PlanNode.TheVariants as node;
ghost use Rattle.logical_plan.specs.PlanTypes.{is_window};
ghost use Rattle.logical_plan.specs.Validity.{deepest};
ghost use Rattle.plan_bases.specs.Bases.{AreRight, HoldsPlan, Kept, is_under};
ghost use Rattle.plan_parts.specs.Courses.{IsCourseNear, IsLength, IsMomentWithin, ReachBack};
ghost use Rattle.plan_parts.specs.Parts.{IsBuilt, IsPartOf};
ghost use Rattle.plan_parts.specs.Requested.{asked_with};
ghost use Rattle.plan_parts.specs.declared.unbuilt.Unbuilt.TheVariants.{Memory};
ghost use Rattle.promql_ast.specs.declared.tree.Moment.{Moment};
ghost use Rattle.promql_meaning.specs.Selecting.{AllSeries, Asked};
ghost use Rattle.promql_type.specs.declared.kind.Kind.{Kind};
ghost use Rattle.std.specs.Prelude.{◌≡◌, ◌+◌, ◌<◌, ◌<ℤ◌, ℕ, ℤ, pos, Bool, true, false, List, IfOk, IsTrue, MatchResult};
ghost use Rattle.ticks.specs.Walks.{HasTimes, IsInstant, moment_at};
ghost use Rattle.ticks.specs.declared.moment.Ms.{Ms};
ghost use Rattle.ticks.specs.declared.walk.Walk.TheVariants.{Multiples};
ghost use Rattle.window_parts.specs.Engines.{IsGathered};
ghost use Rattle.window_parts.specs.Over.{IsArgumentBuilt, IsArgumentOf, IsInside, IsRangeOf, IsRangePlan, IsScalarOf, IsSelectorWithin};

use crate::scalars::scalar_for;
use crate::selectors::{RangeSelector, range_selector};
use func_table::Window;
use logical_plan::Plan;
use op_window::WindowRows;
use plan_bases::Bases;
use plan_parts::{Course, Part, Unbuilt, series_of, settled};
use plan_tree::Node;
use plan_work::laws::trees_stay_within;
use promql_ast::Moment;
use promql_meaning::laws::{multiples_are_all, walk_moments_are_moments};
use std::alloc::Global;
use subquery_rows::SubqueryRows;
use ticks::{Grid, Ms, WalkMoment, walks_are_listed};

/// Whether the windows that end at the moments of the instants lie within the times, and have a length. It takes no memory.
pub(crate) fn are_within(course: &Course, moment: &WalkMoment, range: Ms) -> bool
    ensures forward { IsTrue result → pos 0 <ℤ range.0 }
    ensures times { IsTrue result → (t : ℤ) → IsInstant course.now.walk t → HasTimes (moment_at moment.now t) range.0 }
    ensures near { (n : ℕ) → n < deepest → ReachBack n course.now moment.now range → IsTrue result }
{
    match course.windows(moment, range) {
        Some(_) => true,
        None => false,
    }
}

/// A function of the windows of a range selector, at the instants of a course.
fn over_selector(
    alloc: Global,
    bases: &Bases<'_>,
    span: &Grid,
    course: &Course,
    f: Window,
    selector: &RangeSelector,
    scalar: Part,
) -> Result<Part, Unbuilt>
    ensures part { (kept : Kept) (engines : List AllSeries) (before now : List Request) (p inner : Plan) (arguments : List Plan) → AreRight kept bases.now.samples bases.now.lists → p.node ≡ node.Window f inner arguments → IsRangeOf (asked_with bases.now.samples kept span.now engines) inner selector.now → IsScalarOf (asked_with bases.now.samples kept span.now engines) course.now.walk before now f arguments scalar → IsPartOf (asked_with bases.now.samples kept span.now engines) course.now.walk before now p result }
    ensures total { (kept : Kept) (n : ℕ) → n < deepest → IsCourseNear n course.now → IsSelectorWithin kept selector.now → is_under bases.now.lists selector.now.rules ≡ true → IsBuilt false result }
{
    walk_moments_are_moments();
    trees_stay_within();
    let moment = settled(&selector.moment, span);
    if !are_within(course, &moment, selector.range) {
        return Err(Unbuilt::Invalid);
    }
    let _ = course.walk();
    let series = series_of(bases, &selector.rules)?;
    let kernel = WindowRows::new(alloc, series, f, moment, selector.range)?;
    Ok(Part {
        tree: Node::Series {
            kernel,
            scalar: Box::new(alloc, scalar.tree)?,
        },
        scalar: false,
        own: false,
    })
}

/// A function of windows of the store, at the instants of a course: of those of a range, or of those that pass the filters over one.
/// `argument` is what became of the function's other argument, if it has one. It hands on why the argument wasn't built, and is `Invalid`
/// where the windows are another plan's, where the function takes another number of arguments or one that isn't a scalar, where the
/// series of the windows' rules aren't there, a window leads beyond the times, or the range isn't positive; else the only error is want of
/// memory.
pub fn series(
    alloc: Global,
    bases: &Bases<'_>,
    span: &Grid,
    course: &Course,
    f: Window,
    windows: &Plan,
    argument: Result<Option<Part>, Unbuilt>,
) -> Result<Part, Unbuilt>
    ensures part { (kept : Kept) (engines : List AllSeries) (before now : List Request) (p : Plan) (arguments : List Plan) → AreRight kept bases.now.samples bases.now.lists → p.node ≡ node.Window f windows.now arguments → IsArgumentOf (asked_with bases.now.samples kept span.now engines) course.now.walk before now arguments argument → IsPartOf (asked_with bases.now.samples kept span.now engines) course.now.walk before now p result }
    ensures total { (kept : Kept) (n : ℕ) (given : Kind) (kinds : List Kind) → n < deepest → IsCourseNear n course.now → IsRangePlan kept windows.now → (IsGathered windows.now → ⊥) → HoldsPlan kept bases.now.lists windows.now → is_window f given kinds ≡ true → IsArgumentBuilt kinds argument → IsBuilt false result }
{
    let argument = argument?;
    let scalar = scalar_for(alloc, f, argument)?;
    let Some(selector) = range_selector(windows)? else {
        return Err(Unbuilt::Invalid);
    };
    over_selector(alloc, bases, span, course, f, &selector, scalar)
}

/// A subquery at the instants of an outer course: its moment, whose `@` is a time, its range and step in milliseconds, and the course
/// of its inner instants.
#[derive(Drop)]
pub struct Subquery {
    pub course: Course,
    pub moment: WalkMoment,
    pub range: Ms,
    pub step: Ms,
}

/// A subquery at the instants of a course. It is `Invalid` where a range leads beyond the times, or the range or the step isn't
/// positive; else the only error is want of memory.
pub fn inside(
    alloc: Global,
    span: &Grid,
    outer: &Course,
    moment: &Moment,
    range: Ms,
    step: Ms,
) -> Result<Subquery, Unbuilt>
    ensures walk { IfOk result (λ s. s.course.walk ≡ Multiples outer.now.walk s.moment s.range s.step) }
    ensures inside { IfOk result (λ s. (samples kept engines : _) → IsInside (asked_with samples kept span.now engines) moment.now range step s) }
    ensures total { (n : ℕ) → n < deepest → IsCourseNear n outer.now → IsMomentWithin moment.now → IsLength range → IsLength step → MatchResult result (λ s. IsCourseNear (n + 1) s.course) (λ e. e ≡ Memory) }
{
    let moment = settled(moment, span);
    match outer.inner(alloc, &moment, range, step)? {
        None => Err(Unbuilt::Invalid),
        Some(course) => Ok(Subquery {
            course,
            moment,
            range,
            step,
        }),
    }
}

/// A function of the windows of a subquery, at the instants of a course; `rows` is what became of the inner expression at the inner
/// instants, and `argument` what became of the function's other argument, if it has one. It hands on why one of these wasn't built, and is
/// `Invalid` where the function takes another number of arguments or one that isn't a scalar; else the only error is want of memory.
pub fn points(
    alloc: Global,
    outer: &Course,
    inside: &Subquery,
    f: Window,
    rows: Result<Part, Unbuilt>,
    argument: Result<Option<Part>, Unbuilt>,
) -> Result<Part, Unbuilt>
    requires { inside.now.course.walk ≡ Multiples outer.now.walk inside.now.moment inside.now.range inside.now.step }
    ensures part { (asked : Asked) (before between now : List Request) (p inner q : Plan) (moment : Moment) (range step : Ms) (arguments : List Plan) → p.node ≡ node.Window f inner arguments → inner.node ≡ node.Subquery q range step moment → IsInside asked moment range step inside.now → IsPartOf asked inside.now.course.walk before between q rows → IsArgumentOf asked outer.now.walk between now arguments argument → IsPartOf asked outer.now.walk before now p result }
    ensures total { (scalar : Bool) (given : Kind) (kinds : List Kind) → is_window f given kinds ≡ true → IsBuilt scalar rows → IsArgumentBuilt kinds argument → IsBuilt false result }
{
    walk_moments_are_moments();
    multiples_are_all();
    trees_stay_within();
    walks_are_listed();
    let rows = rows?;
    let argument = argument?;
    let scalar = scalar_for(alloc, f, argument)?;
    let _ = inside.course.walk();
    let kernel = SubqueryRows::new(
        alloc,
        f,
        inside.moment,
        inside.range,
        inside.step,
        outer.walk(),
    )?;
    Ok(Part {
        tree: Node::Points {
            kernel,
            fed: None,
            inner: Box::new(alloc, rows.tree)?,
            scalar: Box::new(alloc, scalar.tree)?,
        },
        scalar: false,
        own: false,
    })
}
