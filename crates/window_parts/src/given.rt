//! The trees of functions of windows that engines give.
ghost use Rattle.exchange.specs.declared.request.Request.{Request};
ghost use Rattle.logical_plan.specs.PlanTypes.{is_window};
ghost use Rattle.logical_plan.specs.Validity.{deepest};
ghost use Rattle.logical_plan.specs.declared.nodes.Plan.{Plan};
ghost use Rattle.logical_plan.specs.declared.nodes.PlanNode.TheVariants as node;
ghost use Rattle.match_rule.specs.Patterns.{HaveTheirPatterns};
ghost use Rattle.plan_parts.specs.Courses.{IsCourseNear};
ghost use Rattle.plan_parts.specs.Parts.{IsBuilt, IsPartOf};
ghost use Rattle.plan_parts.specs.Requested.{asked_with};
ghost use Rattle.plan_tree.specs.Nodes.{CanPass, rules_of};
ghost use Rattle.promql_meaning.specs.Selecting.{AllSeries};
ghost use Rattle.promql_type.specs.declared.kind.Kind.{Kind};
ghost use Rattle.sample_store.specs.Samples.{AllSeries as Samples};
ghost use Rattle.std.specs.Prelude.{◌≡◌, ◌<◌, ℕ, true, false, List, IfOk, IfSome, IsOkUnless, IsSome};
ghost use Rattle.window_parts.specs.Engines.{AreAskable, IsGatherUnder, IsGathered, IsGatheringWithin};
ghost use Rattle.window_parts.specs.Over.{IsArgumentBuilt, IsArgumentOf, IsRangePlan, IsScalarOf};

use crate::asked::{Gathering, gathering_of, range_asked};
use crate::over::are_within;
use crate::scalars::scalar_for;
use exchange::Exchange;
use func_table::Window;
use holders::Items;
use label_set::{Relabel, Rule};
use logical_plan::Plan;
use match_rule::Patterns;
use op_labels::Relabelled;
use op_window::WindowRows;
use plan_bases::are_rules_kept;
use plan_parts::{Course, Part, Unbuilt, are_rising, settled};
use plan_tree::Node;
use plan_work::laws::trees_stay_within;
use promql_meaning::laws::walk_moments_are_moments;
use std::alloc::Global;
use ticks::{Grid, Ms, WalkMoment};

/// The moment and the range of the windows of a range selector that engines are asked for, if their numbers rise, the selector's patterns
/// are kept, and the windows that end at the moments of the instants lie within the times. It takes no memory.
fn windows_of(
    span: &Grid,
    course: &Course,
    gathering: &Gathering,
    patterns: &Patterns<'_>,
) -> Option<(WalkMoment, Ms)>
    ensures askable { IfSome result (λ w. AreAskable patterns.now span.now course.now.walk gathering.now w.0 w.1) }
    ensures total { (n : ℕ) → n < deepest → IsCourseNear n course.now → IsGatheringWithin patterns.now gathering.now → IsSome result }
{
    let Some((selector, range)) = range_asked(&gathering.part.kind, &gathering.part.expr) else {
        return None;
    };
    if !are_rising(gathering.asked.as_slice()) {
        return None;
    }
    if !are_rules_kept(patterns, selector.rules.as_slice()) {
        return None;
    }
    let moment = settled(&selector.moment, span);
    if !are_within(course, &moment, range) {
        return None;
    }
    Some((moment, range))
}

/// The filter of rules that windows pass, if there are any. It is `Invalid` where a pattern isn't kept; else the only error is want of
/// memory.
fn filter_of(
    alloc: Global,
    rules: Option<Items<Rule>>,
    patterns: &Patterns<'_>,
) -> Result<Option<Relabelled>, Unbuilt>
    ensures rules { IfOk result (λ passed. rules_of passed ≡ rules) }
    ensures pass { IfOk result (λ passed. CanPass patterns.now passed) }
    ensures total { IfSome rules (HaveTheirPatterns patterns.now) → IsOkUnless result Unbuilt.Memory }
{
    match rules {
        None => Ok(None),
        Some(rules) => {
            if !are_rules_kept(patterns, rules.as_slice()) {
                return Err(Unbuilt::Invalid);
            }
            let filter = Relabelled::new(alloc, Relabel::Filter(rules))?;
            Ok(Some(filter))
        }
    }
}

/// A function of the windows of a range selector that engines are asked for, at the instants of a course.
fn over_gather(
    alloc: Global,
    span: &Grid,
    course: &Course,
    f: Window,
    gathering: Gathering,
    scalar: Part,
    exchange: &mut Exchange,
    patterns: &Patterns<'_>,
) -> Result<Part, Unbuilt>
    ensures part { (samples : Samples) (engines : List AllSeries) (before : List Request) (p inner : Plan) (arguments : List Plan) → p.node ≡ node.Window f inner arguments → IsGatherUnder gathering.part gathering.asked gathering.rules inner → IsScalarOf (asked_with samples patterns.now span.now engines) course.now.walk before exchange.old.requests f arguments scalar → IsPartOf (asked_with samples patterns.now span.now engines) course.now.walk before exchange.new.requests p result }
    ensures total { (n : ℕ) → n < deepest → IsCourseNear n course.now → IsGatheringWithin patterns.now gathering → IsBuilt false result }
    ensures places { exchange.new.places ≡ exchange.old.places }
{
    walk_moments_are_moments();
    trees_stay_within();
    let Some((moment, range)) = windows_of(span, course, &gathering, patterns) else {
        return Err(Unbuilt::Invalid);
    };
    let passed = filter_of(alloc, gathering.rules, patterns)?;
    let kernel = WindowRows::new(alloc, Items::new(alloc), f, moment, range)?;
    let scalar = Box::new(alloc, scalar.tree)?;
    let walk = course.walk().copy()?;
    let place = exchange.add(gathering.part, walk, moment, range, gathering.asked)?;
    Ok(Part {
        tree: Node::Windows {
            kernel,
            place,
            passed,
            scalar,
        },
        scalar: false,
        own: false,
    })
}

/// A function of windows that engines are asked for, at the instants of a course: of those of a range selector, or of those that pass the
/// filters over one. For them a request is added to an exchange, behind those of `argument`, which is what became of the function's other
/// argument, if it has one. It hands on why the argument wasn't built, and is `Invalid` where engines are asked for another part, or their
/// numbers don't rise, where the function takes another number of arguments or one that isn't a scalar, where a pattern isn't kept, a
/// window leads beyond the times, or the range isn't positive; else the only error is want of memory.
pub fn gathered(
    alloc: Global,
    span: &Grid,
    course: &Course,
    f: Window,
    windows: &Plan,
    argument: Result<Option<Part>, Unbuilt>,
    exchange: &mut Exchange,
    patterns: &Patterns<'_>,
) -> Result<Part, Unbuilt>
    ensures part { (samples : Samples) (engines : List AllSeries) (before : List Request) (p : Plan) (arguments : List Plan) → p.node ≡ node.Window f windows.now arguments → IsArgumentOf (asked_with samples patterns.now span.now engines) course.now.walk before exchange.old.requests arguments argument → IsPartOf (asked_with samples patterns.now span.now engines) course.now.walk before exchange.new.requests p result }
    ensures total { (n : ℕ) (given : Kind) (kinds : List Kind) → n < deepest → IsCourseNear n course.now → IsRangePlan patterns.now windows.now → IsGathered windows.now → is_window f given kinds ≡ true → IsArgumentBuilt kinds argument → IsBuilt false result }
    ensures places { exchange.new.places ≡ exchange.old.places }
{
    let argument = argument?;
    let scalar = scalar_for(alloc, f, argument)?;
    let Some(gathering) = gathering_of(windows)? else {
        return Err(Unbuilt::Invalid);
    };
    over_gather(
        alloc, span, course, f, gathering, scalar, exchange, patterns,
    )
}
