//! The tree of a plan, node by node.
ghost use Rattle.logical_plan.specs.PlanTypes.{kinds_of, typing};
ghost use Rattle.logical_plan.specs.declared.nodes.PlanNode.TheVariants as node;
ghost use Rattle.phys_plan.specs.Growth.{CanGrow, IsChange, IsRetyping, IsTwofold};
ghost use Rattle.plan_bases.specs.Bases.{AreRight};
ghost use Rattle.plan_parts.specs.Courses.{IsCourseNear};
ghost use Rattle.plan_parts.specs.Parts.{IsBuilt, IsPartOf};
ghost use Rattle.plan_parts.specs.Requested.{asked_with};
ghost use Rattle.plan_serving.specs.Serving.{serving_over};
ghost use Rattle.promql_meaning.specs.Selecting.{AllSeries};
ghost use Rattle.promql_type.specs.Kinds.{is_scalar};
ghost use Rattle.std.specs.Prelude.{◌≡◌, ℕ, List, true, [], ◌∷◌, map};
ghost use Rattle.window_parts.specs.Engines.{IsGathered};
ghost use Rattle.window_parts.specs.Over.{IsArgumentBuilt, IsArgumentOf};

use crate::site::Site;
use exchange::Exchange;
use label_set::Relabel;
use logical_plan::{Plan, PlanNode};
use match_rule::Patterns;
use plan_parts::kinds::{
    absent, applied, applied_with, as_scalar, as_vector, clamped, combined, copied, divided,
    grouped, number, paired, quantiles, ranked, relabelled, stamped, time,
};
use plan_parts::{Course, Part, Unbuilt, gather, instant_selector, repeated, select};
use window_parts::{gathered, inside, is_gathered, points, series};

/// The tree of a plan that is asked at the instants of a course. For each part that engines are asked for a request is added to an
/// exchange, which on an error may only be dropped.
#[cycle(growing)]
pub(crate) fn grown(
    site: &Site<'_>,
    course: &Course,
    p: &Plan,
    exchange: &mut Exchange,
    patterns: &Patterns<'_>,
) -> Result<Part, Unbuilt>
    requires { AreRight patterns.now site.now.bases.now.samples site.now.bases.now.lists }
    ensures part { (engines : List AllSeries) → IsPartOf (asked_with site.now.bases.now.samples patterns.now site.now.span.now engines) course.now.walk exchange.old.requests exchange.new.requests p.now result }
    ensures total { (n : ℕ) → IsCourseNear n course.now → CanGrow patterns.now site.now.bases.now.lists n p.now → IsBuilt (is_scalar (typing p.now).kind) result }
    ensures places { exchange.new.places ≡ exchange.old.places }
{
    match &p.node {
        PlanNode::Number(value) => number(site.alloc, *value),
        PlanNode::Time => time(site.alloc),
        PlanNode::Select {
            rules,
            moment,
            stamped,
        } => select(
            site.alloc, site.bases, site.span, course, rules, moment, *stamped,
        ),
        PlanNode::Once(_) => once(site, course, p, exchange, patterns),
        PlanNode::Element(_, _, _) => element(site, course, p, exchange, patterns),
        PlanNode::Window(_, _, _) => window(site, course, p, exchange, patterns),
        PlanNode::Group(_, _, _, _) => group(site, course, p, exchange, patterns),
        PlanNode::Buckets(_, _) => over_two(site, course, p, exchange, patterns),
        PlanNode::Pair(_, _, _, _) => over_two(site, course, p, exchange, patterns),
        PlanNode::Set(_, _, _, _) => over_two(site, course, p, exchange, patterns),
        PlanNode::Ratio { .. } => over_two(site, course, p, exchange, patterns),
        PlanNode::ScalarOf(_) => retyped(site, course, p, exchange, patterns),
        PlanNode::Sort { .. } => retyped(site, course, p, exchange, patterns),
        PlanNode::VectorOf(_) => retyped(site, course, p, exchange, patterns),
        PlanNode::Stamp(_) => over_one(site, course, p, exchange, patterns),
        PlanNode::Absent { .. } => over_one(site, course, p, exchange, patterns),
        PlanNode::Relabel(_, _) => over_one(site, course, p, exchange, patterns),
        PlanNode::Filter { .. } => filtered(site, course, p, exchange, patterns),
        PlanNode::Range { .. } => Err(Unbuilt::Invalid),
        PlanNode::Subquery { .. } => Err(Unbuilt::Invalid),
        PlanNode::Gather { expr, kind, asked } => gather(
            site.span, course, expr, kind, asked, exchange, patterns,
        ),
    }
}

/// The tree of a filter: over a selector it reads the series alone that pass the rules of both, and over another part it passes rows on.
/// None of another node.
#[cycle(growing)]
fn filtered(
    site: &Site<'_>,
    course: &Course,
    p: &Plan,
    exchange: &mut Exchange,
    patterns: &Patterns<'_>,
) -> Result<Part, Unbuilt>
    requires { AreRight patterns.now site.now.bases.now.samples site.now.bases.now.lists }
    ensures part { (engines : List AllSeries) → IsPartOf (asked_with site.now.bases.now.samples patterns.now site.now.span.now engines) course.now.walk exchange.old.requests exchange.new.requests p.now result }
    ensures total { (base rules : _) → p.now.node ≡ node.Filter base rules → (n : ℕ) → IsCourseNear n course.now → CanGrow patterns.now site.now.bases.now.lists n p.now → IsBuilt (is_scalar (typing p.now).kind) result }
    ensures places { exchange.new.places ≡ exchange.old.places }
{
    match instant_selector(p)? {
        Some(leaf) => select(
            site.alloc,
            site.bases,
            site.span,
            course,
            &leaf.rules,
            &leaf.moment,
            false,
        ),
        None => over_one(site, course, p, exchange, patterns),
    }
}

/// The tree of a node with one child, whose rows change; none of another one.
#[cycle(growing)]
fn over_one(
    site: &Site<'_>,
    course: &Course,
    p: &Plan,
    exchange: &mut Exchange,
    patterns: &Patterns<'_>,
) -> Result<Part, Unbuilt>
    requires { AreRight patterns.now site.now.bases.now.samples site.now.bases.now.lists }
    ensures part { (engines : List AllSeries) → IsPartOf (asked_with site.now.bases.now.samples patterns.now site.now.span.now engines) course.now.walk exchange.old.requests exchange.new.requests p.now result }
    ensures total { IsChange p.now → (n : ℕ) → IsCourseNear n course.now → CanGrow patterns.now site.now.bases.now.lists n p.now → IsBuilt (is_scalar (typing p.now).kind) result }
    ensures places { exchange.new.places ≡ exchange.old.places }
{
    match &p.node {
        PlanNode::Stamp(inner) => {
            let rows = grown(site, course, inner.get(), exchange, patterns);
            stamped(site.alloc, rows, patterns)
        }
        PlanNode::Absent { labels, inner } => {
            let labels = copied(labels)?;
            let rows = grown(site, course, inner.get(), exchange, patterns);
            absent(site.alloc, labels, rows, patterns)
        }
        PlanNode::Relabel(rule, inner) => {
            let rule = rule.copy()?;
            let rows = grown(site, course, inner.get(), exchange, patterns);
            relabelled(site.alloc, rule, rows, patterns)
        }
        PlanNode::Filter { base, rules } => {
            let rule = Relabel::Filter(rules.copy()?);
            let rows = grown(site, course, base.get(), exchange, patterns);
            relabelled(site.alloc, rule, rows, patterns)
        }
        _ => Err(Unbuilt::Invalid),
    }
}

/// The tree of a node that gives the rows of its child as another type, or as the same one; none of another node.
#[cycle(growing)]
fn retyped(
    site: &Site<'_>,
    course: &Course,
    p: &Plan,
    exchange: &mut Exchange,
    patterns: &Patterns<'_>,
) -> Result<Part, Unbuilt>
    requires { AreRight patterns.now site.now.bases.now.samples site.now.bases.now.lists }
    ensures part { (engines : List AllSeries) → IsPartOf (asked_with site.now.bases.now.samples patterns.now site.now.span.now engines) course.now.walk exchange.old.requests exchange.new.requests p.now result }
    ensures total { IsRetyping p.now → (n : ℕ) → IsCourseNear n course.now → CanGrow patterns.now site.now.bases.now.lists n p.now → IsBuilt (is_scalar (typing p.now).kind) result }
    ensures places { exchange.new.places ≡ exchange.old.places }
{
    match &p.node {
        PlanNode::ScalarOf(inner) => {
            let rows = grown(site, course, inner.get(), exchange, patterns);
            as_scalar(site.alloc, rows, patterns)
        }
        PlanNode::Sort { inner, .. } => {
            let rows = grown(site, course, inner.get(), exchange, patterns);
            as_vector(rows)
        }
        PlanNode::VectorOf(inner) => {
            let rows = grown(site, course, inner.get(), exchange, patterns);
            as_vector(rows)
        }
        _ => Err(Unbuilt::Invalid),
    }
}

/// The tree of a node with two children; none of another one.
#[cycle(growing)]
fn over_two(
    site: &Site<'_>,
    course: &Course,
    p: &Plan,
    exchange: &mut Exchange,
    patterns: &Patterns<'_>,
) -> Result<Part, Unbuilt>
    requires { AreRight patterns.now site.now.bases.now.samples site.now.bases.now.lists }
    ensures part { (engines : List AllSeries) → IsPartOf (asked_with site.now.bases.now.samples patterns.now site.now.span.now engines) course.now.walk exchange.old.requests exchange.new.requests p.now result }
    ensures total { IsTwofold p.now → (n : ℕ) → IsCourseNear n course.now → CanGrow patterns.now site.now.bases.now.lists n p.now → IsBuilt (is_scalar (typing p.now).kind) result }
    ensures places { exchange.new.places ≡ exchange.old.places }
{
    match &p.node {
        PlanNode::Buckets(quantile, inner) => {
            let rows = grown(site, course, inner.get(), exchange, patterns);
            let beside = grown(site, course, quantile.get(), exchange, patterns);
            quantiles(site.alloc, rows, beside)
        }
        PlanNode::Pair(op, left, right, pairing) => {
            let pairing = pairing.copy()?;
            let rows = grown(site, course, left.get(), exchange, patterns);
            let beside = grown(site, course, right.get(), exchange, patterns);
            paired(site.alloc, *op, pairing, rows, beside)
        }
        PlanNode::Set(op, left, right, pairing) => {
            let pairing = pairing.copy()?;
            let rows = grown(site, course, left.get(), exchange, patterns);
            let beside = grown(site, course, right.get(), exchange, patterns);
            combined(site.alloc, *op, pairing, rows, beside)
        }
        PlanNode::Ratio { sum, count } => {
            let rows = grown(site, course, sum.get(), exchange, patterns);
            let beside = grown(site, course, count.get(), exchange, patterns);
            divided(site.alloc, rows, beside)
        }
        _ => Err(Unbuilt::Invalid),
    }
}

/// The tree of a function of rows and of up to two scalars; none of another node.
#[cycle(growing)]
fn element(
    site: &Site<'_>,
    course: &Course,
    p: &Plan,
    exchange: &mut Exchange,
    patterns: &Patterns<'_>,
) -> Result<Part, Unbuilt>
    requires { AreRight patterns.now site.now.bases.now.samples site.now.bases.now.lists }
    ensures part { (engines : List AllSeries) → IsPartOf (asked_with site.now.bases.now.samples patterns.now site.now.span.now engines) course.now.walk exchange.old.requests exchange.new.requests p.now result }
    ensures total { (f inner arguments : _) → p.now.node ≡ node.Element f inner arguments → (n : ℕ) → IsCourseNear n course.now → CanGrow patterns.now site.now.bases.now.lists n p.now → IsBuilt (is_scalar (typing p.now).kind) result }
    ensures places { exchange.new.places ≡ exchange.old.places }
{
    let PlanNode::Element(f, inner, arguments) = &p.node else {
        return Err(Unbuilt::Invalid);
    };
    match arguments.as_slice() {
        [] => {
            let rows = grown(site, course, inner.get(), exchange, patterns);
            applied(site.alloc, *f, rows, patterns)
        }
        [_] => beside_one(site, course, p, exchange, patterns),
        [_, _] => beside_two(site, course, p, exchange, patterns),
        _ => Err(Unbuilt::Invalid),
    }
}

/// The tree of a function of rows and of a scalar; none of another node.
#[cycle(growing)]
fn beside_one(
    site: &Site<'_>,
    course: &Course,
    p: &Plan,
    exchange: &mut Exchange,
    patterns: &Patterns<'_>,
) -> Result<Part, Unbuilt>
    requires { AreRight patterns.now site.now.bases.now.samples site.now.bases.now.lists }
    ensures part { (engines : List AllSeries) → IsPartOf (asked_with site.now.bases.now.samples patterns.now site.now.span.now engines) course.now.walk exchange.old.requests exchange.new.requests p.now result }
    ensures total { (f inner a : _) → p.now.node ≡ node.Element f inner (a ∷ []) → (n : ℕ) → IsCourseNear n course.now → CanGrow patterns.now site.now.bases.now.lists n p.now → IsBuilt (is_scalar (typing p.now).kind) result }
    ensures places { exchange.new.places ≡ exchange.old.places }
{
    let PlanNode::Element(f, inner, arguments) = &p.node else {
        return Err(Unbuilt::Invalid);
    };
    match arguments.as_slice() {
        [] => Err(Unbuilt::Invalid),
        [a] => {
            let rows = grown(site, course, inner.get(), exchange, patterns);
            let beside = grown(site, course, a, exchange, patterns);
            applied_with(site.alloc, *f, rows, beside)
        }
        _ => Err(Unbuilt::Invalid),
    }
}

/// The tree of a function of rows and of two scalars; none of another node.
#[cycle(growing)]
fn beside_two(
    site: &Site<'_>,
    course: &Course,
    p: &Plan,
    exchange: &mut Exchange,
    patterns: &Patterns<'_>,
) -> Result<Part, Unbuilt>
    requires { AreRight patterns.now site.now.bases.now.samples site.now.bases.now.lists }
    ensures part { (engines : List AllSeries) → IsPartOf (asked_with site.now.bases.now.samples patterns.now site.now.span.now engines) course.now.walk exchange.old.requests exchange.new.requests p.now result }
    ensures total { (f inner a b : _) → p.now.node ≡ node.Element f inner (a ∷ b ∷ []) → (n : ℕ) → IsCourseNear n course.now → CanGrow patterns.now site.now.bases.now.lists n p.now → IsBuilt (is_scalar (typing p.now).kind) result }
    ensures places { exchange.new.places ≡ exchange.old.places }
{
    let PlanNode::Element(f, inner, arguments) = &p.node else {
        return Err(Unbuilt::Invalid);
    };
    match arguments.as_slice() {
        [] => Err(Unbuilt::Invalid),
        [_] => Err(Unbuilt::Invalid),
        [a, b] => {
            let rows = grown(site, course, inner.get(), exchange, patterns);
            let low = grown(site, course, a, exchange, patterns);
            let high = grown(site, course, b, exchange, patterns);
            clamped(site.alloc, *f, rows, low, high)
        }
        _ => Err(Unbuilt::Invalid),
    }
}

/// The tree of a function of windows; none of another node.
#[cycle(growing)]
fn window(
    site: &Site<'_>,
    course: &Course,
    p: &Plan,
    exchange: &mut Exchange,
    patterns: &Patterns<'_>,
) -> Result<Part, Unbuilt>
    requires { AreRight patterns.now site.now.bases.now.samples site.now.bases.now.lists }
    ensures part { (engines : List AllSeries) → IsPartOf (asked_with site.now.bases.now.samples patterns.now site.now.span.now engines) course.now.walk exchange.old.requests exchange.new.requests p.now result }
    ensures total { (f inner arguments : _) → p.now.node ≡ node.Window f inner arguments → (n : ℕ) → IsCourseNear n course.now → CanGrow patterns.now site.now.bases.now.lists n p.now → IsBuilt (is_scalar (typing p.now).kind) result }
    ensures places { exchange.new.places ≡ exchange.old.places }
{
    let PlanNode::Window(_, windows, _) = &p.node else {
        return Err(Unbuilt::Invalid);
    };
    match &windows.get().node {
        PlanNode::Subquery { .. } => over_points(site, course, p, exchange, patterns),
        _ => over_ranges(site, course, p, exchange, patterns),
    }
}

/// The tree of a function of the windows of a range selector, here or at engines; none of another node.
#[cycle(growing)]
fn over_ranges(
    site: &Site<'_>,
    course: &Course,
    p: &Plan,
    exchange: &mut Exchange,
    patterns: &Patterns<'_>,
) -> Result<Part, Unbuilt>
    requires { AreRight patterns.now site.now.bases.now.samples site.now.bases.now.lists }
    ensures part { (engines : List AllSeries) → IsPartOf (asked_with site.now.bases.now.samples patterns.now site.now.span.now engines) course.now.walk exchange.old.requests exchange.new.requests p.now result }
    ensures total { (f inner arguments : _) → p.now.node ≡ node.Window f inner arguments → (serving_over inner).ranges ≡ true → (n : ℕ) → IsCourseNear n course.now → CanGrow patterns.now site.now.bases.now.lists n p.now → IsBuilt (is_scalar (typing p.now).kind) result }
    ensures places { exchange.new.places ≡ exchange.old.places }
{
    let PlanNode::Window(_, windows, _) = &p.node else {
        return Err(Unbuilt::Invalid);
    };
    if is_gathered(windows.get()) {
        return over_gathers(site, course, p, exchange, patterns);
    }
    over_series(site, course, p, exchange, patterns)
}

/// The tree of a function of the windows that engines are asked for; none of another node.
#[cycle(growing)]
fn over_gathers(
    site: &Site<'_>,
    course: &Course,
    p: &Plan,
    exchange: &mut Exchange,
    patterns: &Patterns<'_>,
) -> Result<Part, Unbuilt>
    requires { AreRight patterns.now site.now.bases.now.samples site.now.bases.now.lists }
    ensures part { (engines : List AllSeries) → IsPartOf (asked_with site.now.bases.now.samples patterns.now site.now.span.now engines) course.now.walk exchange.old.requests exchange.new.requests p.now result }
    ensures total { (f inner arguments : _) → p.now.node ≡ node.Window f inner arguments → (serving_over inner).ranges ≡ true → IsGathered inner → (n : ℕ) → IsCourseNear n course.now → CanGrow patterns.now site.now.bases.now.lists n p.now → IsBuilt (is_scalar (typing p.now).kind) result }
    ensures places { exchange.new.places ≡ exchange.old.places }
{
    let PlanNode::Window(f, windows, _) = &p.node else {
        return Err(Unbuilt::Invalid);
    };
    let beside = only_argument(site, course, p, exchange, patterns);
    gathered(
        site.alloc,
        site.span,
        course,
        *f,
        windows.get(),
        beside,
        exchange,
        patterns,
    )
}

/// The tree of a function of the windows of series; none of another node.
#[cycle(growing)]
fn over_series(
    site: &Site<'_>,
    course: &Course,
    p: &Plan,
    exchange: &mut Exchange,
    patterns: &Patterns<'_>,
) -> Result<Part, Unbuilt>
    requires { AreRight patterns.now site.now.bases.now.samples site.now.bases.now.lists }
    ensures part { (engines : List AllSeries) → IsPartOf (asked_with site.now.bases.now.samples patterns.now site.now.span.now engines) course.now.walk exchange.old.requests exchange.new.requests p.now result }
    ensures total { (f inner arguments : _) → p.now.node ≡ node.Window f inner arguments → (serving_over inner).ranges ≡ true → (IsGathered inner → ⊥) → (n : ℕ) → IsCourseNear n course.now → CanGrow patterns.now site.now.bases.now.lists n p.now → IsBuilt (is_scalar (typing p.now).kind) result }
    ensures places { exchange.new.places ≡ exchange.old.places }
{
    let PlanNode::Window(f, windows, _) = &p.node else {
        return Err(Unbuilt::Invalid);
    };
    let beside = only_argument(site, course, p, exchange, patterns);
    series(
        site.alloc,
        site.bases,
        site.span,
        course,
        *f,
        windows.get(),
        beside,
    )
}

/// The tree of a function of the windows of a subquery; none of another node.
#[cycle(growing)]
fn over_points(
    site: &Site<'_>,
    course: &Course,
    p: &Plan,
    exchange: &mut Exchange,
    patterns: &Patterns<'_>,
) -> Result<Part, Unbuilt>
    requires { AreRight patterns.now site.now.bases.now.samples site.now.bases.now.lists }
    ensures part { (engines : List AllSeries) → IsPartOf (asked_with site.now.bases.now.samples patterns.now site.now.span.now engines) course.now.walk exchange.old.requests exchange.new.requests p.now result }
    ensures total { (f inner arguments q range step moment : _) → p.now.node ≡ node.Window f inner arguments → inner.node ≡ node.Subquery q range step moment → (n : ℕ) → IsCourseNear n course.now → CanGrow patterns.now site.now.bases.now.lists n p.now → IsBuilt (is_scalar (typing p.now).kind) result }
    ensures places { exchange.new.places ≡ exchange.old.places }
{
    let PlanNode::Window(f, windows, _) = &p.node else {
        return Err(Unbuilt::Invalid);
    };
    let PlanNode::Subquery {
        inner,
        range,
        step,
        moment,
    } = &windows.get().node
    else {
        return Err(Unbuilt::Invalid);
    };
    let below = inside(site.alloc, site.span, course, moment, *range, *step)?;
    let rows = grown(site, &below.course, inner.get(), exchange, patterns);
    let beside = only_argument(site, course, p, exchange, patterns);
    points(site.alloc, course, &below, *f, rows, beside)
}

/// The tree of the only argument of a function of windows beside these, if it has one; none of another node.
#[cycle(growing)]
fn only_argument(
    site: &Site<'_>,
    course: &Course,
    p: &Plan,
    exchange: &mut Exchange,
    patterns: &Patterns<'_>,
) -> Result<Option<Part>, Unbuilt>
    requires { AreRight patterns.now site.now.bases.now.samples site.now.bases.now.lists }
    ensures part { (engines : List AllSeries) (f inner arguments : _) → p.now.node ≡ node.Window f inner arguments → IsArgumentOf (asked_with site.now.bases.now.samples patterns.now site.now.span.now engines) course.now.walk exchange.old.requests exchange.new.requests arguments result }
    ensures total { (n : ℕ) (f inner arguments : _) → p.now.node ≡ node.Window f inner arguments → IsCourseNear n course.now → CanGrow patterns.now site.now.bases.now.lists n p.now → IsArgumentBuilt (kinds_of (map typing arguments)) result }
    ensures places { exchange.new.places ≡ exchange.old.places }
{
    let PlanNode::Window(_, _, arguments) = &p.node else {
        return Err(Unbuilt::Invalid);
    };
    match arguments.as_slice() {
        [] => Ok(None),
        [a] => Ok(Some(grown(site, course, a, exchange, patterns)?)),
        _ => Err(Unbuilt::Invalid),
    }
}

/// The tree of an aggregation; none of another node.
#[cycle(growing)]
fn group(
    site: &Site<'_>,
    course: &Course,
    p: &Plan,
    exchange: &mut Exchange,
    patterns: &Patterns<'_>,
) -> Result<Part, Unbuilt>
    requires { AreRight patterns.now site.now.bases.now.samples site.now.bases.now.lists }
    ensures part { (engines : List AllSeries) → IsPartOf (asked_with site.now.bases.now.samples patterns.now site.now.span.now engines) course.now.walk exchange.old.requests exchange.new.requests p.now result }
    ensures total { (f by arguments label : _) → p.now.node ≡ node.Group f by arguments label → (n : ℕ) → IsCourseNear n course.now → CanGrow patterns.now site.now.bases.now.lists n p.now → IsBuilt (is_scalar (typing p.now).kind) result }
    ensures places { exchange.new.places ≡ exchange.old.places }
{
    let PlanNode::Group(f, by, arguments, label) = &p.node else {
        return Err(Unbuilt::Invalid);
    };
    let by = by.copy()?;
    let label = label.copy()?;
    match arguments.as_slice() {
        [] => Err(Unbuilt::Invalid),
        [a] => {
            let rows = grown(site, course, a, exchange, patterns);
            grouped(site.alloc, *f, by, label, rows, patterns)
        }
        [a, b] => {
            let parameter = grown(site, course, a, exchange, patterns);
            let rows = grown(site, course, b, exchange, patterns);
            ranked(site.alloc, *f, by, label, rows, parameter)
        }
        _ => Err(Unbuilt::Invalid),
    }
}

/// The tree of a part that is computed once, at the course's first instant; none of another node.
#[cycle(growing)]
fn once(
    site: &Site<'_>,
    course: &Course,
    p: &Plan,
    exchange: &mut Exchange,
    patterns: &Patterns<'_>,
) -> Result<Part, Unbuilt>
    requires { AreRight patterns.now site.now.bases.now.samples site.now.bases.now.lists }
    ensures part { (engines : List AllSeries) → IsPartOf (asked_with site.now.bases.now.samples patterns.now site.now.span.now engines) course.now.walk exchange.old.requests exchange.new.requests p.now result }
    ensures total { (inner : _) → p.now.node ≡ node.Once inner → (n : ℕ) → IsCourseNear n course.now → CanGrow patterns.now site.now.bases.now.lists n p.now → IsBuilt (is_scalar (typing p.now).kind) result }
    ensures places { exchange.new.places ≡ exchange.old.places }
{
    let PlanNode::Once(inner) = &p.node else {
        return Err(Unbuilt::Invalid);
    };
    let first = course.first();
    let Some(below) = Course::at(first) else {
        return Err(Unbuilt::Invalid);
    };
    let child = grown(site, &below, inner.get(), exchange, patterns);
    repeated(site.alloc, first, child)
}
