//! The trees of the kinds of nodes. Each takes what became of the children, and hands on why one of these wasn't built. It is
//! `Invalid` where a node isn't typed or names a pattern that isn't kept; else the only error is want of memory.
ghost use Rattle.exchange.specs.declared.request.Request.{Request};
ghost use Rattle.logical_plan.specs.declared.nodes.Plan.{Plan};
ghost use Rattle.logical_plan.specs.declared.nodes.PlanNode.TheVariants as node;
ghost use Rattle.op_element.specs.Rules.{reads_first, reads_second};
ghost use Rattle.logical_plan.specs.PlanTypes.{element_kind, is_element, is_group};
ghost use Rattle.op_labels.specs.Rules.{HasPatterns};
ghost use Rattle.plan_parts.specs.Parts.{AreBuilt, IsBesideNumber, IsBuilt, IsPart, IsPartOf, keeps_scalar, reads_parameter};
ghost use Rattle.promql_meaning.specs.Selecting.{Asked};
ghost use Rattle.promql_type.specs.Kinds.{both, is_scalar};
ghost use Rattle.promql_type.specs.declared.kind.Kind.{Kind};
ghost use Rattle.std.specs.Prelude.{◌≡◌, List, [], ◌∷◌, Bool, false, true, Ok, IfOk, IsTrue};
ghost use Rattle.step_kernels.specs.Binaries.{is_binary};
ghost use Rattle.ticks.specs.declared.walk.Walk.{Walk};

use crate::parts::{Part, binary, clamp, instants, unary};
use crate::unbuilt::Unbuilt;
use func_table::{Aggregate, Element, SetOp};
use label_set::{Grouping, Labels, Pairing, Relabel, Text};
use match_rule::Patterns;
use op_element::ElementRule;
use op_small::SmallRule;
use plan_work::laws::trees_stay_within;
use std::alloc::{AllocError, Global};
use step_kernels::{BinaryRule, UnaryRule};
use xfrac::{PairOp, XFrac, whole};

/// A number, as a scalar.
pub fn number(alloc: Global, value: XFrac) -> Result<Part, Unbuilt>
    ensures part { IfOk result (λ part. (asked : Asked) (walk : Walk) (requests : List Request) (p : Plan) → p.node ≡ node.Number value → IsPart asked walk requests requests p part) }
    ensures total { IsBuilt true result }
{
    instants(alloc, SmallRule::Number(value))
}

/// The instant in seconds, as a scalar.
pub fn time(alloc: Global) -> Result<Part, Unbuilt>
    ensures part { IfOk result (λ part. (asked : Asked) (walk : Walk) (requests : List Request) (p : Plan) → p.node ≡ node.Time → IsPart asked walk requests requests p part) }
    ensures total { IsBuilt true result }
{
    instants(alloc, SmallRule::Time)
}

// ---- one child

/// `timestamp`.
pub fn stamped(
    alloc: Global,
    rows: Result<Part, Unbuilt>,
    patterns: &Patterns<'_>,
) -> Result<Part, Unbuilt>
    ensures part { (asked : Asked) (walk : Walk) (before now : List Request) (p inner : Plan) → patterns.now ≡ asked.kept → p.node ≡ node.Stamp inner → IsPartOf asked walk before now inner rows → IsPartOf asked walk before now p result }
    ensures total { (scalar : Bool) → IsBuilt scalar rows → IsBuilt false result }
{
    let rows = rows?;
    let own = rows.own;
    unary(
        alloc,
        UnaryRule::Small(SmallRule::Stamp { own }),
        false,
        rows,
        patterns,
    )
}

/// One row 1 where there are none.
pub fn absent(
    alloc: Global,
    labels: Option<Labels>,
    rows: Result<Part, Unbuilt>,
    patterns: &Patterns<'_>,
) -> Result<Part, Unbuilt>
    ensures part { (asked : Asked) (walk : Walk) (before now : List Request) (p inner : Plan) → patterns.now ≡ asked.kept → p.node ≡ node.Absent labels inner → IsPartOf asked walk before now inner rows → IsPartOf asked walk before now p result }
    ensures total { (scalar : Bool) → IsBuilt scalar rows → IsBuilt false result }
{
    let rows = rows?;
    unary(
        alloc,
        UnaryRule::Small(SmallRule::Absent(labels)),
        false,
        rows,
        patterns,
    )
}

/// Equal labels. The only error is want of memory.
pub fn copied(labels: &Option<Labels>) -> Result<Option<Labels>, AllocError>
    ensures { IfOk result (λ copy. copy ≡ labels.now) }
{
    match labels {
        Some(labels) => Ok(Some(labels.copy()?)),
        None => Ok(None),
    }
}

/// New labels, or the rows whose labels pass rules.
pub fn relabelled(
    alloc: Global,
    rule: Relabel,
    rows: Result<Part, Unbuilt>,
    patterns: &Patterns<'_>,
) -> Result<Part, Unbuilt>
    ensures relabel { (asked : Asked) (walk : Walk) (before now : List Request) (p inner : Plan) → patterns.now ≡ asked.kept → p.node ≡ node.Relabel rule inner → IsPartOf asked walk before now inner rows → IsPartOf asked walk before now p result }
    ensures filter { (asked : Asked) (walk : Walk) (before now : List Request) (p inner : Plan) (rules : _) → patterns.now ≡ asked.kept → rule ≡ Relabel.Filter rules → p.node ≡ node.Filter inner rules → IsPartOf asked walk before now inner rows → IsPartOf asked walk before now p result }
    ensures total { (scalar : Bool) → HasPatterns patterns.now rule → IsBuilt scalar rows → IsBuilt false result }
{
    let rows = rows?;
    unary(alloc, UnaryRule::Relabel(rule), false, rows, patterns)
}

/// `scalar`.
pub fn as_scalar(
    alloc: Global,
    rows: Result<Part, Unbuilt>,
    patterns: &Patterns<'_>,
) -> Result<Part, Unbuilt>
    ensures part { (asked : Asked) (walk : Walk) (before now : List Request) (p inner : Plan) → patterns.now ≡ asked.kept → p.node ≡ node.ScalarOf inner → IsPartOf asked walk before now inner rows → IsPartOf asked walk before now p result }
    ensures total { (scalar : Bool) → IsBuilt scalar rows → IsBuilt true result }
{
    let rows = rows?;
    unary(
        alloc,
        UnaryRule::Small(SmallRule::Scalar),
        true,
        rows,
        patterns,
    )
}

/// The same rows, as a vector.
pub fn as_vector(rows: Result<Part, Unbuilt>) -> Result<Part, Unbuilt>
    ensures sort { (asked : Asked) (walk : Walk) (before now : List Request) (p inner : Plan) (down : _) → p.node ≡ node.Sort down inner → IsPartOf asked walk before now inner rows → IsPartOf asked walk before now p result }
    ensures vector { (asked : Asked) (walk : Walk) (before now : List Request) (p inner : Plan) → p.node ≡ node.VectorOf inner → IsPartOf asked walk before now inner rows → IsPartOf asked walk before now p result }
    ensures total { (scalar : Bool) → IsBuilt scalar rows → IsBuilt false result }
{
    trees_stay_within();
    let rows = rows?;
    Ok(Part {
        tree: rows.tree,
        scalar: false,
        own: false,
    })
}

// ---- functions of rows

/// Whether a function of a scalar gives a scalar: minus alone does.
fn keeps_scalar(f: Element, scalar: bool) -> bool
    ensures { result ≡ keeps_scalar f scalar }
{
    match f {
        Element::Neg => scalar,
        _ => false,
    }
}

/// Whether a function reads one scalar.
fn takes_one(f: Element) -> bool
    ensures first { IsTrue result → reads_first (ElementRule.Apply f) ≡ true }
    ensures second { IsTrue result → reads_second (ElementRule.Apply f) ≡ false }
    ensures total { (kind other : Kind) → is_element f kind (other ∷ []) ≡ true → IsTrue result }
{
    match f {
        Element::Round | Element::ClampMin | Element::ClampMax => true,
        _ => false,
    }
}

/// A function of rows without further arguments.
pub fn applied(
    alloc: Global,
    f: Element,
    rows: Result<Part, Unbuilt>,
    patterns: &Patterns<'_>,
) -> Result<Part, Unbuilt>
    ensures part { (asked : Asked) (walk : Walk) (before now : List Request) (p inner : Plan) → patterns.now ≡ asked.kept → p.node ≡ node.Element f inner [] → IsPartOf asked walk before now inner rows → IsPartOf asked walk before now p result }
    ensures total { (kind : Kind) → is_element f kind [] ≡ true → IsBuilt (is_scalar kind) rows → IsBuilt (is_scalar (element_kind f kind)) result }
{
    let rows = rows?;
    match f {
        Element::Round => rounded(alloc, rows),
        _ => {
            let scalar = keeps_scalar(f, rows.scalar);
            unary(
                alloc,
                UnaryRule::Apply(ElementRule::Apply(f)),
                scalar,
                rows,
                patterns,
            )
        }
    }
}

/// Rounding to 1.
fn rounded(alloc: Global, rows: Part) -> Result<Part, Unbuilt>
    ensures part { IfOk result (λ part. (asked : Asked) (walk : Walk) (before now : List Request) (p inner : Plan) → p.node ≡ node.Element Element.Round inner [] → IsPart asked walk before now inner rows → IsPart asked walk before now p part) }
    ensures total { IsBuilt false result }
{
    let rule = BinaryRule::Apply(ElementRule::Apply(Element::Round));
    beside_number(alloc, rule, whole(1), rows)
}

/// A function of rows and of a scalar.
pub fn applied_with(
    alloc: Global,
    f: Element,
    rows: Result<Part, Unbuilt>,
    beside: Result<Part, Unbuilt>,
) -> Result<Part, Unbuilt>
    ensures part { (asked : Asked) (walk : Walk) (before between now : List Request) (p inner a : Plan) → p.node ≡ node.Element f inner (a ∷ []) → IsPartOf asked walk before between inner rows → IsPartOf asked walk between now a beside → IsPartOf asked walk before now p result }
    ensures total { (kind other : Kind) → is_element f kind (other ∷ []) ≡ true → IsBuilt (is_scalar kind) rows → IsBuilt (is_scalar other) beside → IsBuilt (is_scalar (element_kind f kind)) result }
{
    let (rows, beside) = both(rows, beside)?;
    if !takes_one(f) {
        return Err(Unbuilt::Invalid);
    }
    let rule = BinaryRule::Apply(ElementRule::Apply(f));
    binary(alloc, rule, false, rows, beside)
}

/// Both parts, if both are built.
fn both(
    first: Result<Part, Unbuilt>,
    second: Result<Part, Unbuilt>,
) -> Result<(Part, Part), Unbuilt>
    ensures first { IfOk result (λ parts. first ≡ Ok parts.0) }
    ensures second { IfOk result (λ parts. second ≡ Ok parts.1) }
    ensures total { (scalar other : Bool) → IsBuilt scalar first → IsBuilt other second → AreBuilt scalar other result }
{
    let first = first?;
    let second = second?;
    Ok((first, second))
}

/// A function of rows and of two scalars, which `clamp` alone is.
pub fn clamped(
    alloc: Global,
    f: Element,
    rows: Result<Part, Unbuilt>,
    low: Result<Part, Unbuilt>,
    high: Result<Part, Unbuilt>,
) -> Result<Part, Unbuilt>
    ensures part { (asked : Asked) (walk : Walk) (before one two now : List Request) (p inner a b : Plan) → p.node ≡ node.Element f inner (a ∷ b ∷ []) → IsPartOf asked walk before one inner rows → IsPartOf asked walk one two a low → IsPartOf asked walk two now b high → IsPartOf asked walk before now p result }
    ensures total { (kind least most : Kind) → is_element f kind (least ∷ most ∷ []) ≡ true → IsBuilt (is_scalar kind) rows → IsBuilt (is_scalar least) low → IsBuilt (is_scalar most) high → IsBuilt (is_scalar (element_kind f kind)) result }
{
    let rows = rows?;
    let (low, high) = both(low, high)?;
    match f {
        Element::Clamp => clamp(alloc, ElementRule::Apply(Element::Clamp), rows, low, high),
        _ => Err(Unbuilt::Invalid),
    }
}

// ---- two children

/// A rule over rows, with a number beside them.
fn beside_number(alloc: Global, rule: BinaryRule, value: XFrac, rows: Part) -> Result<Part, Unbuilt>
    ensures made { IfOk result (λ part. IsBesideNumber rule value rows part) }
    ensures total { IsTrue (is_binary rule) → IsBuilt false result }
{
    trees_stay_within();
    let number = instants(alloc, SmallRule::Number(value));
    let (rows, number) = both(Ok(rows), number)?;
    binary(alloc, rule, false, rows, number)
}

/// `histogram_quantile`.
pub fn quantiles(
    alloc: Global,
    rows: Result<Part, Unbuilt>,
    beside: Result<Part, Unbuilt>,
) -> Result<Part, Unbuilt>
    ensures part { (asked : Asked) (walk : Walk) (before between now : List Request) (p inner a : Plan) → p.node ≡ node.Buckets a inner → IsPartOf asked walk before between inner rows → IsPartOf asked walk between now a beside → IsPartOf asked walk before now p result }
    ensures total { (scalar : Bool) → IsBuilt scalar rows → IsBuilt true beside → IsBuilt false result }
{
    let (rows, beside) = both(rows, beside)?;
    binary(alloc, BinaryRule::Buckets, false, rows, beside)
}

/// Each row of a sum, divided by the row of a count that has its labels.
pub fn divided(
    alloc: Global,
    sum: Result<Part, Unbuilt>,
    count: Result<Part, Unbuilt>,
) -> Result<Part, Unbuilt>
    ensures part { (asked : Asked) (walk : Walk) (before between now : List Request) (p left right : Plan) → p.node ≡ node.Ratio left right → IsPartOf asked walk before between left sum → IsPartOf asked walk between now right count → IsPartOf asked walk before now p result }
    ensures total { (scalar other : Bool) → IsBuilt scalar sum → IsBuilt other count → IsBuilt false result }
{
    let (sum, count) = both(sum, count)?;
    binary(alloc, BinaryRule::Ratio, false, sum, count)
}

/// A set operator.
pub fn combined(
    alloc: Global,
    op: SetOp,
    pairing: Pairing,
    rows: Result<Part, Unbuilt>,
    beside: Result<Part, Unbuilt>,
) -> Result<Part, Unbuilt>
    ensures part { (asked : Asked) (walk : Walk) (before between now : List Request) (p left right : Plan) → p.node ≡ node.Set op left right pairing → IsPartOf asked walk before between left rows → IsPartOf asked walk between now right beside → IsPartOf asked walk before now p result }
    ensures total { (scalar other : Bool) → IsBuilt scalar rows → IsBuilt other beside → IsBuilt false result }
{
    let (rows, beside) = both(rows, beside)?;
    binary(alloc, BinaryRule::Combine(op, pairing), false, rows, beside)
}

/// An operator: between two vectors, or with a scalar on a side.
pub fn paired(
    alloc: Global,
    op: PairOp,
    pairing: Pairing,
    left: Result<Part, Unbuilt>,
    right: Result<Part, Unbuilt>,
) -> Result<Part, Unbuilt>
    ensures part { (asked : Asked) (walk : Walk) (before between now : List Request) (p l r : Plan) → p.node ≡ node.Pair op l r pairing → IsPartOf asked walk before between l left → IsPartOf asked walk between now r right → IsPartOf asked walk before now p result }
    ensures total { (kind other : Kind) → IsBuilt (is_scalar kind) left → IsBuilt (is_scalar other) right → IsBuilt (is_scalar (both kind other)) result }
{
    let (left, right) = both(left, right)?;
    if right.scalar {
        let rule = BinaryRule::Apply(ElementRule::WithScalar {
            op,
            scalar_left: false,
        });
        let scalar = left.scalar;
        return binary(alloc, rule, scalar, left, right);
    }
    if left.scalar {
        let rule = BinaryRule::Apply(ElementRule::WithScalar {
            op,
            scalar_left: true,
        });
        return binary(alloc, rule, false, right, left);
    }
    binary(alloc, BinaryRule::Join(op, pairing), false, left, right)
}

// ---- aggregations

/// An aggregation of one value a group, or `count_values`, which reads no parameter.
pub fn grouped(
    alloc: Global,
    f: Aggregate,
    by: Grouping,
    label: Text,
    rows: Result<Part, Unbuilt>,
    patterns: &Patterns<'_>,
) -> Result<Part, Unbuilt>
    ensures part { (asked : Asked) (walk : Walk) (before now : List Request) (p a : Plan) → patterns.now ≡ asked.kept → p.node ≡ node.Group f by (a ∷ []) label → IsPartOf asked walk before now a rows → IsPartOf asked walk before now p result }
    ensures total { (kind : Kind) → is_group f (kind ∷ []) label ≡ true → IsBuilt (is_scalar kind) rows → IsBuilt false result }
{
    let rows = rows?;
    match f {
        Aggregate::CountValues => {
            let rule = BinaryRule::Rank(Aggregate::CountValues, by, label);
            beside_number(alloc, rule, whole(0), rows)
        }
        _ => unary(alloc, UnaryRule::Group(f, by), false, rows, patterns),
    }
}

fn reads_parameter(f: Aggregate) -> bool
    ensures { result ≡ reads_parameter f }
{
    match f {
        Aggregate::TopK | Aggregate::BottomK | Aggregate::Quantile => true,
        _ => false,
    }
}

/// An aggregation with a parameter.
pub fn ranked(
    alloc: Global,
    f: Aggregate,
    by: Grouping,
    label: Text,
    rows: Result<Part, Unbuilt>,
    parameter: Result<Part, Unbuilt>,
) -> Result<Part, Unbuilt>
    ensures part { (asked : Asked) (walk : Walk) (before between now : List Request) (p k a : Plan) → p.node ≡ node.Group f by (k ∷ a ∷ []) label → IsPartOf asked walk between now a rows → IsPartOf asked walk before between k parameter → IsPartOf asked walk before now p result }
    ensures total { (kind first : Kind) → is_group f (first ∷ kind ∷ []) label ≡ true → IsBuilt (is_scalar kind) rows → IsBuilt (is_scalar first) parameter → IsBuilt false result }
{
    let (rows, parameter) = both(rows, parameter)?;
    if !reads_parameter(f) {
        return Err(Unbuilt::Invalid);
    }
    binary(
        alloc,
        BinaryRule::Rank(f, by, label),
        false,
        rows,
        parameter,
    )
}
