//! The nodes of plans.
ghost use Rattle.std.specs.Prelude.{◌≡◌, IfOk};

use func_table::{Aggregate, Element, SetOp, Window};
use holders::{Boxed, Items, Text};
use label_set::{Grouping, Labels, Pairing, Relabel, Rule};
use promql_ast::{Expr, Moment};
use std::alloc::AllocError;
use step_table::PartKind;
use ticks::Ms;
use xfrac::{PairOp, XFrac};

/// A plan: a node, and the place of its first byte in the query's text, counted from 0.
#[cycle(tree)]
#[derive(Drop)]
pub struct Plan {
    pub at: u32,
    pub node: PlanNode,
}

/// What a plan computes at each instant. Durations are in milliseconds. A node for each node of an expression, by the
/// Prometheus querying documentation; filters, ratios and gathers come of rewriting, by the optimisers of
/// thanos-io/promql-engine; that a part is computed once is this project's own.
#[cycle(tree)]
#[derive(Drop)]
pub enum PlanNode {
    /// A number.
    Number(XFrac),
    /// The instant in seconds, as a scalar.
    Time,
    /// The newest sample of each series that passes the rules; where it is stamped, the sample's own time in seconds in the
    /// place of its value.
    Select {
        rules: Items<Rule>,
        moment: Moment,
        stamped: bool,
    },
    /// The samples of each series that passes the rules, in a range of this length.
    Range {
        rules: Items<Rule>,
        moment: Moment,
        range: Ms,
    },
    /// What a plan gives at the multiples of `step` in a range.
    Subquery {
        inner: Boxed<Plan>,
        range: Ms,
        step: Ms,
        moment: Moment,
    },
    /// A function of each row, and the scalars that it takes; minus is one of these, and keeps a scalar a scalar.
    Element(Element, Boxed<Plan>, Items<Plan>),
    /// `timestamp`: over a stamped selector its values, over any other plan the instant in seconds, without the name.
    Stamp(Boxed<Plan>),
    /// A function of windows, and the scalar that it takes.
    Window(Window, Boxed<Plan>, Items<Plan>),
    /// One row 1 where there are no rows, under these labels; where there are none, they would pass the limits of labels.
    Absent {
        labels: Option<Labels>,
        inner: Boxed<Plan>,
    },
    /// `histogram_quantile`: the quantile, and the buckets.
    Buckets(Boxed<Plan>, Boxed<Plan>),
    /// A change of labels, or the rows whose labels pass rules.
    Relabel(Relabel, Boxed<Plan>),
    /// `sort` and `sort_desc`, which order what is printed.
    Sort {
        down: bool,
        inner: Boxed<Plan>,
    },
    /// `scalar`.
    ScalarOf(Boxed<Plan>),
    /// `vector`.
    VectorOf(Boxed<Plan>),
    /// An aggregation of its arguments; the text is the label of `count_values`.
    Group(Aggregate, Grouping, Items<Plan>, Text),
    /// An arithmetic operation or a comparison.
    Pair(PairOp, Boxed<Plan>, Boxed<Plan>, Pairing),
    /// A set operation.
    Set(SetOp, Boxed<Plan>, Boxed<Plan>, Pairing),
    /// The rows or windows of a selector whose labels pass rules.
    Filter {
        base: Boxed<Plan>,
        rules: Items<Rule>,
    },
    /// Each row of a sum, divided by the row of a count that has its labels.
    Ratio {
        sum: Boxed<Plan>,
        count: Boxed<Plan>,
    },
    /// A part that gives the same at each instant, and is computed at the first one alone.
    Once(Boxed<Plan>),
    /// A part of the query that engines are asked for, each over the samples that it holds: what they give is joined by the
    /// kind of the part. The engines stand by their numbers, counted from 0, in the order in which they are asked.
    Gather {
        expr: Expr,
        kind: PartKind,
        asked: Items<u32>,
    },
}
