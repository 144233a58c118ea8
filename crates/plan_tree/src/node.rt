//! The nodes of a tree.
ghost use Rattle.plan_tree.specs.Counting.{fetched_by};
ghost use Rattle.plan_tree.specs.Feeding.{CanFeed, CanFill, CanRepeat, HasFed, HasFilled, HasMade, HasRun, OthersStay};
ghost use Rattle.plan_tree.specs.Feeds.{fed_on, last_of, once};
ghost use Rattle.plan_tree.specs.Nodes.{IsThere, lent_by, shape_of};
ghost use Rattle.plan_tree.specs.Shapes.{is_single as is_single_shape};
ghost use Rattle.plan_tree.specs.Spending.{FeedSpends, FillSpends};
ghost use Rattle.op_subquery.specs.Rings.{IsReady};
ghost use Rattle.subquery_rows.specs.Rings.{IsNextAfter};
ghost use Rattle.std.specs.Prelude.{◌≡◌, ◌+◌, ◌∷◌, [], Some, IfOk, OnOk};

use crate::arms::{
    binary_fed, child_named, clamp_fed, inner_taken, once_fed, points_fed, series_fed, unary_fed,
    windows_fed,
};
use crate::feeding::feed_gather;
use crate::gathering::or_memory;
use crate::laws::marks_are_sets;
use crate::outside::Outside;
use crate::turns::{Fed, fed_with};
use exchange::{Exchange, RunFault};
use match_rule::Patterns;
use op_element::ElementRows;
use op_labels::Relabelled;
use op_select::Select;
use op_small::Small;
use op_window::WindowRows;
use sample_store::Store;
use std::sync::ledger::Ledger;
use step_batch::{Batch, StepBuffer};
use step_kernels::{Binary, Unary};
use subquery_rows::SubqueryRows;
use ticks::{Ms, Work, walks_are_listed};

/// A kernel, with the trees that it reads.
#[derive(Drop)]
pub enum Node {
    /// A number, or the time: what stands in the place of rows isn't read.
    Instants {
        kernel: Small,
        none: StepBuffer,
    },
    /// The newest rows of series.
    Select(Select),
    /// A function of the windows of series, and the scalar that it takes; where it takes none, any tree stands in its place.
    Series {
        kernel: WindowRows,
        scalar: Box<Node>,
    },
    /// What is made of the rows of one part.
    Unary {
        kernel: Unary,
        rows: Box<Node>,
    },
    /// What is made of the rows of one part and of another one beside it.
    Binary {
        kernel: Binary,
        rows: Box<Node>,
        beside: Box<Node>,
    },
    /// A function of rows that takes two scalars.
    Clamp {
        kernel: ElementRows,
        rows: Box<Node>,
        low: Box<Node>,
        high: Box<Node>,
    },
    /// A function of the windows of a subquery, what the inner tree was fed, and the scalar that the function takes; where it takes
    /// none, any tree stands in its place.
    Points {
        kernel: SubqueryRows,
        fed: Option<Fed>,
        inner: Box<Node>,
        scalar: Box<Node>,
    },
    /// What a tree gives at one instant, at each instant; it is fed that one alone, and once.
    Once {
        first: Ms,
        steps: StepBuffer,
        child: Box<Node>,
    },
    /// What engines give, joined: the gather at a place of an exchange, counted from 0, which lends its step.
    Gather {
        place: usize,
    },
    /// A function of the windows that engines give, joined: the gather at a place of an exchange, counted from 0; the filter of rules
    /// that they pass first, if there is one; and the scalar that the function takes. Where it takes none, any tree stands in its place.
    Windows {
        kernel: WindowRows,
        place: usize,
        passed: Option<Relabelled>,
        scalar: Box<Node>,
    },
}

impl Node {
    /// Lends the steps of the instants that were fed last; a gather's is lent by the exchange that it stands in. It takes no memory.
    pub fn lend<'a>(&'a self, exchange: &'a Exchange) -> Batch<'a>
        requires { IsThere exchange.now.places self.now }
        ensures { result ≡ lent_by exchange.now.places self.now }
    {
        match self {
            Node::Instants { kernel, .. } => kernel.lend(),
            Node::Select(kernel) => kernel.lend(),
            Node::Series { kernel, .. } => kernel.lend(),
            Node::Unary { kernel, .. } => kernel.lend(),
            Node::Binary { kernel, .. } => kernel.lend(),
            Node::Clamp { kernel, .. } => kernel.lend(),
            Node::Points { kernel, .. } => kernel.lend(),
            Node::Once { steps, .. } => steps.lend(),
            Node::Gather { place } => exchange.lend(*place),
            Node::Windows { kernel, .. } => kernel.lend(),
        }
    }

    /// Whether it is fed one instant at a time, as a subquery and a gather are. It takes no memory.
    pub fn is_single(&self) -> bool
        ensures { result ≡ is_single_shape (shape_of self.now) }
    {
        match self {
            Node::Instants { .. } | Node::Select(_) | Node::Once { .. } => false,
            Node::Points { .. } | Node::Gather { .. } | Node::Windows { .. } => true,
            Node::Series { scalar, .. } => scalar.is_single(),
            Node::Unary { rows, .. } => rows.is_single(),
            Node::Binary { rows, beside, .. } => rows.is_single() || beside.is_single(),
            Node::Clamp {
                rows,
                low,
                high,
                ..
            } => rows.is_single() || low.is_single() || high.is_single(),
        }
    }

    /// Makes the steps of more instants, one at least, later than those that were fed before, and takes out those of the last
    /// feed. In all feeds of one tree the store, the kept patterns and the engines are the same. An engine that fails or strays is
    /// told, and want of memory; after either the tree and the exchange may only be dropped. On any answer the counters rise by at
    /// most what its leaves read more of the store, and where the feed is made, that of the samples by exactly what they were given.
    #[cycle(running)]
    pub fn feed<O: Outside, W: Ledger>(
        &mut self,
        store: &Store,
        fed: Option<Fed>,
        at: &[Ms],
        outside: &mut O,
        patterns: &mut Patterns<'_>,
        work: &mut Work<W>,
    ) -> Result<(), RunFault>
        requires { CanFeed store.now patterns.old (O.engines outside.old) (O.places outside.old) fed at.now self.old }
        ensures shape { shape_of self.new ≡ shape_of self.old }
        ensures same { patterns.new ≡ patterns.old }
        ensures fed { OnOk result (HasFed store.now patterns.old (O.engines outside.old) (O.engines outside.new) (O.places outside.old) (O.places outside.new) fed at.now self.old self.new) }
        ensures others { OthersStay (shape_of self.old) (O.places outside.old) (O.places outside.new) }
        ensures names { O.names outside.new ≡ O.names outside.old }
        ensures run { HasRun result (O.engines outside.old) (O.engines outside.new) }
        ensures spent { FeedSpends store.now fed (fed_on fed at.now) result self.old self.new work.old work.new }
        ensures counted { OnOk result (work.new.fetched + fetched_by store.now fed self.old ≡ work.old.fetched + fetched_by store.now (fed_on fed at.now) self.new) }
    {
        match self {
            Node::Instants { kernel, none } => or_memory(kernel.feed(at, &none.lend())),
            Node::Select(kernel) => or_memory(kernel.feed(store, at, work)),
            Node::Series { kernel, scalar } => {
                scalar.feed(store, fed, at, outside, patterns, work)?;
                series_fed(kernel, scalar, store, at, outside, work)
            }
            Node::Unary { kernel, rows } => {
                rows.feed(store, fed, at, outside, patterns, work)?;
                unary_fed(kernel, rows, outside, patterns)
            }
            Node::Binary {
                kernel,
                rows,
                beside,
            } => {
                rows.feed(store, fed, at, outside, patterns, work)?;
                beside.feed(store, fed, at, outside, patterns, work)?;
                binary_fed(kernel, rows, beside, outside)
            }
            Node::Clamp {
                kernel,
                rows,
                low,
                high,
            } => {
                rows.feed(store, fed, at, outside, patterns, work)?;
                low.feed(store, fed, at, outside, patterns, work)?;
                high.feed(store, fed, at, outside, patterns, work)?;
                clamp_fed(kernel, rows, low, high, outside)
            }
            Node::Points {
                kernel,
                fed: inner_fed,
                inner,
                scalar,
            } => {
                scalar.feed(store, fed, at, outside, patterns, work)?;
                *inner_fed = fill(
                    kernel, inner, store, *inner_fed, at[0], outside, patterns, work,
                )?;
                points_fed(kernel, at[0], scalar, outside)
            }
            Node::Once {
                first,
                steps,
                child,
            } => {
                ready(child, steps, store, *first, fed, outside, patterns, work)?;
                once_fed(steps, child, at, outside)
            }
            Node::Gather { place } => feed_gather(place, outside, patterns),
            Node::Windows {
                kernel,
                place,
                passed,
                scalar,
            } => {
                scalar.feed(store, fed, at, outside, patterns, work)?;
                feed_gather(place, outside, patterns)?;
                windows_fed(kernel, *place, passed, scalar, outside, patterns)
            }
        }
    }
}

/// Feeds the inner tree of a subquery the instants that the window of an outer one still lacks, and answers what it was fed by then.
#[cycle(running)]
fn fill<O: Outside, W: Ledger>(
    kernel: &mut SubqueryRows,
    inner: &mut Node,
    store: &Store,
    fed: Option<Fed>,
    t: Ms,
    outside: &mut O,
    patterns: &mut Patterns<'_>,
    work: &mut Work<W>,
) -> Result<Option<Fed>, RunFault>
    requires { CanFill store.now patterns.old (O.engines outside.old) (O.places outside.old) fed kernel.old t inner.old }
    ensures f { kernel.new.f ≡ kernel.old.f }
    ensures walk { kernel.new.walk ≡ kernel.old.walk }
    ensures moment { kernel.new.points.moment ≡ kernel.old.points.moment }
    ensures range { kernel.new.points.range ≡ kernel.old.points.range }
    ensures step { kernel.new.points.step ≡ kernel.old.points.step }
    ensures shape { shape_of inner.new ≡ shape_of inner.old }
    ensures same { patterns.new ≡ patterns.old }
    ensures ready { OnOk result (IsReady kernel.new.points t) }
    ensures next { IfOk result (λ now. IsNextAfter kernel.new.walk (last_of now) kernel.new.next) }
    ensures filled { IfOk result (λ now. (c : CanFill store.now patterns.old (O.engines outside.old) (O.places outside.old) fed kernel.old t inner.old)
        → HasFilled store.now patterns.old (O.engines outside.new) (O.places outside.new) c.goes_on.all c.goes_on.known c.goes_on.taken c.times now kernel.old kernel.new t inner.old inner.new) }
    ensures others { OthersStay (shape_of inner.old) (O.places outside.old) (O.places outside.new) }
    ensures names { O.names outside.new ≡ O.names outside.old }
    ensures run { HasRun result (O.engines outside.old) (O.engines outside.new) }
    ensures spent { FillSpends store.now kernel.old.walk fed result inner.old inner.new work.old work.new }
    ensures counted { IfOk result (λ now. work.new.fetched + fetched_by store.now fed inner.old ≡ work.old.fetched + fetched_by store.now now inner.new) }
{
    marks_are_sets();
    walks_are_listed();
    let mut now = fed;
    while let Some(u) = kernel.wanted(t) {
        inner.feed(store, now, &[u], outside, patterns, work)?;
        inner_taken(kernel, inner, outside)?;
        now = fed_with(now, &[u]);
    }
    Ok(now)
}

/// Sees to it that a tree which is fed one instant alone lends its step, whose labels have their places in a buffer.
#[cycle(running)]
fn ready<O: Outside, W: Ledger>(
    child: &mut Node,
    steps: &mut StepBuffer,
    store: &Store,
    first: Ms,
    fed: Option<Fed>,
    outside: &mut O,
    patterns: &mut Patterns<'_>,
    work: &mut Work<W>,
) -> Result<(), RunFault>
    requires { CanRepeat store.now patterns.old (O.engines outside.old) (O.places outside.old) first fed steps.old child.old }
    ensures shape { shape_of child.new ≡ shape_of child.old }
    ensures same { patterns.new ≡ patterns.old }
    ensures made { OnOk result ((c : CanRepeat store.now patterns.old (O.engines outside.old) (O.places outside.old) first fed steps.old child.old)
        → HasMade store.now patterns.old (O.engines outside.new) (O.places outside.new) c.goes_on.all c.goes_on.known c.goes_on.taken (first ∷ []) (Some (record { first = first; last = first })) (first ∷ []) (shape_of child.old) child.new) }
    ensures named { OnOk result (steps.new.labels ≡ (lent_by (O.places outside.new) child.new).labels) }
    ensures others { OthersStay (shape_of child.old) (O.places outside.old) (O.places outside.new) }
    ensures names { O.names outside.new ≡ O.names outside.old }
    ensures run { HasRun result (O.engines outside.old) (O.engines outside.new) }
    ensures spent { FeedSpends store.now (once first fed) (Some (record { first = first; last = first })) result child.old child.new work.old work.new }
    ensures counted { OnOk result (work.new.fetched + fetched_by store.now (once first fed) child.old ≡ work.old.fetched + fetched_by store.now (Some (record { first = first; last = first })) child.new) }
{
    match fed {
        Some(_) => Ok(()),
        None => {
            child.feed(store, None, &[first], outside, patterns, work)?;
            child_named(steps, child, outside)
        }
    }
}
