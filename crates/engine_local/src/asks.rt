//! How asks are made, and how they go on.
ghost use Rattle.engine_local.specs.Local.{IsFresh, went_on};
ghost use Rattle.engine_local.specs.Windows.{IsWindow};
ghost use Rattle.engine_local.specs.declared.own.OwnAsk.{OwnAsk};
ghost use Rattle.promql_ast.specs.declared.tree.Node.TheVariants.{Range};
ghost use Rattle.promql_ast.specs.declared.tree.Selector.{Selector};
ghost use Rattle.promql_meaning.specs.Selecting.{asked_over};
ghost use Rattle.promql_meaning.specs.WalkMoments.{IsMomentOf, fixed_time};
ghost use Rattle.remote_api.specs.Seen.{HasForm};
ghost use Rattle.std.specs.Prelude.{◌≡◌, ◌+◌, ◌<◌, ◌^◌, [], ◌∷◌, ◌++◌, length, IfOk, OnOk, OnErr};
ghost use Rattle.ticks.specs.Walks.{LeadsToTimes};
ghost use Rattle.ticks.specs.declared.moment.Ms.{Ms};

use crate::own::OwnAsk;
use crate::patterns::copied;
use match_rule::Patterns;
use promql_ast::{Expr, Fixed, Moment, Node};
use remote_api::{Ask, Part};
use std::alloc::{AllocError, Global};
use ticks::{Grid, Ms, Walk, WalkMoment, walks_are_listed};

impl OwnAsk {
    /// An ask of which nothing was given. The only error is want of memory.
    pub(crate) fn new(
        alloc: Global,
        part: &Part,
        walk: &Walk,
        span: &Grid,
        patterns: &Patterns<'_>,
    ) -> Result<OwnAsk, AllocError>
        requires times { LeadsToTimes walk.now }
        requires form { HasForm patterns.now part.now.expr part.now.kind }
        ensures { IfOk result (IsFresh part.now walk.now span.now patterns.now) }
    {
        walks_are_listed();
        Ok(OwnAsk {
            part: part.copy()?,
            ask: ask_of(part, walk, span)?,
            span: *span,
            kept: copied(alloc, patterns)?,
            given: 0,
            next: walk.first(),
        })
    }

    /// Counts steps that are given, behind which an instant of the walk comes next; there is none behind the last one.
    pub(crate) fn go_on(&mut self, count: usize, next: Option<Ms>)
        requires few { self.old.given + count < 2 ^ 64 }
        ensures { self.new ≡ went_on count next self.old }
    {
        self.given += count;
        self.next = next;
    }
}

/// Adds an ask of which nothing was given behind others, and answers its place, counted from 0. The only error is want of memory; then
/// they are as they were.
pub(crate) fn add_ask(
    asks: &mut Vec<OwnAsk>,
    alloc: Global,
    part: &Part,
    walk: &Walk,
    span: &Grid,
    patterns: &Patterns<'_>,
) -> Result<usize, AllocError>
    requires times { LeadsToTimes walk.now }
    requires form { HasForm patterns.now part.now.expr part.now.kind }
    ensures place { IfOk result (λ place. place ≡ length asks.old.items) }
    ensures added { OnOk result ((one : OwnAsk) × (asks.new.items ≡ asks.old.items ++ one ∷ []) × IsFresh part.now walk.now span.now patterns.now one) }
    ensures err { OnErr result (asks.new.items ≡ asks.old.items) }
{
    let place = asks.as_slice().len();
    let one = OwnAsk::new(alloc, part, walk, span, patterns)?;
    asks.push(one)?;
    Ok(place)
}

/// What the steps of a part at the instants of a walk have to be. The only error is want of memory.
fn ask_of(part: &Part, walk: &Walk, span: &Grid) -> Result<Ask, AllocError>
    ensures walk { IfOk result (λ ask. ask.walk ≡ walk.now) }
    ensures kind { IfOk result (λ ask. ask.kind ≡ part.now.kind) }
    ensures window { IfOk result (λ ask. (selector : Selector) (range : Ms) → part.now.expr.node ≡ Range selector range → IsWindow span.now selector range ask.moment ask.range) }
{
    let (moment, range) = window_of(&part.expr, span);
    Ok(Ask {
        walk: walk.copy()?,
        kind: part.kind.copy()?,
        moment,
        range,
    })
}

/// The moment and the range of a range selector; of another expression they are never read.
fn window_of(expr: &Expr, span: &Grid) -> (WalkMoment, Ms)
    ensures { (selector : Selector) (range : Ms) → expr.now.node ≡ Range selector range → IsWindow span.now selector range result.0 result.1 }
{
    match &expr.node {
        Node::Range(selector, range) => (walk_moment(&selector.moment, span), *range),
        _ => (unread(), Ms(0)),
    }
}

fn unread() -> WalkMoment {
    WalkMoment {
        fixed: None,
        offset: Ms(0),
        closed: false,
    }
}

/// The moment of an expression in a query over a grid, as that of a walk.
fn walk_moment(moment: &Moment, span: &Grid) -> WalkMoment
    ensures moment { IsMomentOf (asked_over [] [] span.now) moment.now result }
    ensures closed { result.closed ≡ moment.now.closed }
{
    WalkMoment {
        fixed: fixed_time(moment.fixed, span),
        offset: moment.offset,
        closed: moment.closed,
    }
}

fn fixed_time(fixed: Option<Fixed>, span: &Grid) -> Option<Ms>
    ensures { result ≡ fixed_time span.now.start.0 span.now.end.0 fixed }
{
    match fixed {
        None => None,
        Some(Fixed::At(at)) => Some(at),
        Some(Fixed::Start) => Some(span.start),
        Some(Fixed::End) => Some(span.end),
    }
}
