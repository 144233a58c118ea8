//! The recursion over the tree.
ghost use Rattle.plain_eval.specs.Frames.{IsFramed};
ghost use Rattle.plain_eval.specs.Queried.{asked_of, moment_in};
ghost use Rattle.plain_eval.specs.Ready.{ArePatternsKept, IsKeptWhole, IsReady};
ghost use Rattle.promql_ast.specs.declared.tree.Node.TheOpen.{Node-F};
ghost use Rattle.promql_meaning.specs.Conditions.{AreMet, needs_of, node_needs};
ghost use Rattle.promql_meaning.specs.Givens.{no_marks as no_marks_at_all};
ghost use Rattle.promql_meaning.specs.Meaning.{called as called_of, given_at, meaning, meaning_step, node_meaning, words_at};
ghost use Rattle.promql_meaning.specs.Selecting.{asked_over};
ghost use Rattle.promql_meaning.specs.Subqueries.{marks_over, rows_over};
ghost use Rattle.promql_type.specs.TypedTrees.{tree_of};
ghost use Rattle.std.specs.List.{AllByRecursion};
ghost use Rattle.std.specs.Prelude.{◌≡◌, map, IfOk};
ghost use Rattle.ticks.specs.Walks.{IsTime};

use crate::aggregates::aggregation;
use crate::calls::{called, replaced};
use crate::givens::words_at;
use crate::operators::{negation, operation, set_operation};
use crate::selecting::{moment_at, newest_rows, window_rows};
use func_table::Func;
use label_set::Items;
use match_rule::Patterns;
use promql_ast::{Expr, Moment, Node, Selector};
use promql_meaning::{Given, Selection, Windows, no_marks};
use promql_type::Typed;
use sample_store::Store;
use std::alloc::{AllocError, Global};
use std::marker::Model;
use std::sync::ledger::Ledger;
use step_rules::{Points, add_step, multiples, scalar_step, windows_over};
use step_table::Step;
use ticks::{Grid, Ms, Work};

/// The samples and the grid that a query is asked over.
#[derive(Drop)]
struct Query<'a> {
    store: &'a Store,
    span: &'a Grid,
}

impl<'a> Model for Query<'a> {
    ghost use Rattle.plain_eval.specs.Queried.{Queried};

    ghost Value = { Queried };

    ghost view = { λ q. record { samples = q.store.now; span = q.span.now } };
}

/// What a typed query means at an instant, in milliseconds, over the samples of a store. `span` has the start and the end
/// that `@ start()` and `@ end()` stand for. Samples are read by counted calls alone. The patterns stay as they are. The only
/// error is want of memory. (Prometheus querying.)
pub fn at<W: Ledger>(
    alloc: Global,
    e: &Typed,
    s: &Store,
    p: &mut Patterns,
    t: Ms,
    span: &Grid,
    work: &mut Work<W>,
) -> Result<Step, AllocError>
    // each time that the tree leads to is at most 2^60 in magnitude, its steps are positive, and its rules' patterns are kept
    requires met { AreMet (asked_over s.now p.old span.now) (needs_of (asked_over s.now p.old span.now) (tree_of e.now) t.0) }
    // the pattern of each label_replace call is kept as one that has to match the whole value, as `check` keeps it
    requires kept { ArePatternsKept p.old (tree_of e.now) }
    ensures meaning { IfOk result (λ step. step ≡ meaning_step (asked_over s.now p.old span.now) (tree_of e.now) t.0) }
    ensures same { p.new ≡ p.old }
{
    let query = Query { store: s, span };
    let given = value_at(alloc, &query, e.expr(), p, t, work)?;
    given.into_step(alloc)
}

/// What an expression gives at an instant, in milliseconds, over the samples of a store: `at` tells its step, this call its windows
/// too. `span` has the start and the end that `@ start()` and `@ end()` stand for. Samples are read by counted calls alone. The
/// patterns stay as they are. The only error is want of memory. (Prometheus querying.)
pub fn given<W: Ledger>(
    alloc: Global,
    e: &Expr,
    s: &Store,
    p: &mut Patterns,
    t: Ms,
    span: &Grid,
    work: &mut Work<W>,
) -> Result<Given, AllocError>
    // what it needs at the instant is met, it is well typed, and the patterns of its label_replace calls are kept
    requires ready { IsReady (asked_over s.now p.old span.now) e.now t.0 }
    ensures meaning { IfOk result (λ given. given ≡ meaning (asked_over s.now p.old span.now) e.now t.0) }
    ensures same { p.new ≡ p.old }
{
    let query = Query { store: s, span };
    value_at(alloc, &query, e, p, t, work)
}

/// What a part of a typed tree gives at an instant.
#[cycle(evaluation)]
fn value_at<W: Ledger>(
    alloc: Global,
    query: &Query<'_>,
    e: &Expr,
    patterns: &mut Patterns,
    t: Ms,
    work: &mut Work<W>,
) -> Result<Given, AllocError>
    requires { IsReady (asked_of query.now patterns.old) e.now t.0 }
    ensures meaning { IfOk result (λ given. given ≡ meaning (asked_of query.now patterns.old) e.now t.0) }
    ensures same { patterns.new ≡ patterns.old }
{
    match &e.node {
        Node::Number(value) => Ok(Given::Scalar(scalar_step(alloc, value)?)),
        Node::Words(text) => Ok(Given::Words(text.copy()?)),
        Node::Paren(inner) => value_at(alloc, query, inner.get(), patterns, t, work),
        Node::Negate(inner) => {
            let given = value_at(alloc, query, inner.get(), patterns, t, work)?;
            negation(alloc, given)
        }
        Node::Select(selector) => selected(alloc, query, selector, patterns, t, work),
        Node::Range(selector, range) => windows(alloc, query, selector, *range, patterns, t, work),
        Node::Subquery {
            inner,
            range,
            step,
            moment,
        } => {
            let m = moment_in(query, moment, t);
            let us = multiples(alloc, m, moment.closed, *range, *step)?;
            let points = points_at(alloc, query, inner.get(), us.as_slice(), patterns, work)?;
            Ok(Given::Windows(windows_over(alloc, m, *range, points)?))
        }
        Node::Call(f, arguments) => {
            let givens = values_at(alloc, query, arguments.as_slice(), patterns, t, work)?;
            call(alloc, *f, givens, patterns, t)
        }
        Node::Aggregate(f, by, arguments) => {
            let givens = values_at(alloc, query, arguments.as_slice(), patterns, t, work)?;
            Ok(Given::Vector(aggregation(alloc, *f, by, givens)?))
        }
        Node::Pair(op, left, right, pairing) => {
            let l = value_at(alloc, query, left.get(), patterns, t, work)?;
            let r = value_at(alloc, query, right.get(), patterns, t, work)?;
            operation(alloc, *op, pairing, l, r)
        }
        Node::Set(op, left, right, pairing) => {
            let l = value_at(alloc, query, left.get(), patterns, t, work)?;
            let r = value_at(alloc, query, right.get(), patterns, t, work)?;
            Ok(Given::Vector(set_operation(alloc, *op, pairing, l, r)?))
        }
    }
}

/// What each of some arguments gives at an instant.
#[cycle(evaluation)]
fn values_at<W: Ledger>(
    alloc: Global,
    query: &Query<'_>,
    arguments: &[Expr],
    patterns: &mut Patterns,
    t: Ms,
    work: &mut Work<W>,
) -> Result<Items<Given>, AllocError>
    requires { AllByRecursion (λ e. IsReady (asked_of query.now patterns.old) e t.0) arguments.now }
    ensures meaning { IfOk result (λ givens. givens ≡ given_at (map (meaning (asked_of query.now patterns.old)) arguments.now) t.0) }
    ensures same { patterns.new ≡ patterns.old }
{
    let mut givens = Items::new(alloc);
    for e in arguments {
        givens.push(value_at(alloc, query, e, patterns, t, work)?)?;
    }
    Ok(givens)
}

/// The rows and marks of a part at some instants.
#[cycle(evaluation)]
fn points_at<W: Ledger>(
    alloc: Global,
    query: &Query<'_>,
    inner: &Expr,
    us: &[Ms],
    patterns: &mut Patterns,
    work: &mut Work<W>,
) -> Result<Points, AllocError>
    requires { AllByRecursion (λ u. IsReady (asked_of query.now patterns.old) inner.now u.0) us.now }
    ensures rows { IfOk result (λ points. points.rows ≡ rows_over (meaning_step (asked_of query.now patterns.old) inner.now) us.now) }
    ensures marks { IfOk result (λ points. points.marks ≡ marks_over (meaning_step (asked_of query.now patterns.old) inner.now) no_marks_at_all us.now) }
    ensures same { patterns.new ≡ patterns.old }
{
    let mut points = Points {
        rows: Items::new(alloc),
        marks: no_marks(alloc),
    };
    for u in us {
        let given = value_at(alloc, query, inner, patterns, *u, work)?;
        add_step(&mut points, *u, given.into_step(alloc)?)?;
    }
    Ok(points)
}

/// The moment that belongs to an instant.
fn moment_in(query: &Query<'_>, moment: &Moment, t: Ms) -> Ms
    requires { IsTime (moment_in query.now moment.now t.0) }
    ensures { result.0 ≡ moment_in query.now moment.now t.0 }
{
    moment_at(moment, query.span, t)
}

/// What an instant selector gives.
fn selected<W: Ledger>(
    alloc: Global,
    query: &Query<'_>,
    selector: &Selector,
    patterns: &mut Patterns,
    t: Ms,
    work: &mut Work<W>,
) -> Result<Given, AllocError>
    requires { AreMet (asked_of query.now patterns.old) (node_needs (asked_of query.now patterns.old) (Node-F.Select selector.now) t.0) }
    ensures meaning { IfOk result (λ given. given ≡ node_meaning (asked_of query.now patterns.old) (Node-F.Select selector.now) t.0) }
    ensures same { patterns.new ≡ patterns.old }
{
    let m = moment_in(query, &selector.moment, t);
    let rows = newest_rows(
        alloc,
        query.store,
        &selector.rules,
        patterns,
        m,
        selector.moment.closed,
        work,
    )?;
    Ok(Given::Selected(Selection {
        rules: selector.rules.copy()?,
        rows,
    }))
}

/// What a range selector gives.
fn windows<W: Ledger>(
    alloc: Global,
    query: &Query<'_>,
    selector: &Selector,
    range: Ms,
    patterns: &mut Patterns,
    t: Ms,
    work: &mut Work<W>,
) -> Result<Given, AllocError>
    requires { AreMet (asked_of query.now patterns.old) (node_needs (asked_of query.now patterns.old) (Node-F.Range selector.now range) t.0) }
    ensures meaning { IfOk result (λ given. given ≡ node_meaning (asked_of query.now patterns.old) (Node-F.Range selector.now range) t.0) }
    ensures same { patterns.new ≡ patterns.old }
{
    let moment = moment_in(query, &selector.moment, t);
    let rows = window_rows(
        alloc,
        query.store,
        &selector.rules,
        range,
        patterns,
        moment,
        selector.moment.closed,
        work,
    )?;
    Ok(Given::Windows(Windows {
        moment,
        range,
        rules: selector.rules.copy()?,
        rows,
        marks: no_marks(alloc),
    }))
}

/// What a call gives; the pattern of label_replace is the one that is kept with the text of its fifth argument.
fn call(
    alloc: Global,
    f: Func,
    givens: Items<Given>,
    patterns: &mut Patterns,
    t: Ms,
) -> Result<Given, AllocError>
    requires framed { AllByRecursion (IsFramed t.0) givens }
    requires kept { f ≡ Func.LabelReplace → IsKeptWhole patterns.old (words_at givens 4) }
    ensures given { IfOk result (λ given. given ≡ called_of f givens t.0) }
    ensures same { patterns.new ≡ patterns.old }
{
    match f {
        Func::LabelReplace => {
            let text = words_at(givens.as_slice(), 4);
            let pattern = patterns.find(true, text).unwrap();
            replaced(alloc, givens, pattern, patterns, t)
        }
        _ => called(alloc, f, givens, t),
    }
}
