//! Parts that engines are asked for: a word for the kind of cells, and a metric.
ghost use Rattle.engine_tests.specs.Askable.{IsAskable, IsPlain, Selects, SelectsRange};
ghost use Rattle.std.specs.Prelude.{IfOk, IsTrue};
ghost use Rattle.step_cells.specs.Owed.{is_partial};

use func_table::Aggregate;
use label_set::{Items, METRIC_NAME, Rule, RuleKind, Text};
use promql_ast::{Expr, Moment, Node, Selector};
use remote_api::Part;
use std::alloc::{AllocError, Global};
use std::test::Fail;
use step_table::PartKind;
use ticks::Ms;
use written_steps::grouping;

/// The selector of a metric, at each instant.
fn selector(alloc: Global, metric: &str) -> Result<Selector, AllocError>
    ensures { IfOk result IsPlain }
{
    let label = Text::of(alloc, METRIC_NAME)?;
    let kind = RuleKind::Eq(Text::of(alloc, metric)?);
    let mut rules = Items::new(alloc);
    rules.push(Rule { label, kind })?;
    Ok(Selector {
        rules,
        moment: Moment {
            fixed: None,
            offset: Ms(0),
            closed: false,
        },
    })
}

fn vector(alloc: Global, metric: &str) -> Result<Expr, AllocError>
    ensures { IfOk result Selects }
{
    let node = Node::Select(selector(alloc, metric)?);
    Ok(Expr { at: 0, node })
}

/// The samples of the last 15 milliseconds.
fn matrix(alloc: Global, metric: &str) -> Result<Expr, AllocError>
    ensures { IfOk result SelectsRange }
{
    let node = Node::Range(selector(alloc, metric)?, Ms(15));
    Ok(Expr { at: 0, node })
}

fn aggregate(word: &str) -> Result<Aggregate, Fail>
    ensures { IfOk result (λ f. IsTrue (is_partial f)) }
{
    match word {
        "sum" => Ok(Aggregate::Sum),
        "avg" => Ok(Aggregate::Avg),
        "min" => Ok(Aggregate::Min),
        "max" => Ok(Aggregate::Max),
        "count" => Ok(Aggregate::Count),
        "group" => Ok(Aggregate::Group),
        _ => Err("no such kind of cells")?,
    }
}

/// A part: `rows`, `windows`, or an aggregation and what it groups by, as `sum by x`.
pub fn part(alloc: Global, word: &str, metric: &str) -> Result<Part, Fail>
    ensures { IfOk result (λ p. IsAskable p.kind p.expr) }
{
    if word == "rows" {
        let expr = vector(alloc, metric)?;
        return Ok(Part {
            expr,
            kind: PartKind::Rows,
        });
    }
    if word == "windows" {
        let expr = matrix(alloc, metric)?;
        return Ok(Part {
            expr,
            kind: PartKind::Windows,
        });
    }
    let (f, groups) = word.split_once(' ').ok_or("no such kind of cells")?;
    let kind = PartKind::Partial(aggregate(f)?, grouping(alloc, groups)?);
    let expr = vector(alloc, metric)?;
    Ok(Part { expr, kind })
}
