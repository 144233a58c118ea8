//! Parts that engines are asked for: a metric, and a word for the kind of cells.
ghost use Rattle.gather_tree_tests.specs.Askable.{IsAskable, IsPlain, Selects};
ghost use Rattle.std.specs.Prelude.{IfOk, IsTrue};
ghost use Rattle.step_cells.specs.Owed.{is_partial};

use func_table::Aggregate;
use label_set::{Items, METRIC_NAME, Rule, RuleKind, Text};
use promql_ast::{Expr, Moment, Node, Selector};
use remote_api::Part;
use std::alloc::{AllocError, Global};
use std::test::Fail;
use step_table::PartKind;
use ticks::Ms;
use written_steps::grouping;

/// The selector of a metric, at each instant.
fn selector(alloc: Global, metric: &str) -> Result<Selector, AllocError>
    ensures { IfOk result IsPlain }
{
    let label = Text::of(alloc, METRIC_NAME)?;
    let kind = RuleKind::Eq(Text::of(alloc, metric)?);
    let mut rules = Items::new(alloc);
    rules.push(Rule { label, kind })?;
    Ok(Selector {
        rules,
        moment: Moment {
            fixed: None,
            offset: Ms(0),
            closed: false,
        },
    })
}

fn vector(alloc: Global, metric: &str) -> Result<Expr, AllocError>
    ensures { IfOk result Selects }
{
    let node = Node::Select(selector(alloc, metric)?);
    Ok(Expr { at: 0, node })
}

fn aggregate(word: &str) -> Result<Aggregate, Fail>
    ensures { IfOk result (λ f. IsTrue (is_partial f)) }
{
    match word {
        "sum" => Ok(Aggregate::Sum),
        "max" => Ok(Aggregate::Max),
        "count" => Ok(Aggregate::Count),
        _ => Err("no such aggregation of engines")?,
    }
}

/// The rows of a metric, as `a rows`, or an aggregation of them and what it groups by, as `a sum by x`.
pub fn part(alloc: Global, text: &str) -> Result<Part, Fail>
    ensures { IfOk result (λ p. IsAskable p.kind p.expr) }
{
    let (metric, word) = text.split_once(' ').ok_or("no kind of cells")?;
    let expr = vector(alloc, metric)?;
    if word == "rows" {
        return Ok(Part {
            expr,
            kind: PartKind::Rows,
        });
    }
    let (f, groups) = word.split_once(' ').ok_or("no groups")?;
    let kind = PartKind::Partial(aggregate(f)?, grouping(alloc, groups)?);
    Ok(Part { expr, kind })
}
