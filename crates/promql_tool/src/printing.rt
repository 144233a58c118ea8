//! Printing an expression in its canonical form, or its plan.
ghost use Rattle.edge_io.specs.Causes.{HasCause};
ghost use Rattle.edge_io.specs.Written.{WroteFront};
ghost use Rattle.promql_tool.specs.Ends.{Reports};
ghost use Rattle.promql_tool.specs.Printed.{Explained, Formatted, plan_report, refused_report, rewrites_in, tree_report};
ghost use Rattle.promql_tool.specs.Runs.{Ends, IsCutReport, page_report};
ghost use Rattle.promql_type.specs.TypedTrees.{tree_of};
ghost use Rattle.query_engine.specs.Planning.{choices_of};
ghost use Rattle.std.specs.Prelude.{◌≡◌, ◌<◌, ◌^◌, false, length, IfOk, IsErrOf, OnErr};

use crate::print::Status;
use crate::text::failure_line;
use edge_io::{Sink, SinkFail, write_all};
use holders::Items;
use label_set::Labels;
use logical_plan::Plan;
use match_rule::{PatternRoom, Patterns};
use plan_text::write;
use promql_ast::QueryRefusal;
use promql_lex::LexFault;
use promql_meaning::Outcome;
use promql_print::print;
use promql_type::{TypeFault, Typed};
use query_engine::{Options, rewritten, typed_tree};
use std::alloc::{AllocError, Global};
use tool_words::Optimisers;

/// A report: its text, and the status of the program.
#[derive(Drop)]
pub struct Page {
    pub text: Vec<u8>,
    pub status: Status,
}

/// The page of a refusal.
fn refused_page(alloc: Global, refusal: QueryRefusal) -> Result<Page, AllocError>
    ensures { IfOk result (λ page. page_report page ≡ refused_report refusal) }
{
    let text = failure_line(alloc, &Outcome::Refused(refusal))?;
    Ok(Page {
        text,
        status: Status(1),
    })
}

/// The page of a tree whose patterns are kept: its canonical text.
fn tree_page(alloc: Global, typed: &Typed, patterns: &Patterns<'_>) -> Result<Page, AllocError>
    ensures { IfOk result (λ page. page_report page ≡ tree_report patterns.now (tree_of typed.now)) }
{
    let mut text = Vec::new(alloc);
    print(typed.expr(), patterns, &mut text)?;
    text.extend_from_slice(b"\n")?;
    Ok(Page {
        text,
        status: Status(0),
    })
}

/// The page of an expression: its canonical text, or its refusal. The only error is want of memory.
fn formatted_page(alloc: Global, expr: &str) -> Result<Page, AllocError>
    ensures { IfOk result (λ page. Formatted expr.now (page_report page)) }
{
    let mut room = PatternRoom::new(alloc)?;
    let mut patterns = Patterns::new(alloc, &mut room);
    match typed_tree(alloc, expr, false, &mut patterns) {
        Ok(typed) => tree_page(alloc, &typed, &patterns),
        Err(TypeFault::Refused(refusal)) => refused_page(alloc, refusal),
        Err(TypeFault::Memory) => Err(AllocError),
    }
}

/// The page of a plan whose patterns are kept: its lines.
fn plan_page(alloc: Global, plan: &Plan, patterns: &Patterns<'_>) -> Result<Page, AllocError>
    ensures { IfOk result (λ page. page_report page ≡ plan_report patterns.now plan.now) }
{
    let mut text = Vec::new(alloc);
    write(plan, patterns, &mut text)?;
    Ok(Page {
        text,
        status: Status(0),
    })
}

/// What a plan is made by, as the engine takes it. No evaluation follows, so the batch and the edge have no meaning.
fn plan_options(optimisers: Optimisers) -> Options
    ensures rewrites { choices_of result ≡ rewrites_in optimisers }
    ensures open { result.closed ≡ false }
{
    Options {
        sort: optimisers.sort,
        propagate: optimisers.propagate,
        merge: optimisers.merge,
        trim: optimisers.trim,
        avg: optimisers.avg,
        remote: optimisers.remote,
        batch: 1,
        closed: false,
    }
}

/// The page of an expression's plan over so many engines: its lines, or the expression's refusal. The only error is want of memory.
fn explained_page(
    alloc: Global,
    engines: u32,
    optimisers: Optimisers,
    expr: &str,
) -> Result<Page, AllocError>
    ensures { IfOk result (λ page. Explained engines (rewrites_in optimisers) expr.now (page_report page)) }
{
    let options = plan_options(optimisers);
    let mut room = PatternRoom::new(alloc)?;
    let mut patterns = Patterns::new(alloc, &mut room);
    match rewritten(alloc, expr, engines, &options, &mut patterns) {
        Ok(plan) => plan_page(alloc, &plan, &patterns),
        Err(LexFault::Refused(refusal)) => refused_page(alloc, refusal),
        Err(LexFault::Memory) => Err(AllocError),
    }
}

/// Prints a page as one piece.
fn print_page<S: Sink>(page: &Page, out: &mut S) -> Result<Status, SinkFail>
    ensures ok { IfOk result (λ status. Reports (S.written out.old) (S.written out.new) status.0 (page_report page.now)) }
    ensures err { OnErr result (WroteFront (S.written out.old) (S.written out.new) (page_report page.now).text) }
    ensures cause { HasCause (S.faults out.old) (S.faults out.new) (IsErrOf result SinkFail.Failed) }
    ensures sound { S.sound out.old → S.sound out.new }
    ensures never { S.sound out.old → IsErrOf result SinkFail.Failed → ⊥ }
{
    write_all(out, &page.text)?;
    Ok(page.status)
}

/// Prints an expression in its canonical form, or why it is refused, as one piece. The errors are `Failed` of the sink and want
/// of memory; after them a front of the line was written, or nothing.
pub fn run_format<S: Sink>(alloc: Global, expr: &str, out: &mut S) -> Result<Status, SinkFail>
    ensures ends { Ends (Formatted expr.now) (IsCutReport (Formatted expr.now) (S.written out.old) (S.written out.new)) (S.written out.old) (S.written out.new) result }
    ensures cause { HasCause (S.faults out.old) (S.faults out.new) (IsErrOf result SinkFail.Failed) }
    ensures sound { S.sound out.old → S.sound out.new }
    ensures never { S.sound out.old → IsErrOf result SinkFail.Failed → ⊥ }
{
    let page = formatted_page(alloc, expr)?;
    print_page(&page, out)
}

/// How many engines are declared.
fn engine_count(declared: &Items<Labels>) -> u32
    requires { length declared.now < 2 ^ 32 }
    ensures { result ≡ length declared.now }
{
    declared.as_slice().len() as u32
}

/// Prints the plan of an expression over the declared engines, behind the rewrites that are chosen, a line for each node, or why it is refused, as one piece.
/// The errors are `Failed` of the sink and want of memory; after them a front of the lines was written, or nothing.
pub fn run_explain<S: Sink>(
    alloc: Global,
    declared: &Items<Labels>,
    optimisers: Optimisers,
    expr: &str,
    out: &mut S,
) -> Result<Status, SinkFail>
    requires { length declared.now < 2 ^ 32 }
    ensures ends { Ends (Explained (length declared.now) (rewrites_in optimisers) expr.now) (IsCutReport (Explained (length declared.now) (rewrites_in optimisers) expr.now) (S.written out.old) (S.written out.new)) (S.written out.old) (S.written out.new) result }
    ensures cause { HasCause (S.faults out.old) (S.faults out.new) (IsErrOf result SinkFail.Failed) }
    ensures sound { S.sound out.old → S.sound out.new }
    ensures never { S.sound out.old → IsErrOf result SinkFail.Failed → ⊥ }
{
    let engines = engine_count(declared);
    let page = explained_page(alloc, engines, optimisers, expr)?;
    print_page(&page, out)
}
