//! Trees over gathers, at the instants of a grid.
ghost use Rattle.gather_tree_tests.specs.Fitting.{AreIdle, IsNew};
ghost use Rattle.gather_tree_tests.specs.Growing.{IsGrown, at_once, reach, stride};
ghost use Rattle.op_labels.specs.Rules.{Kept};
ghost use Rattle.plan_tree.specs.Chains.{IsReady};
ghost use Rattle.remote_api.specs.Seen.{EngineSeen};
ghost use Rattle.sample_store.specs.Samples.{AllSeries};
ghost use Rattle.std.specs.Prelude.{◌≡◌, List, None, true, false, IfOk};
ghost use Rattle.step_kernels.specs.Binaries.{is_binary, takes_scalar};
ghost use Rattle.ticks.specs.declared.walk.Walk.TheVariants.{Multiples};
ghost use Rattle.ticks.specs.declared.walk.Walk.{Grid as Over};

use crate::gathers::gather;
use exchange::Exchange;
use func_table::{Found, Func, SetOp, Window, find};
use holders::Boxed;
use label_set::{Card, Items, Pairing};
use op_small::{Small, SmallRule};
use plan_tree::{Node, Tree};
use std::alloc::{AllocError, Global};
use std::test::Fail;
use step_batch::StepBuffer;
use step_kernels::{Binary, BinaryRule};
use subquery_rows::SubqueryRows;
use ticks::{Grid, Ms, Walk, WalkMoment, walks_are_listed, walks_keep_to_times};
use written_steps::operator;
use xfrac::XFrac;

/// A tree, and the exchange that its gathers stand in.
#[derive(Drop)]
struct Grown {
    node: Node,
    exchange: Exchange,
}

/// Matching one to one, by all labels.
fn by_all(alloc: Global) -> Pairing {
    Pairing {
        on: false,
        names: Items::new(alloc),
        card: Card::OneToOne,
        extra: Items::new(alloc),
    }
}

/// What an operator between two vectors makes of them.
fn rule(alloc: Global, word: &str) -> Result<BinaryRule, Fail>
    ensures kernel { IfOk result (λ r. is_binary r ≡ true) }
    ensures vector { IfOk result (λ r. takes_scalar r ≡ false) }
{
    let pairing = by_all(alloc);
    match word {
        "and" => Ok(BinaryRule::Combine(SetOp::And, pairing)),
        "or" => Ok(BinaryRule::Combine(SetOp::Or, pairing)),
        "unless" => Ok(BinaryRule::Combine(SetOp::Unless, pairing)),
        _ => Ok(BinaryRule::Join(operator(word)?, pairing)),
    }
}

/// An operator between two gathers, as `+ > a rows > b rows`.
fn pair(alloc: Global, mut exchange: Exchange, text: &str, grid: &Grid) -> Result<Grown, Fail>
    requires { IsNew exchange }
    ensures { IfOk result (λ g. IsGrown grid.now g.node g.exchange) }
{
    walks_keep_to_times();
    let (word, rest) = text.split_once(" > ").ok_or("no operator")?;
    let (first, second) = rest.split_once(" > ").ok_or("no second part")?;
    let walk = Walk::Grid(*grid);
    let kernel = Binary::new(alloc, rule(alloc, word)?)?;
    let rows = gather(alloc, &mut exchange, first, &walk)?;
    let beside = gather(alloc, &mut exchange, second, &walk)?;
    let node = Node::Binary {
        kernel,
        rows: Box::new(alloc, rows)?,
        beside: Box::new(alloc, beside)?,
    };
    Ok(Grown { node, exchange })
}

/// The instant itself, as the moment of a subquery.
const AT_ONCE: WalkMoment = WalkMoment {
    fixed: None,
    offset: Ms(0),
    closed: false,
};

/// The walk of a subquery's inner instants: the multiples of 5 milliseconds in the 20 before each instant of a grid.
fn inner_walk(alloc: Global, grid: &Grid) -> Result<Walk, AllocError>
    ensures { IfOk result (λ walk. walk ≡ Multiples (Over grid.now) at_once reach stride) }
{
    let outer = Boxed::new(alloc, Walk::Grid(*grid))?;
    Ok(Walk::Multiples {
        outer,
        moment: AT_ONCE,
        range: Ms(20),
        step: Ms(5),
    })
}

/// A function of windows, by its name.
fn window(name: &str) -> Result<Window, Fail> {
    match find(name) {
        Found::Known(Func::Window(window)) => Ok(window),
        _ => Err("no such function of windows")?,
    }
}

/// A function of the windows of a subquery over a gather, as `sum_over_time > a rows`.
fn subquery(alloc: Global, mut exchange: Exchange, text: &str, grid: &Grid) -> Result<Grown, Fail>
    requires { IsNew exchange }
    ensures { IfOk result (λ g. IsGrown grid.now g.node g.exchange) }
{
    walks_are_listed();
    walks_keep_to_times();
    let (name, asked) = text.split_once(" > ").ok_or("no function")?;
    let f = window(name)?;
    let outer = Walk::Grid(*grid);
    let walk = inner_walk(alloc, grid)?;
    let inner = gather(alloc, &mut exchange, asked, &walk)?;
    let kernel = SubqueryRows::new(alloc, f, AT_ONCE, Ms(20), Ms(5), &outer)?;
    let number = Small::new(alloc, SmallRule::Number(XFrac::NaN))?;
    let scalar = Node::Instants {
        kernel: number,
        none: StepBuffer::new(alloc),
    };
    let node = Node::Points {
        kernel,
        fed: None,
        inner: Box::new(alloc, inner)?,
        scalar: Box::new(alloc, scalar)?,
    };
    Ok(Grown { node, exchange })
}

/// What a gather gives at 10 milliseconds, at each instant, as `a rows`.
fn once(alloc: Global, mut exchange: Exchange, text: &str, grid: &Grid) -> Result<Grown, Fail>
    requires { IsNew exchange }
    ensures { IfOk result (λ g. IsGrown grid.now g.node g.exchange) }
{
    let first = Ms(10);
    let child = gather(alloc, &mut exchange, text, &Walk::Fixed(first))?;
    let node = Node::Once {
        first,
        steps: StepBuffer::new(alloc),
        child: Box::new(alloc, child)?,
    };
    Ok(Grown { node, exchange })
}

/// A tree of a kind.
fn tree_of(alloc: Global, exchange: Exchange, text: &str, grid: &Grid) -> Result<Grown, Fail>
    requires { IsNew exchange }
    ensures { IfOk result (λ g. IsGrown grid.now g.node g.exchange) }
{
    let (kind, rest) = text.split_once(" > ").ok_or("no kind of tree")?;
    match kind {
        "pair" => pair(alloc, exchange, rest, grid),
        "subquery" => subquery(alloc, exchange, rest, grid),
        "once" => once(alloc, exchange, rest, grid),
        _ => Err("no such kind of tree")?,
    }
}

/// A tree over the instants of a grid, which is fed up to so many of them at once, and whose pulls ask for up to so many steps.
pub fn planted(alloc: Global, text: &str, grid: &Grid, most: u32) -> Result<Tree, Fail>
    ensures { IfOk result (λ tree. (store : AllSeries) (kept : Kept) (es : List EngineSeen) → AreIdle es → IsReady store kept None es tree) }
{
    walks_are_listed();
    walks_keep_to_times();
    if most == 0 {
        return Err("a pull asks for nothing")?;
    }
    let Grown { node, exchange } = tree_of(alloc, Exchange::new(alloc, most), text, grid)?;
    Ok(Tree::over(
        alloc,
        node,
        Walk::Grid(*grid),
        most as usize,
        exchange,
        *grid,
    ))
}
