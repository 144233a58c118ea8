//! What trees over two engines lend, turn by turn.
ghost use Rattle.op_labels.specs.Rules.{Kept};
ghost use Rattle.plan_tree.specs.Chains.{IsReady};
ghost use Rattle.sample_store.specs.Samples.{AllSeries};
ghost use Rattle.std.specs.Prelude.{◌≡◌, None, map};

use crate::gathers::begin_both;
use crate::samples::engine_of;
use crate::trees::planted;
use label_set::Items;
use match_rule::{PatternRoom, Patterns};
use plan_tree::Tree;
use remote_api::{Courier, Engine, InOrder, Listed, Turns};
use sample_store::Store;
use std::alloc::{AllocError, Global};
use std::marker::Brand;
use std::sync::ledger::{Blank, Ledger};
use std::test::Fail;
use step_table::Step;
use ticks::{Grid, Ms, Work};
use written_steps::{are_lent, line_that_differs, parted, steps};

const FIRST: &str = "a,e=0,x=1 0=1 10=2 20=3
b,e=0,x=1 0=100 10=200 20=300
b,e=0,x=3 10=5";

const SECOND: &str = "a,e=1,x=1 0=10 10=20 20=30
a,e=1,x=2 10=7
b,e=1,x=1 0=1000 10=2000 20=stale";

// Two gathers at the instants 0, 10 and 20. A sample is the newest one until another comes, or `stale`.
const PAIRS: &str =
    "pair > + > a rows > b rows > 0 ,e=0,x=1:101;,e=1,x=1:1010 | 10 ,e=0,x=1:202;,e=1,x=1:2020 | 20 ,e=0,x=1:303
pair > - > a max by e,x > b rows > 0 ,e=0,x=1:-99;,e=1,x=1:-990 | 10 ,e=0,x=1:-198;,e=1,x=1:-1980 | 20 ,e=0,x=1:-297
pair > + > a sum by x > b sum by x > 0 ,x=1:1111 | 10 ,x=1:2222 | 20 ,x=1:333
pair > or > a rows > b rows > 0 a,e=0,x=1:1;a,e=1,x=1:10 | 10 a,e=0,x=1:2;a,e=1,x=1:20;a,e=1,x=2:7;b,e=0,x=3:5 | 20 a,e=0,x=1:3;a,e=1,x=1:30;a,e=1,x=2:7;b,e=0,x=3:5
pair > unless > a rows > b rows > 0 - | 10 a,e=1,x=2:7 | 20 a,e=1,x=1:30;a,e=1,x=2:7
pair > and > a count by x > b sum by x > 0 ,x=1:2 | 10 ,x=1:2 | 20 ,x=1:2";

// A gather at the instants from -15 on by 5 milliseconds, and functions of its values in the last 20: at 0 that of 0 alone, at 10 those of
// 0, 5 and 10, at 20 those of 5, 10, 15 and 20.
const SUBQUERIES: &str =
    "subquery > sum_over_time > a rows > 0 ,e=0,x=1:1;,e=1,x=1:10 | 10 ,e=0,x=1:4;,e=1,x=1:40;,e=1,x=2:7 | 20 ,e=0,x=1:8;,e=1,x=1:80;,e=1,x=2:21
subquery > count_over_time > b rows > 0 ,e=0,x=1:1;,e=1,x=1:1 | 10 ,e=0,x=1:3;,e=0,x=3:1;,e=1,x=1:3 | 20 ,e=0,x=1:4;,e=0,x=3:3;,e=1,x=1:3
subquery > sum_over_time > a sum by x > 0 ,x=1:11 | 10 ,x=1:44;,x=2:7 | 20 ,x=1:88;,x=2:21
subquery > max_over_time > b sum by x > 0 ,x=1:1100 | 10 ,x=1:2200;,x=3:5 | 20 ,x=1:2200;,x=3:5";

// A gather at 10 alone.
const ONCES: &str =
    "once > a rows > 0 a,e=0,x=1:2;a,e=1,x=1:20;a,e=1,x=2:7 | 10 a,e=0,x=1:2;a,e=1,x=1:20;a,e=1,x=2:7 | 20 a,e=0,x=1:2;a,e=1,x=1:20;a,e=1,x=2:7
once > b sum by x > 0 ,x=1:2200;,x=3:5 | 10 ,x=1:2200;,x=3:5 | 20 ,x=1:2200;,x=3:5
once > b count by e > 0 ,e=0:2;,e=1:1 | 10 ,e=0:2;,e=1:1 | 20 ,e=0:2;,e=1:1";

/// Whether a tree lends these steps, one turn after another, and none behind them.
fn lends<C: Courier, W: Ledger>(
    alloc: Global,
    mut tree: Tree,
    engines: &mut [Box<dyn Engine>],
    courier: &mut C,
    wanted: &[(Ms, Step)],
    blank: Blank,
) -> Result<bool, Fail>
    requires ready { (store : AllSeries) (kept : Kept) → IsReady store kept None (map (λ b. seen b) engines.old) tree }
    requires name { blank.name ≡ W.name }
    requires parts { blank.parts ≡ W.parts }
    requires three { blank.parts ≡ 3 }
{
    let store = Store::new(alloc);
    let mut room = PatternRoom::new(alloc)?;
    let mut patterns = Patterns::new(alloc, &mut room);
    let mut work = Work::<W>::new(blank);
    let mut left = wanted;
    for _ in 0..20 {
        if !tree.step(&store, engines, &mut patterns, courier, &mut work)? {
            return Ok(left.is_empty());
        }
        let lent = tree.lend();
        let (these, others) = parted(left, lent.len());
        if these.is_empty() || !are_lent(&lent, these) {
            return Ok(false);
        }
        left = others;
    }
    Ok(false)
}

/// Whether the tree of a text lends these steps over the instants 0, 10 and 20, with up to so many steps a pull and instants a turn.
fn gives<C: Courier>(
    alloc: Global,
    text: &str,
    most: u32,
    engines: &mut [Box<dyn Engine>],
    courier: &mut C,
    wanted: &[(Ms, Step)],
) -> Result<bool, Fail> {
    begin_both(engines)?;
    let grid = Grid::of(Ms(0), Ms(20), Ms(10))?;
    let tree = planted(alloc, text, &grid, most)?;
    lends::<C, Brand>(alloc, tree, engines, courier, wanted, Blank::new(3))
}

/// Picks of a list, with numbers beyond the engines among them.
fn picks(alloc: Global) -> Result<Listed, AllocError> {
    let mut numbers = Items::new(alloc);
    for number in [1, 1, 0, 5, 0, 1] {
        numbers.push(number)?;
    }
    Ok(Listed::of(numbers))
}

/// Whether it does so whoever picks.
fn gives_by_all(
    alloc: Global,
    text: &str,
    most: u32,
    engines: &mut [Box<dyn Engine>],
    wanted: &[(Ms, Step)],
) -> Result<bool, Fail> {
    Ok(
        gives(alloc, text, most, engines, &mut InOrder::new(), wanted)?
            && gives(alloc, text, most, engines, &mut Turns::new(), wanted)?
            && gives(alloc, text, most, engines, &mut picks(alloc)?, wanted)?,
    )
}

/// A tree, and behind it the steps that it is to lend.
fn holds(alloc: Global, line: &str) -> Result<bool, Fail> {
    let mut halves = line.rsplitn(2, " > ");
    let wanted = steps(alloc, halves.next().ok_or("no steps")?)?;
    let text = halves.next().ok_or("no tree")?;
    let mut engines: Vec<Box<dyn Engine>> = Vec::new(alloc);
    engines.push(Box::new(alloc, engine_of(alloc, ",e=0", FIRST)?)?)?;
    engines.push(Box::new(alloc, engine_of(alloc, ",e=1", SECOND)?)?)?;
    for most in [1, 3, 64] {
        if !gives_by_all(alloc, text, most, engines.as_mut_slice(), wanted.as_slice())? {
            return Ok(false);
        }
    }
    Ok(true)
}

#[test]
fn two_gathers_stand_beside_each_other(rt: HostRuntime) -> Result<(), Fail> {
    let alloc = rt.alloc();
    let line = line_that_differs(PAIRS, |line| holds(alloc, line))?;
    assert_eq!(rt; line, "none");
    Ok(())
}

#[test]
fn a_gather_stands_inside_a_subquery(rt: HostRuntime) -> Result<(), Fail> {
    let alloc = rt.alloc();
    let line = line_that_differs(SUBQUERIES, |line| holds(alloc, line))?;
    assert_eq!(rt; line, "none");
    Ok(())
}

#[test]
fn a_gather_stands_below_a_once_node(rt: HostRuntime) -> Result<(), Fail> {
    let alloc = rt.alloc();
    let line = line_that_differs(ONCES, |line| holds(alloc, line))?;
    assert_eq!(rt; line, "none");
    Ok(())
}
