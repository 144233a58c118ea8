//! An exchange of requests over two engines: what it lends is what both give, joined.
use crate::runs::told_of;
use crate::samples::{FIRST, SECOND};
use label_set::Items;
use remote_api::{Courier, Engine, InOrder, Listed, Turns};
use std::alloc::{AllocError, Global};
use std::test::Fail;
use written_engines::engine_of;

// The steps that are lent of each kind of cells at 0, 10 and 20. A row has the newest sample up to its instant, unless that is stale. A
// window has the samples of the last 15 milliseconds, without one at their beginning, and without stale ones. An aggregation is one of
// the rows of both engines; of `c` the sum of two values is too large, first of one engine, then of both.
const LINES: &str =
    "rows > a > 0 a,e=0,x=1:1;a,e=0,x=2:4 | 10 a,e=0,x=1:2;a,e=0,x=2:5;a,e=1,x=1:1/2;a,e=1,x=3:6 | 20 a,e=0,x=1:3;a,e=1,x=1:7;a,e=1,x=3:6
rows > b > 0 - | 10 - | 20 -
windows > a > 0 a,e=0,x=1 0=1;a,e=0,x=2 0=4 | 10 a,e=0,x=1 0=1 10=2;a,e=0,x=2 0=4 10=5;a,e=1,x=1 5=1/2;a,e=1,x=3 10=6 | 20 a,e=0,x=1 10=2 20=3;a,e=0,x=2 10=5;a,e=1,x=1 15=7;a,e=1,x=3 10=6
sum by x > a > 0 ,x=1:1;,x=2:4 | 10 ,x=1:5/2;,x=2:5;,x=3:6 | 20 ,x=1:10;,x=3:6
sum by > c > 0 -!O | 10 -!O | 20 :6
avg by > a > 0 :5/2 | 10 :27/8 | 20 :16/3
min by x > a > 0 ,x=1:1;,x=2:4 | 10 ,x=1:1/2;,x=2:5;,x=3:6 | 20 ,x=1:3;,x=3:6
max without e > a > 0 ,x=1:1;,x=2:4 | 10 ,x=1:2;,x=2:5;,x=3:6 | 20 ,x=1:7;,x=3:6
count by > a > 0 :2 | 10 :4 | 20 :3
group by x > a > 0 ,x=1:1;,x=2:1 | 10 ,x=1:1;,x=2:1;,x=3:1 | 20 ,x=1:1;,x=3:1";

const EMPTY: &str = "rows > a > 0 - | 10 - | 20 -";

/// Picks of a list, with numbers beyond the engines among them.
fn picks(alloc: Global) -> Result<Listed, AllocError> {
    let mut numbers = Items::new(alloc);
    for number in [1, 1, 0, 5, 0, 1] {
        numbers.push(number)?;
    }
    Ok(Listed::of(numbers))
}

/// Whether all steps of all lines are lent, by pulls of up to so many steps.
fn are_joined<C: Courier>(
    alloc: Global,
    engines: &mut [Box<dyn Engine>],
    most: u32,
    courier: &mut C,
) -> Result<bool, Fail> {
    let told = told_of(alloc, engines, most, courier, LINES, 10)?;
    Ok(told.as_str() == "3 > none")
}

/// The same whoever picks.
fn are_joined_by_all(
    alloc: Global,
    engines: &mut [Box<dyn Engine>],
    most: u32,
) -> Result<bool, Fail> {
    let in_order = are_joined(alloc, engines, most, &mut InOrder::new())?;
    let in_turns = are_joined(alloc, engines, most, &mut Turns::new())?;
    let listed = are_joined(alloc, engines, most, &mut picks(alloc)?)?;
    Ok(in_order && in_turns && listed)
}

/// Has an engine forget its asks and its samples.
fn empty(engine: &mut Box<dyn Engine>) {
    engine.begin();
    engine.clear();
}

/// Whether no row is lent once all engines are empty.
fn are_emptied(alloc: Global, engines: &mut [Box<dyn Engine>]) -> Result<bool, Fail> {
    for i in 0..engines.len() {
        empty(&mut engines[i]);
    }
    let told = told_of(alloc, engines, 3, &mut InOrder::new(), EMPTY, 1)?;
    Ok(told.as_str() == "3 > none")
}

#[test]
fn what_is_lent_is_joined_whoever_picks(rt: HostRuntime) -> Result<(), Fail> {
    let alloc = rt.alloc();
    let mut engines: Vec<Box<dyn Engine>> = Vec::new(alloc);
    engines.push(Box::new(alloc, engine_of(alloc, ",e=0", FIRST, '\n')?)?)?;
    engines.push(Box::new(alloc, engine_of(alloc, ",e=1", SECOND, '\n')?)?)?;
    for most in [1, 3, 64] {
        assert!(rt; are_joined_by_all(alloc, engines.as_mut_slice(), most)?);
    }
    assert!(rt; are_emptied(alloc, engines.as_mut_slice())?);
    Ok(())
}
