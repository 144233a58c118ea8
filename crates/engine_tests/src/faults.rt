//! What an exchange tells of an engine that fails or strays, and how many steps it lends before.
use crate::runs::told_of;
use crate::samples::{FIRST, SECOND};
use remote_api::{Engine, InOrder};
use std::alloc::Global;
use std::test::Fail;
use written_engines::{Faulty, engine_of};
use written_steps::line_that_differs;

const ROWS: &str =
    "rows > a > 0 a,e=0,x=1:1;a,e=0,x=2:4 | 10 a,e=0,x=1:2;a,e=0,x=2:5;a,e=1,x=1:1/2;a,e=1,x=3:6 | 20 a,e=0,x=1:3;a,e=1,x=1:7;a,e=1,x=3:6";

// Each line is up to how many steps a pull asks for, how many pulls of the second engine are as they ought to be, what it does then, how
// many of the three steps are lent, and the fault behind them. One pull of 64 gives all steps, so that none follows.
const LINES: &str = "1 > 0 > fails > 0 > EngineFault { engine: 1 }
1 > 2 > fails > 2 > EngineFault { engine: 1 }
64 > 1 > fails > 3 > none
1 > 1 > strays > 1 > OutOfStep { engine: 1, expected: Some(Ms(10)), got: Some(Ms(0)) }
3 > 0 > strays > 0 > OutOfStep { engine: 1, expected: Some(Ms(0)), got: Some(Ms(1)) }
3 > 1 > strays > 3 > none";

/// The second engine isn't as it ought to be behind some pulls.
fn holds(alloc: Global, line: &str) -> Result<bool, Fail> {
    let (most, rest) = line.split_once(" > ").ok_or("no size")?;
    let (good, rest) = rest.split_once(" > ").ok_or("no pulls")?;
    let (word, wanted) = rest.split_once(" > ").ok_or("no way")?;
    let second = engine_of(alloc, ",e=1", SECOND, '\n')?;
    let faulty = Faulty::new(alloc, second, good.parse()?, word == "fails");
    let mut engines: Vec<Box<dyn Engine>> = Vec::new(alloc);
    engines.push(Box::new(alloc, engine_of(alloc, ",e=0", FIRST, '\n')?)?)?;
    engines.push(Box::new(alloc, faulty)?)?;
    let told = told_of(
        alloc,
        engines.as_mut_slice(),
        most.parse()?,
        &mut InOrder::new(),
        ROWS,
        1,
    )?;
    Ok(told.as_str() == wanted)
}

#[test]
fn engines_that_fail_or_stray_are_told(rt: HostRuntime) -> Result<(), Fail> {
    let alloc = rt.alloc();
    let line = line_that_differs(LINES, |line| holds(alloc, line))?;
    assert_eq!(rt; line, "none");
    Ok(())
}
