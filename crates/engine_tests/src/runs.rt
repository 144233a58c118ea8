//! Runs over two engines from the first instant of a grid to the last.
ghost use Rattle.engine_tests.specs.Going.{AreGoing};
ghost use Rattle.std.specs.Prelude.{map, Option};
ghost use Rattle.ticks.specs.Listed.{IsFirst};
ghost use Rattle.ticks.specs.declared.moment.Ms.{Ms};
ghost use Rattle.ticks.specs.declared.walk.Walk.{Grid as Over};

use crate::gathers::{begin_all, first_of, go_on, opened};
use crate::lent::are_wanted;
use exchange::Exchange;
use match_rule::{PatternRoom, Patterns};
use remote_api::{Courier, Engine};
use std::alloc::Global;
use std::test::Fail;
use ticks::{Grid, Ms};

/// How many steps are lent, and the fault behind them, as text; it fails at a step that isn't lent as its line has it.
fn told<C: Courier>(
    alloc: Global,
    exchange: &mut Exchange,
    lines: &str,
    count: usize,
    engines: &mut [Box<dyn Engine>],
    patterns: &mut Patterns<'_>,
    courier: &mut C,
    grid: &Grid,
) -> Result<String, Fail>
    requires { (first : Option Ms) → IsFirst (Over grid.now) first → AreGoing patterns.old (map (λ b. seen b) engines.old) exchange.old.places (Over grid.now) count 0 first first }
{
    let mut next = first_of(grid);
    for lent in 0..20 {
        let Some(at) = next else {
            return Ok(format!(in alloc; "{lent} > none")?);
        };
        next = match go_on(exchange, count, engines, patterns, courier, grid, at) {
            Ok(behind) => behind,
            Err(fault) => return Ok(format!(in alloc; "{lent} > {fault:?}")?),
        };
        are_wanted(alloc, exchange, lines, count, lent)?;
    }
    Err("there are more steps")?
}

/// The same from the first instant on: a gather for each of so many lines, at the instants 0, 10 and 20, by pulls of up to so many
/// steps.
pub fn told_of<C: Courier>(
    alloc: Global,
    engines: &mut [Box<dyn Engine>],
    most: u32,
    courier: &mut C,
    lines: &str,
    count: usize,
) -> Result<String, Fail> {
    begin_all(engines);
    let grid = Grid::of(Ms(0), Ms(20), Ms(10))?;
    let mut room = PatternRoom::new(alloc)?;
    let mut patterns = Patterns::new(alloc, &mut room);
    let mut exchange = opened(alloc, &grid, most, lines, count, engines, &mut patterns)?;
    told(
        alloc,
        &mut exchange,
        lines,
        count,
        engines,
        &mut patterns,
        courier,
        &grid,
    )
}
