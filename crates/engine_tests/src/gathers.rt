//! Gathers of an exchange over two engines, which go on together from instant to instant of a grid.
ghost use Rattle.engine_tests.specs.Going.{AreFitting, AreGoing, AreUnasked};
ghost use Rattle.std.specs.Prelude.{◌≡◌, ◌≤◌, ◌+◌, ◌∷◌, [], false, length, map, Option, Some, IfOk, OnOk};
ghost use Rattle.ticks.specs.Listed.{IsFirst, IsNext};
ghost use Rattle.ticks.specs.declared.moment.Ms.{Ms};
ghost use Rattle.ticks.specs.declared.walk.Walk.{Grid as Over};

use crate::asks::part;
use crate::lent::fields;
use exchange::{Exchange, RunFault};
use label_set::Items;
use match_rule::Patterns;
use remote_api::{Courier, Engine};
use std::alloc::{AllocError, Global};
use std::test::Fail;
use ticks::{Grid, Ms, Walk, WalkMoment, walks_are_listed, walks_keep_to_times};

/// The first instant of a grid.
pub fn first_of(grid: &Grid) -> Option<Ms>
    ensures { IsFirst (Over grid.now) result }
{
    Walk::Grid(*grid).first()
}

/// The instant of a grid behind a time.
fn next_of(grid: &Grid, at: Ms) -> Option<Ms>
    ensures { IsNext (Over grid.now) at.0 result }
{
    Walk::Grid(*grid).after(at)
}

fn begin(engine: &mut Box<dyn Engine>)
    ensures asks { (seen engine.new).asks ≡ [] }
    ensures going { (seen engine.new).spent ≡ false }
{
    engine.begin();
}

/// Has all engines forget their asks.
pub fn begin_all(engines: &mut [Box<dyn Engine>])
    ensures { AreUnasked (map (λ b. seen b) engines.new) }
{
    for i in 0..engines.len() {
        begin(&mut engines[i]);
    }
}

/// The numbers of both engines.
fn both(alloc: Global) -> Result<Items<u32>, AllocError>
    ensures { IfOk result (λ numbers. numbers ≡ 0 ∷ 1 ∷ []) }
{
    let mut numbers = Items::new(alloc);
    numbers.push(0)?;
    numbers.push(1)?;
    Ok(numbers)
}

/// An exchange without requests, whose pulls ask for up to so many steps, at least one.
fn exchange_of(alloc: Global, grid: &Grid, most: u32) -> Result<Exchange, Fail>
    ensures { IfOk result (AreFitting grid.now 0) }
{
    if most == 0 {
        return Err("a pull asks for nothing")?;
    }
    Ok(Exchange::new(alloc, most))
}

/// Adds the part of a line, which both engines are to be asked for, behind so many others.
fn add(
    alloc: Global,
    exchange: &mut Exchange,
    line: &str,
    grid: &Grid,
    count: usize,
) -> Result<(), Fail>
    requires { AreFitting grid.now count exchange.old }
    ensures { OnOk result (AreFitting grid.now (count + 1) exchange.new) }
{
    walks_keep_to_times();
    let moment = WalkMoment {
        fixed: None,
        offset: Ms(0),
        closed: false,
    };
    let (word, metric, _) = fields(line)?;
    let part = part(alloc, word, metric)?;
    let numbers = both(alloc)?;
    exchange.add(part, Walk::Grid(*grid), moment, Ms(15), numbers)?;
    Ok(())
}

/// Adds the part of each line, of which there are so many.
fn add_all(
    alloc: Global,
    exchange: &mut Exchange,
    lines: &str,
    grid: &Grid,
    count: usize,
) -> Result<(), Fail>
    requires { AreFitting grid.now 0 exchange.old }
    ensures { OnOk result (AreFitting grid.now count exchange.new) }
{
    let mut added = 0usize;
    for line in lines.split('\n') {
        if added >= count {
            return Err("there are more lines")?;
        }
        add(alloc, exchange, line, grid, added)?;
        added += 1;
    }
    if added != count {
        return Err("there are fewer lines")?;
    }
    Ok(())
}

/// Makes the asks of so many gathers.
fn open(
    exchange: &mut Exchange,
    grid: &Grid,
    count: usize,
    engines: &mut [Box<dyn Engine>],
    patterns: &mut Patterns<'_>,
) -> Result<(), Fail>
    requires fitting { AreFitting grid.now count exchange.old }
    requires unasked { AreUnasked (map (λ b. seen b) engines.old) }
    ensures { OnOk result ((first : Option Ms) → IsFirst (Over grid.now) first → AreGoing patterns.new (map (λ b. seen b) engines.new) exchange.new.places (Over grid.now) count 0 first first) }
{
    walks_are_listed();
    walks_keep_to_times();
    if engines.len() != 2 {
        return Err("there are not two engines")?;
    }
    exchange.open(grid, engines, patterns)?;
    Ok(())
}

/// An exchange of the parts of so many lines, whose asks are made.
pub fn opened(
    alloc: Global,
    grid: &Grid,
    most: u32,
    lines: &str,
    count: usize,
    engines: &mut [Box<dyn Engine>],
    patterns: &mut Patterns<'_>,
) -> Result<Exchange, Fail>
    requires { AreUnasked (map (λ b. seen b) engines.old) }
    ensures { IfOk result (λ x. (first : Option Ms) → IsFirst (Over grid.now) first → AreGoing patterns.new (map (λ b. seen b) engines.new) x.places (Over grid.now) count 0 first first) }
{
    let mut exchange = exchange_of(alloc, grid, most)?;
    add_all(alloc, &mut exchange, lines, grid, count)?;
    open(&mut exchange, grid, count, engines, patterns)?;
    Ok(exchange)
}

/// Takes the step of each of so many gathers at an instant, and answers the instant behind it.
pub fn go_on<C: Courier>(
    exchange: &mut Exchange,
    count: usize,
    engines: &mut [Box<dyn Engine>],
    patterns: &mut Patterns<'_>,
    courier: &mut C,
    grid: &Grid,
    at: Ms,
) -> Result<Option<Ms>, RunFault>
    requires { AreGoing patterns.old (map (λ b. seen b) engines.old) exchange.old.places (Over grid.now) count 0 (Some at) (Some at) }
    ensures going { IfOk result (λ next. AreGoing patterns.new (map (λ b. seen b) engines.new) exchange.new.places (Over grid.now) count 0 next next) }
    ensures many { IfOk result (λ _. count ≤ length exchange.new.places) }
{
    walks_are_listed();
    let next = next_of(grid, at);
    for k in 0..count {
        exchange.advance(k, engines, patterns, courier)?;
    }
    Ok(next)
}
