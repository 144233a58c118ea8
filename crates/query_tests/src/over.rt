//! Texts of queries over engines, and what comes of each: whoever is pulled next, and however many instants are computed at once.
ghost use Rattle.query_engine.specs.Batches.{IsBatch};
ghost use Rattle.std.specs.Prelude.{◌≡◌, ◌≤◌, ◌<◌, ◌^◌, IfOk, length};

mod rows;

use crate::results::{grid, labels, load, options_of, outcome_text};
use exchange::RunFault;
use label_set::{Items, Labels, Text};
use promql_meaning::Outcome;
use query_engine::evaluate;
use remote_api::{Courier, Engine, InOrder, Listed, Turns};
use sample_store::Store;
use std::alloc::{AllocError, Global};
use std::marker::Brand;
use std::sync::ledger::{Blank, Ledger};
use std::test::Fail;
use ticks::{Grid, Work};
use written_engines::{Faulty, engine_of};

/// What is asked: a text, its instants, whether it is an instant, and how many instants are computed at once.
#[derive(Drop)]
struct Asked<'a> {
    text: &'a str,
    when: (Grid, bool),
    batch: u32,
}

/// What is asked comes to this over the engines that are declared, with a store that isn't theirs.
fn counted<C: Courier, W: Ledger>(
    alloc: Global,
    asked: &Asked<'_>,
    store: &Store,
    engines: &mut Vec<Box<dyn Engine>>,
    declared: &mut Items<Labels>,
    courier: &mut C,
    blank: Blank,
) -> Result<Outcome, RunFault>
    requires batch { IsBatch asked.now.batch }
    requires few { length engines.old.items < 2 ^ 32 }
    requires boxes { length declared.old ≤ length engines.old.items }
    requires name { blank.name ≡ W.name }
    requires parts { blank.parts ≡ W.parts }
    requires three { blank.parts ≡ 3 }
{
    let mut work = Work::<W>::new(blank);
    evaluate(
        alloc,
        asked.text,
        &asked.when.0,
        asked.when.1,
        &options_of(asked.batch),
        store,
        engines,
        declared,
        courier,
        &mut work,
    )
}

/// What is asked comes to, as text, or the fault that is told.
fn told<C: Courier>(
    alloc: Global,
    asked: &Asked<'_>,
    engines: &mut Vec<Box<dyn Engine>>,
    declared: &mut Items<Labels>,
    courier: &mut C,
) -> Result<Vec<u8>, Fail>
    requires batch { IsBatch asked.now.batch }
{
    let mut store = Store::new(alloc);
    load(alloc, &mut store, "x,region=none:60:7/7/7")?;
    let many = engines.len();
    if many > 9 || declared.as_slice().len() > many {
        return Err(Fail::new("more engines are declared than there are"));
    }
    match counted::<C, Brand>(
        alloc,
        asked,
        &store,
        engines,
        declared,
        courier,
        Blank::new(3),
    ) {
        Ok(outcome) => Ok(outcome_text(alloc, &outcome)?),
        Err(fault) => fault_text(alloc, &fault),
    }
}

fn fault_text(alloc: Global, fault: &RunFault) -> Result<Vec<u8>, Fail> {
    let mut text = Vec::new(alloc);
    text.extend_from_slice(format!(in alloc; "{fault:?}")?.as_bytes())?;
    Ok(text)
}

/// Picks of a list, with numbers beyond the engines among them.
fn picks(alloc: Global) -> Result<Listed, AllocError> {
    let mut numbers = Items::new(alloc);
    for number in [1, 1, 0, 5, 0, 1, 3, 2] {
        numbers.push(number)?;
    }
    Ok(Listed::of(numbers))
}

// ---- engines that do what they are asked

/// What a row asks, in batches of so many instants, and what is wanted.
fn row_of<'a>(line: &'a str, batch: u32) -> Result<(Asked<'a>, &'a str), Fail>
    ensures { IfOk result (λ row. row.0.batch ≡ batch) }
{
    let mut parts = line.split(" ; ");
    let when = grid(parts.next().ok_or("no time")?)?;
    let text = parts.next().ok_or("no query")?;
    let wanted = parts.next().ok_or("no outcome")?;
    Ok((Asked { text, when, batch }, wanted))
}

/// Whether a row comes to what is wanted in batches of so many instants, whoever picks.
fn holds_by(
    alloc: Global,
    engines: &mut Vec<Box<dyn Engine>>,
    declared: &mut Items<Labels>,
    line: &str,
    batch: u32,
) -> Result<bool, Fail>
    requires { IsBatch batch }
{
    let (asked, wanted) = row_of(line, batch)?;
    let in_order = told(alloc, &asked, engines, declared, &mut InOrder::new())?;
    let in_turns = told(alloc, &asked, engines, declared, &mut Turns::new())?;
    let listed = told(alloc, &asked, engines, declared, &mut picks(alloc)?)?;
    let wanted = wanted.as_bytes();
    Ok(
        in_order.as_slice() == wanted
            && in_turns.as_slice() == wanted
            && listed.as_slice() == wanted,
    )
}

/// Whether it does so at once, instant by instant, and by threes. All are asked of the same boxes, one after another.
fn holds(
    alloc: Global,
    engines: &mut Vec<Box<dyn Engine>>,
    declared: &mut Items<Labels>,
    line: &str,
) -> Result<bool, Fail> {
    Ok(
        holds_by(alloc, engines, declared, line, 64)?
            && holds_by(alloc, engines, declared, line, 1)?
            && holds_by(alloc, engines, declared, line, 3)?,
    )
}

/// The engines of a text, one a line: the labels that are declared to it, and its series.
fn engines_of(
    alloc: Global,
    text: &str,
    declared: &mut Items<Labels>,
) -> Result<Vec<Box<dyn Engine>>, Fail> {
    let mut engines: Vec<Box<dyn Engine>> = Vec::new(alloc);
    for line in text.lines() {
        let (names, series) = line.split_once(" > ").ok_or("no labels")?;
        declared.push(labels(alloc, names)?)?;
        engines.push(Box::new(alloc, engine_of(alloc, names, series, '|')?)?)?;
    }
    Ok(engines)
}

/// That each row holds over the engines of a text.
fn hold(alloc: Global, text: &str, lines: &str) -> Result<(), Fail> {
    let mut declared = Items::new(alloc);
    let mut engines = engines_of(alloc, text, &mut declared)?;
    for line in lines.lines() {
        if !holds(alloc, &mut engines, &mut declared, line)? {
            return Err(Fail::new(line));
        }
    }
    Ok(())
}

#[test]
fn texts_come_to_over_two_engines(rt: HostRuntime) -> Result<(), Fail> {
    assert_eq!(rt; rows::OVER_TWO.lines().count(), 32);
    hold(rt.alloc(), rows::TWO, rows::OVER_TWO)
}

#[test]
fn texts_come_to_over_four_engines(rt: HostRuntime) -> Result<(), Fail> {
    assert_eq!(rt; rows::OVER_FOUR.lines().count(), 20);
    hold(rt.alloc(), rows::FOUR, rows::OVER_FOUR)
}

// ---- one that doesn't

/// An engine that isn't as it ought to be: its place, how many pulls are, and whether it fails then or strays.
#[derive(Clone, Copy)]
struct Wrong {
    place: usize,
    good: u32,
    fails: bool,
}

/// The engines of a text, of which one isn't as it ought to be.
fn wrong_engines(
    alloc: Global,
    text: &str,
    wrong: Wrong,
    declared: &mut Items<Labels>,
) -> Result<Vec<Box<dyn Engine>>, Fail> {
    let mut engines: Vec<Box<dyn Engine>> = Vec::new(alloc);
    for line in text.lines() {
        let (names, series) = line.split_once(" > ").ok_or("no labels")?;
        declared.push(labels(alloc, names)?)?;
        let engine = engine_of(alloc, names, series, '|')?;
        if engines.len() == wrong.place {
            let faulty = Faulty::new(alloc, engine, wrong.good, wrong.fails);
            engines.push(Box::new(alloc, faulty)?)?;
        } else {
            engines.push(Box::new(alloc, engine)?)?;
        }
    }
    Ok(engines)
}

/// The labels that are declared to the engine at a place of a text.
fn names_at(alloc: Global, text: &str, place: usize) -> Result<Labels, Fail> {
    let line = text.lines().nth(place).ok_or("no engine")?;
    let (names, _) = line.split_once(" > ").ok_or("no labels")?;
    labels(alloc, names)
}

/// What is asked comes to three times: at first, over what is left then, and with the lost engine declared again.
fn told_thrice<C: Courier>(
    alloc: Global,
    text: &str,
    wrong: Wrong,
    asked: &Asked<'_>,
    courier: &mut C,
) -> Result<Vec<u8>, Fail>
    requires { IsBatch asked.now.batch }
{
    let mut declared = Items::new(alloc);
    let mut engines = wrong_engines(alloc, text, wrong, &mut declared)?;
    let mut all = told(alloc, asked, &mut engines, &mut declared, courier)?;
    all.extend_from_slice(b" ; ")?;
    let left = told(alloc, asked, &mut engines, &mut declared, courier)?;
    all.extend_from_slice(left.as_slice())?;
    all.extend_from_slice(b" ; ")?;
    declared.push(names_at(alloc, text, wrong.place)?)?;
    let again = told(alloc, asked, &mut engines, &mut declared, courier)?;
    all.extend_from_slice(again.as_slice())?;
    Ok(all)
}

/// Which engine a row has go wrong, and the rest of it.
fn wrong_of(line: &str) -> Result<(Wrong, &str), Fail> {
    let (place, rest) = line.split_once(" ; ").ok_or("no place")?;
    let (good, rest) = rest.split_once(" ; ").ok_or("no pulls")?;
    let (way, rest) = rest.split_once(" ; ").ok_or("no way")?;
    let place: u32 = place.parse()?;
    let good: u32 = good.parse()?;
    let wrong = Wrong {
        place: place as usize,
        good,
        fails: way == "fails",
    };
    Ok((wrong, rest))
}

/// What a row asks instant by instant, and what is wanted.
fn asked_of(line: &str) -> Result<(Asked<'_>, &str), Fail>
    ensures { IfOk result (λ row. row.0.batch ≡ 1) }
{
    let (when, rest) = line.split_once(" ; ").ok_or("no time")?;
    let (text, wanted) = rest.split_once(" ; ").ok_or("no query")?;
    let when = grid(when)?;
    let asked = Asked {
        text,
        when,
        batch: 1,
    };
    Ok((asked, wanted))
}

/// Whether a row of an engine that goes wrong is so, whoever picks.
fn is_lost(alloc: Global, text: &str, line: &str) -> Result<bool, Fail> {
    let (wrong, rest) = wrong_of(line)?;
    let (asked, wanted) = asked_of(rest)?;
    let in_order = told_thrice(alloc, text, wrong, &asked, &mut InOrder::new())?;
    let in_turns = told_thrice(alloc, text, wrong, &asked, &mut Turns::new())?;
    let listed = told_thrice(alloc, text, wrong, &asked, &mut picks(alloc)?)?;
    let wanted = wanted.as_bytes();
    Ok(
        in_order.as_slice() == wanted
            && in_turns.as_slice() == wanted
            && listed.as_slice() == wanted,
    )
}

/// That each row of an engine that goes wrong is so among the engines of a text.
fn are_lost(alloc: Global, text: &str, lines: &str) -> Result<(), Fail> {
    for line in lines.lines() {
        if !is_lost(alloc, text, line)? {
            return Err(Fail::new(line));
        }
    }
    Ok(())
}

#[test]
fn engines_that_fail_or_stray_are_lost(rt: HostRuntime) -> Result<(), Fail> {
    assert_eq!(rt; rows::LOST_OF_ONE.lines().count(), 2);
    assert_eq!(rt; rows::LOST_OF_THREE.lines().count(), 8);
    are_lost(rt.alloc(), rows::ONE, rows::LOST_OF_ONE)?;
    are_lost(rt.alloc(), rows::THREE, rows::LOST_OF_THREE)
}
