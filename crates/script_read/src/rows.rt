//! The lines of a result: a scalar, or a series with one number or with its items.
ghost use Rattle.script_read.specs.Outcomes.{Appends, Says};
ghost use Rattle.script_read.specs.Moments.{FitsGrid, point_at};
ghost use Rattle.ticks.specs.Moments.{moments_in, places};
ghost use Rattle.script_read.specs.Results.{AddsPoints, TakesPlaces, begins_series, cell_spelled, cells_spelled, instant_points, next_value, number_alone, places_of, points_from, points_of, range_points, run_points, total_places};
ghost use Rattle.std.specs.Prelude.{◌≡◌, ◌<◌, ◌≤◌, ◌+◌, ◌^◌, IfOk, false, true, map};

use crate::fault::LineFault;
use crate::item::read_item;
use crate::line::words_behind;
use crate::script::SeriesItem;
use crate::word::{is_word, read_number, split_name, starts_name};
use label_set::Items;
use promql_meaning::Point;
use std::alloc::Global;
use ticks::{Grid, Ms};
use xfrac::{ArithOp, XFrac, arith};

/// Whether a line begins with a series, and not with a number: `Inf` and `NaN` are numbers.
pub fn begins_series(text: &[u8]) -> bool
    ensures { result ≡ begins_series text.now }
{
    let [first, ..] = text else {
        return false;
    };
    if *first == b'{' {
        return true;
    }
    let name = split_name(text).0;
    starts_name(*first) && !is_word(name, b"inf") && !is_word(name, b"nan")
}

/// The number that words are: one, and no more.
pub fn number_alone(words: &[&[u8]]) -> Result<XFrac, LineFault>
    ensures { result ≡ number_alone (map (λ word. word.now) words.now) }
{
    match words {
        [] => Err(LineFault::Malformed),
        [word] => read_number(word),
        [word, _, ..] => match read_number(word) {
            Ok(_) => Err(LineFault::Malformed),
            Err(fault) => Err(fault),
        },
    }
}

/// An item of a result, and how many places are left behind it. A marker of staleness stands in no result.
fn read_cell(room: u32, word: &[u8]) -> Result<(SeriesItem, u32), LineFault>
    ensures { result ≡ cell_spelled room word.now }
{
    match read_item(word)? {
        SeriesItem::Stale => Err(LineFault::Malformed),
        SeriesItem::Gap(places) => {
            if places <= room {
                Ok((SeriesItem::Gap(places), room - places))
            } else {
                Err(LineFault::Malformed)
            }
        }
        SeriesItem::Run { first, by, more } => {
            if more < room {
                Ok((SeriesItem::Run { first, by, more }, room - more - 1))
            } else {
                Err(LineFault::Malformed)
            }
        }
    }
}

/// The items of a result on so many places: one or more, without markers of staleness.
fn read_cells(alloc: Global, steps: u32, words: &[&[u8]]) -> Result<Items<SeriesItem>, LineFault>
    ensures said { Says result (cells_spelled steps (map (λ word. word.now) words.now)) }
    ensures within { IfOk result (λ cells. total_places cells ≤ steps) }
{
    // The toolchain's borrow checker is told of the numbers in items where their type is named.
    let _none: Option<XFrac> = None;
    if words.is_empty() {
        return Err(LineFault::Malformed);
    }
    let mut cells = Items::new(alloc);
    let mut room = steps;
    for word in words {
        let (cell, left) = read_cell(room, word)?;
        cells.push(cell)?;
        room = left;
    }
    Ok(cells)
}

/// The instant of a place of a grid, counted from 0.
fn instant_at(grid: &Grid, place: u32) -> Ms
    requires { FitsGrid (moments_in grid.now false) place }
    ensures { result ≡ point_at (moments_in grid.now false) place }
{
    Ms(grid.start.0 + i64::from(place) * grid.step.0)
}

/// The value behind one of a run.
fn next_value(value: &XFrac, by: &XFrac) -> Result<XFrac, LineFault>
    ensures { result ≡ next_value value.now by.now }
{
    match arith(ArithOp::Add, value, by) {
        Ok(next) => Ok(next),
        Err(_) => Err(LineFault::NumberRange),
    }
}

/// Adds the points of a run from a place on.
fn add_run(
    points: &mut Items<Point>,
    grid: &Grid,
    place: u32,
    first: &XFrac,
    by: &XFrac,
    more: u32,
) -> Result<(), LineFault>
    requires { FitsGrid (moments_in grid.now false) (place + more) }
    ensures { Appends result points.old points.new (run_points (moments_in grid.now false) place more first.now by.now) }
{
    let mut value = *first;
    for done in 0..more {
        points.push(Point {
            at: instant_at(grid, place + done),
            value,
        })?;
        value = next_value(&value, by)?;
    }
    points.push(Point {
        at: instant_at(grid, place + more),
        value,
    })?;
    Ok(())
}

/// Adds the points of an item from a place on, and answers the place behind it.
fn add_item(
    points: &mut Items<Point>,
    grid: &Grid,
    place: u32,
    item: &SeriesItem,
) -> Result<u32, LineFault>
    requires { TakesPlaces (moments_in grid.now false) place item.now }
    ensures added { AddsPoints (moments_in grid.now false) place item.now points.old points.new result }
    ensures within { IfOk result (λ next. next ≡ place + places_of item.now) }
{
    match item {
        SeriesItem::Stale => Err(LineFault::Malformed),
        SeriesItem::Gap(places) => Ok(place + *places),
        SeriesItem::Run { first, by, more } => {
            add_run(points, grid, place, first, by, *more)?;
            Ok(place + *more + 1)
        }
    }
}

/// The points of items on a grid. `NumberRange` comes where a value of a run is outside the limits.
fn points_of(alloc: Global, grid: &Grid, cells: &[SeriesItem]) -> Result<Items<Point>, LineFault>
    requires { total_places cells.now ≤ places (moments_in grid.now false) }
    ensures { Says result (points_of (moments_in grid.now false) cells.now) }
{
    let mut points = Items::new(alloc);
    let mut place = 0;
    for cell in cells {
        place = add_item(&mut points, grid, place, cell)?;
    }
    Ok(points)
}

/// The points of the words behind a series in a result of a range: items that take no more places than the grid has.
pub fn range_points(alloc: Global, grid: &Grid, behind: &[u8]) -> Result<Items<Point>, LineFault>
    ensures { Says result (range_points (moments_in grid.now false) behind.now) }
{
    let words = words_behind(alloc, behind)?;
    let cells = read_cells(alloc, grid.steps(), &words)?;
    points_of(alloc, grid, cells.as_slice())
}

/// The point of the words behind a series in a result of an instant: one number.
pub fn instant_points(alloc: Global, grid: &Grid, behind: &[u8]) -> Result<Items<Point>, LineFault>
    ensures { Says result (instant_points (moments_in grid.now true) behind.now) }
{
    let words = words_behind(alloc, behind)?;
    let value = number_alone(&words)?;
    let mut points = Items::new(alloc);
    points.push(Point {
        at: grid.start,
        value,
    })?;
    Ok(points)
}
