//! Loading: the samples of a script's series lines, put where they go to. Faults are passed on by `match`, since at `?` the checker
//! can't follow one that holds samples.
ghost use Rattle.test_runner.specs.Loads.{Filled, is_beyond, is_placed, items_put, left_by, left_by_all, line_put, line_slots, lines_put, run_slots, slot_put, slots_of, slots_put};
ghost use Rattle.test_runner.specs.Loading.{HasPut, MayPut};
ghost use Rattle.test_runner.specs.Parts.{HasGone};
ghost use Rattle.std.specs.Prelude.{◌≡◌, ◌≤◌, ◌<◌, ◌+◌, ◌^◌, [], ◌∷◌, pos, ◌*ℤ◌, Ok, Err, false, true, length, IfOk, IfSome, IsErr, MatchOption, MatchResult};
ghost use Rattle.xfrac.specs.Arithmetic.{arithmetic};

use crate::fault::{LoadRefusal, RunnerFault};
use crate::into::{Loaded, Target};
use crate::placing::is_placed;
use label_set::Labels;
use script_read::{Command, SeriesItem, SeriesLine, What};
use ticks::Ms;
use xfrac::{ArithOp, Held, XFrac, arith};

/// No sample's time is further from 0 than this, in milliseconds.
const TIME_LIMIT: u128 = 100_000_000_000_000;

/// The time of a place, counted from 0, unless it is beyond the limit.
fn time_of(place: u128, interval: Ms) -> Option<Ms>
    ensures { MatchOption result (is_beyond (pos place *ℤ interval.0) ≡ true)
        (λ at. (at.0 ≡ pos place *ℤ interval.0) × (is_beyond (pos place *ℤ interval.0) ≡ false)) }
{
    match place.checked_mul(u128::from(interval.0.unsigned_abs())) {
        Some(distance) if distance <= TIME_LIMIT => {
            let distance = distance as i64;
            Some(Ms(if interval.0 < 0 { -distance } else { distance }))
        }
        _ => None,
    }
}

fn out_of_range<T>(line: u32) -> Result<T, RunnerFault>
    ensures { result ≡ Err (RunnerFault.Range line) }
{
    Err(RunnerFault::Range(line))
}

fn unplaced(line: u32) -> Result<(), RunnerFault>
    ensures { result ≡ Err (RunnerFault.Refused (LoadRefusal.Unplaced line)) }
{
    Err(RunnerFault::Refused(LoadRefusal::Unplaced { line }))
}

/// How many samples items have, as far as a number below 2^32 tells.
fn samples_in(items: &[SeriesItem]) -> u32 {
    let mut count: u32 = 0;
    for item in items {
        let more = match item {
            SeriesItem::Gap(_) => 0,
            SeriesItem::Stale => 1,
            SeriesItem::Run { more, .. } => more.saturating_add(1),
        };
        count = count.saturating_add(more);
    }
    count
}

/// Puts the sample of a place.
fn put_sample<T: Loaded>(
    into: &mut T,
    target: Target<'_>,
    series: &mut Option<u32>,
    place: u128,
    held: &Held,
) -> Result<(), RunnerFault>
    requires may { MayPut T.judges (T.holds into.old target.declared.now) (slot_put target.line target.labels.now (pos place *ℤ target.interval.0) (Filled held.now)) }
    requires place { is_placed target.declared.now target.labels.now ≡ true }
    requires known { IfSome series.old (T.knows into.old target.declared.now target.labels.now) }
    ensures put { HasPut T.judges (T.holds into.old target.entry.declared.now) (T.holds into.new target.entry.declared.now) (slot_put target.entry.line target.entry.labels.now (pos place *ℤ target.entry.interval.0) (Filled held.now)) result }
    ensures known { IfSome series.new (T.knows into.new target.entry.declared.now target.entry.labels.now) }
    ensures gone { HasGone (length target.entry.declared.now) result (T.engines into.old) (T.engines into.new) }
    ensures names { T.names into.new ≡ T.names into.old }
{
    match time_of(place, target.interval) {
        Some(at) => into.put(target, series, at, held),
        None => out_of_range(target.line),
    }
}

/// The same, and answers the place behind it.
fn put_one<T: Loaded>(
    into: &mut T,
    target: Target<'_>,
    series: &mut Option<u32>,
    place: u128,
    held: &Held,
) -> Result<u128, RunnerFault>
    requires near { place < 2 ^ 101 }
    requires may { MayPut T.judges (T.holds into.old target.declared.now) (slots_put target.line target.labels.now target.interval place (Filled held.now ∷ [])) }
    requires place { is_placed target.declared.now target.labels.now ≡ true }
    requires known { IfSome series.old (T.knows into.old target.declared.now target.labels.now) }
    ensures put { HasPut T.judges (T.holds into.old target.entry.declared.now) (T.holds into.new target.entry.declared.now) (slots_put target.entry.line target.entry.labels.now target.entry.interval place (Filled held.now ∷ [])) result }
    ensures behind { IfOk result (λ next. next ≡ place + 1) }
    ensures known { IfSome series.new (T.knows into.new target.entry.declared.now target.entry.labels.now) }
    ensures gone { HasGone (length target.entry.declared.now) result (T.engines into.old) (T.engines into.new) }
    ensures names { T.names into.new ≡ T.names into.old }
{
    match put_sample(into, target, series, place, held) {
        Ok(()) => Ok(place + 1),
        Err(fault) => Err(fault),
    }
}

/// The value behind one of a run.
fn next_value(line: u32, value: &XFrac, by: &XFrac) -> Result<XFrac, RunnerFault>
    ensures { MatchResult result (λ next. arithmetic ArithOp.Add value.now by.now ≡ Ok next)
        (λ fault. IsErr (arithmetic ArithOp.Add value.now by.now) × (fault ≡ RunnerFault.Range line)) }
{
    match arith(ArithOp::Add, value, by) {
        Ok(next) => Ok(next),
        Err(_) => out_of_range(line),
    }
}

/// Puts the values of a run from a place on, and answers the place behind them.
fn put_run<T: Loaded>(
    into: &mut T,
    target: Target<'_>,
    series: &mut Option<u32>,
    start: u128,
    first: &XFrac,
    by: &XFrac,
    more: u32,
) -> Result<u128, RunnerFault>
    requires near { start < 2 ^ 100 }
    requires may { MayPut T.judges (T.holds into.old target.declared.now) (slots_put target.line target.labels.now target.interval start (run_slots more first.now by.now)) }
    requires place { is_placed target.declared.now target.labels.now ≡ true }
    requires known { IfSome series.old (T.knows into.old target.declared.now target.labels.now) }
    ensures put { HasPut T.judges (T.holds into.old target.entry.declared.now) (T.holds into.new target.entry.declared.now) (slots_put target.entry.line target.entry.labels.now target.entry.interval start (run_slots more first.now by.now)) result }
    ensures behind { IfOk result (λ next. next ≡ start + length (run_slots more first.now by.now)) }
    ensures near { IfOk result (λ next. next ≤ start + 2 ^ 32) }
    ensures known { IfSome series.new (T.knows into.new target.entry.declared.now target.entry.labels.now) }
    ensures gone { HasGone (length target.entry.declared.now) result (T.engines into.old) (T.engines into.new) }
    ensures names { T.names into.new ≡ T.names into.old }
{
    let mut place = start;
    let mut value = *first;
    for _ in 0..more {
        match put_sample(into, target, series, place, &Held::Value(value)) {
            Ok(()) => {}
            Err(fault) => return Err(fault),
        }
        match next_value(target.line, &value, by) {
            Ok(next) => value = next,
            Err(fault) => return Err(fault),
        }
        place += 1;
    }
    put_one(into, target, series, place, &Held::Value(value))
}

/// Puts the samples of an item from a place on, and answers the place behind it. Gaps are skipped in one step.
fn put_item<T: Loaded>(
    into: &mut T,
    target: Target<'_>,
    series: &mut Option<u32>,
    place: u128,
    item: &SeriesItem,
) -> Result<u128, RunnerFault>
    requires near { place < 2 ^ 100 }
    requires may { MayPut T.judges (T.holds into.old target.declared.now) (slots_put target.line target.labels.now target.interval place (slots_of item.now)) }
    requires place { is_placed target.declared.now target.labels.now ≡ true }
    requires known { IfSome series.old (T.knows into.old target.declared.now target.labels.now) }
    ensures put { HasPut T.judges (T.holds into.old target.entry.declared.now) (T.holds into.new target.entry.declared.now) (slots_put target.entry.line target.entry.labels.now target.entry.interval place (slots_of item.now)) result }
    ensures behind { IfOk result (λ next. next ≡ place + length (slots_of item.now)) }
    ensures near { IfOk result (λ next. next ≤ place + 2 ^ 32) }
    ensures known { IfSome series.new (T.knows into.new target.entry.declared.now target.entry.labels.now) }
    ensures gone { HasGone (length target.entry.declared.now) result (T.engines into.old) (T.engines into.new) }
    ensures names { T.names into.new ≡ T.names into.old }
{
    match item {
        SeriesItem::Gap(places) => Ok(place + u128::from(*places)),
        SeriesItem::Stale => put_one(into, target, series, place, &Held::Stale),
        SeriesItem::Run { first, by, more } => {
            put_run(into, target, series, place, first, by, *more)
        },
    }
}

/// Puts the samples of items.
fn put_items<T: Loaded>(
    into: &mut T,
    target: Target<'_>,
    items: &[SeriesItem],
) -> Result<(), RunnerFault>
    requires may { MayPut T.judges (T.holds into.old target.declared.now) (slots_put target.line target.labels.now target.interval 0 (line_slots items.now)) }
    requires place { is_placed target.declared.now target.labels.now ≡ true }
    ensures put { HasPut T.judges (T.holds into.old target.entry.declared.now) (T.holds into.new target.entry.declared.now) (slots_put target.entry.line target.entry.labels.now target.entry.interval 0 (line_slots items.now)) result }
    ensures gone { HasGone (length target.entry.declared.now) result (T.engines into.old) (T.engines into.new) }
    ensures names { T.names into.new ≡ T.names into.old }
{
    let mut series = None;
    let mut place = 0;
    for item in items {
        match put_item(into, target, &mut series, place, item) {
            Ok(next) => place = next,
            Err(fault) => return Err(fault),
        }
    }
    Ok(())
}

/// Puts the samples of a line.
fn put_series<T: Loaded>(
    into: &mut T,
    declared: &[Labels],
    interval: Ms,
    line: &SeriesLine,
) -> Result<(), RunnerFault>
    requires may { MayPut T.judges (T.holds into.old declared.now) (items_put interval line.now) }
    requires place { is_placed declared.now line.now.labels ≡ true }
    ensures put { HasPut T.judges (T.holds into.old declared.now) (T.holds into.new declared.now) (items_put interval line.now) result }
    ensures gone { HasGone (length declared.now) result (T.engines into.old) (T.engines into.new) }
    ensures names { T.names into.new ≡ T.names into.old }
{
    let items = line.items.as_slice();
    let target = Target {
        declared,
        line: line.line,
        labels: &line.labels,
        interval,
        room: samples_in(items).saturating_sub(1),
    };
    put_items(into, target, items)
}

/// The same, unless the line's series has no place.
fn put_line<T: Loaded>(
    into: &mut T,
    declared: &[Labels],
    interval: Ms,
    line: &SeriesLine,
) -> Result<(), RunnerFault>
    requires { MayPut T.judges (T.holds into.old declared.now) (line_put declared.now interval line.now) }
    ensures put { HasPut T.judges (T.holds into.old declared.now) (T.holds into.new declared.now) (line_put declared.now interval line.now) result }
    ensures gone { HasGone (length declared.now) result (T.engines into.old) (T.engines into.new) }
    ensures names { T.names into.new ≡ T.names into.old }
{
    if is_placed(declared, &line.labels) {
        put_series(into, declared, interval, line)
    } else {
        unplaced(line.line)
    }
}

/// Puts the samples of a load. After an error those before the refused one were put.
fn put_lines<T: Loaded>(
    into: &mut T,
    declared: &[Labels],
    interval: Ms,
    lines: &[SeriesLine],
) -> Result<(), RunnerFault>
    requires { MayPut T.judges (T.holds into.old declared.now) (lines_put declared.now interval lines.now) }
    ensures put { HasPut T.judges (T.holds into.old declared.now) (T.holds into.new declared.now) (lines_put declared.now interval lines.now) result }
    ensures gone { HasGone (length declared.now) result (T.engines into.old) (T.engines into.new) }
    ensures names { T.names into.new ≡ T.names into.old }
{
    for line in lines {
        match put_line(into, declared, interval, line) {
            Ok(()) => {}
            Err(fault) => return Err(fault),
        }
    }
    Ok(())
}

/// Clears or loads where a command says so, where engines have declared these labels.
pub(crate) fn change<T: Loaded>(
    into: &mut T,
    declared: &[Labels],
    what: &What,
) -> Result<(), RunnerFault>
    requires { MayPut T.judges (T.holds into.old declared.now) (left_by declared.now what.now) }
    ensures put { HasPut T.judges (T.holds into.old declared.now) (T.holds into.new declared.now) (left_by declared.now what.now) result }
    ensures gone { HasGone (length declared.now) result (T.engines into.old) (T.engines into.new) }
    ensures names { T.names into.new ≡ T.names into.old }
{
    match what {
        What::Clear => {
            into.clear(declared);
            Ok(())
        }
        What::Load { interval, lines } => put_lines(into, declared, *interval, lines.as_slice()),
        What::Eval { .. } => Ok(()),
    }
}

/// Clears and loads as commands say.
pub(crate) fn change_all<T: Loaded>(
    into: &mut T,
    declared: &[Labels],
    commands: &[Command],
) -> Result<(), RunnerFault>
    requires { MayPut T.judges (T.holds into.old declared.now) (left_by_all declared.now commands.now) }
    ensures put { HasPut T.judges (T.holds into.old declared.now) (T.holds into.new declared.now) (left_by_all declared.now commands.now) result }
    ensures gone { HasGone (length declared.now) result (T.engines into.old) (T.engines into.new) }
    ensures names { T.names into.new ≡ T.names into.old }
{
    for command in commands {
        match change(into, declared, &command.what) {
            Ok(()) => {}
            Err(fault) => return Err(fault),
        }
    }
    Ok(())
}
