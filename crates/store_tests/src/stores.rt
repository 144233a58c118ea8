//! Calls on one store after another.
ghost use Rattle.std.specs.Prelude.{◌≡◌};

use crate::rows::{field, text_is};
use holders::{Items, Text};
use label_set::{LabelRefusal, Labels, Rule, RuleKind};
use match_rule::{PatternRoom, Patterns};
use sample_store::{Cursor, Store, StoreRefusal};
use std::alloc::{AllocError, Global};
use std::marker::Brand;
use std::sync::ledger::{Blank, Ledger};
use std::test::Fail;
use ticks::{Ms, Work};
use xfrac::{Held, XFrac, whole};

// Each line is a call and its answer: what comes of a sample, the numbers that are selected, or a cursor's place with the
// times behind it. Told by hand from the rules of Prometheus on series and staleness.
const SAMPLES: &str = "put up 600000 1=taken
put up 0 1=taken
put up 300000 NaN=taken
put up 300000 NaN=taken
put up 900000 stale=taken
put up 0 2=conflict
put up 0 stale=conflict
put up 900000 stale=taken
put down 420000 2=taken
put idle -5 2=taken
later 0 -1=0 0 300000 600000 900000s
later 0 -1000=0 0 300000 600000 900000s
later 0 0=1 300000 600000 900000s
later 0 299999=1 300000 600000 900000s
later 0 300000=2 600000 900000s
later 0 600000=3 900000s
later 0 900000=4
later 1 -1=0 420000
later 2 -5=1
select down|up= 1 0
select .+= 1 2 0
select up= 0
select (d|x).*= 1
select no=";

// Each line is a call and its answer: samples that are put in, or a cursor's place with the time before it and the next two.
// Chunks end at 512 samples and are parted where samples come into their midst. Counted by hand: the first load has the even
// times below 2800; from the second on each time below 1200 is there, and from the third on each one.
const PLACES: &str = "at 0=none
load 0 512 2=taken
at 511=511 1020 1022 -
at 512=512 1022 - -
load 1024 888 2=taken
at 0=0 - 0 2
at 511=511 1020 1022 1024
at 512=512 1022 1024 1026
at 513=513 1024 1026 1028
at 1023=1023 2044 2046 2048
at 1024=1024 2046 2048 2050
at 1025=1025 2048 2050 2052
at 1399=1399 2796 2798 -
at 1400=1400 2798 - -
at 1401=none
behind -1=0 - 0 2
behind 1021=511 1020 1022 1024
behind 1022=512 1022 1024 1026
behind 1023=512 1022 1024 1026
load 1 600 2=taken
at 255=255 254 255 256
at 256=256 255 256 257
at 257=257 256 257 258
at 511=511 510 511 512
at 512=512 511 512 513
at 768=768 767 768 769
at 1023=1023 1022 1023 1024
at 1024=1024 1023 1024 1025
at 1199=1199 1198 1199 1200
at 1200=1200 1199 1200 1202
at 1201=1201 1200 1202 1204
at 1999=1999 2796 2798 -
at 2000=2000 2798 - -
behind 1198=1199 1198 1199 1200
behind 2797=1999 2796 2798 -
behind 2798=2000 2798 - -
load 2797 799 -2=taken
at 0=0 - 0 1
at 1199=1199 1198 1199 1200
at 1201=1201 1200 1201 1202
at 1500=1500 1499 1500 1501
at 2047=2047 2046 2047 2048
at 2048=2048 2047 2048 2049
at 2303=2303 2302 2303 2304
at 2798=2798 2797 2798 -
load 0 2799 1=taken
at 512=512 511 512 513
at 1024=1024 1023 1024 1025
at 2799=2799 2798 - -
load -5 5 1=taken
load 3000 1 1=taken
load -6 1 1=taken
at 0=0 - -6 -5
at 6=6 -1 0 1
at 1024=1024 1017 1018 1019
at 2804=2804 2797 2798 3000
at 2805=2805 2798 3000 -
at 2806=2806 3000 - -
behind 2798=2805 2798 3000 -";

/// A time behind all others.
const LATEST: i64 = 1_000_000;

/// The whole number at a place among words, else 0.
fn number(words: &str, place: usize) -> i64 {
    field(words, ' ', place).parse::<i64>().unwrap_or(0)
}

/// The count at a place among words, else 0.
fn count(words: &str, place: usize) -> u32 {
    field(words, ' ', place).parse::<u32>().unwrap_or(0)
}

fn named(alloc: Global, name: &str) -> Result<Labels, LabelRefusal> {
    let mut labels = Labels::empty(alloc);
    labels.put("__name__", name)?;
    Ok(labels)
}

/// The value of a word: a whole number, `stale`, or else NaN.
fn held_of(word: &str) -> Held {
    if word == "stale" {
        return Held::Stale;
    }
    match word.parse::<i64>() {
        Ok(n) => Held::Value(whole(n)),
        Err(_) => Held::Value(XFrac::NaN),
    }
}

fn told(answer: Result<(), StoreRefusal>) -> &'static str {
    match answer {
        Ok(()) => "taken",
        Err(StoreRefusal::Conflict { .. }) => "conflict",
        Err(StoreRefusal::TooManySeries) => "series",
        Err(StoreRefusal::TooManySamples) => "samples",
        Err(StoreRefusal::Memory) => "memory",
    }
}

/// Puts a sample in, by the series' number where it has one: a name, a time and a value.
fn put(alloc: Global, store: &mut Store, words: &str) -> Result<&'static str, LabelRefusal> {
    let labels = named(alloc, field(words, ' ', 0))?;
    let (at, held) = (Ms(number(words, 1)), held_of(field(words, ' ', 2)));
    let answer = match store.find(&labels) {
        Some(s) => store.append_to(s, at, &held),
        None => store.append(&labels, at, &held),
    };
    Ok(told(answer))
}

/// Puts so many samples into a series, from a time on, each so much later.
fn load(
    store: &mut Store,
    labels: &Labels,
    from: i64,
    count: u32,
    step: i64,
) -> Result<(), StoreRefusal> {
    let mut at = from;
    for _ in 0..count {
        store.append(labels, Ms(at), &Held::Value(whole(1)))?;
        at = at.wrapping_add(step);
    }
    Ok(())
}

/// Puts samples in: the first time, how many there are, and how much later each is.
fn load_words(alloc: Global, store: &mut Store, words: &str) -> Result<&'static str, Fail> {
    let labels = named(alloc, "up")?;
    let answer = load(
        store,
        &labels,
        number(words, 0),
        count(words, 1),
        number(words, 2),
    );
    Ok(told(answer))
}

/// Adds the time of a sample to a text, or a dash.
fn add_time(
    alloc: Global,
    text: &mut String,
    sample: Option<(Ms, Held)>,
) -> Result<(), AllocError> {
    match sample {
        Some((at, _)) => {
            let milliseconds = at.0;
            text.push_str(format!(in alloc; " {milliseconds}")?.as_str())?;
        }
        None => text.push_str(" -")?,
    }
    Ok(())
}

/// How many samples lie before a cursor, the time of the one right before it, and those of the next two.
fn around<W: Ledger>(
    alloc: Global,
    cursor: Cursor<'_>,
    work: &mut Work<W>,
) -> Result<String, AllocError> {
    let mut ahead = cursor;
    let place = ahead.place();
    let mut text = format!(in alloc; "{place}")?;
    add_time(alloc, &mut text, ahead.previous(work))?;
    add_time(alloc, &mut text, ahead.next(work))?;
    add_time(alloc, &mut text, ahead.next(work))?;
    Ok(text)
}

/// What lies round a place of the first series.
fn at_place<W: Ledger>(
    alloc: Global,
    store: &Store,
    place: u32,
    work: &mut Work<W>,
) -> Result<String, AllocError> {
    if store.series() == 0 || place > store.seek(0, Ms(LATEST), work).place() {
        return String::from_str(alloc, "none");
    }
    around(alloc, store.resume(0, place), work)
}

/// What lies round the first sample of the first series that is later than a time.
fn behind<W: Ledger>(
    alloc: Global,
    store: &Store,
    after: i64,
    work: &mut Work<W>,
) -> Result<String, AllocError> {
    if store.series() == 0 {
        return String::from_str(alloc, "none");
    }
    around(alloc, store.seek(0, Ms(after), work), work)
}

/// The times of the next eight samples of a cursor, and a mark where one is a marker of staleness.
fn times<W: Ledger>(
    alloc: Global,
    mut cursor: Cursor<'_>,
    work: &mut Work<W>,
) -> Result<String, AllocError> {
    let place = cursor.place();
    let mut text = format!(in alloc; "{place}")?;
    for _ in 0..8 {
        if let Some((at, held)) = cursor.next(work) {
            let milliseconds = at.0;
            let mark = if held == Held::Stale { "s" } else { "" };
            text.push_str(format!(in alloc; " {milliseconds}{mark}")?.as_str())?;
        }
    }
    Ok(text)
}

/// The samples of a series that are later than a time, read from the place that a cursor has there.
fn later<W: Ledger>(
    alloc: Global,
    store: &Store,
    words: &str,
    work: &mut Work<W>,
) -> Result<String, AllocError> {
    let s = count(words, 0);
    if s >= store.series() {
        return String::from_str(alloc, "none");
    }
    let place = store.seek(s, Ms(number(words, 1)), work).place();
    times(alloc, store.resume(s, place), work)
}

/// The numbers of the series whose name a pattern passes.
fn selected<W: Ledger>(
    alloc: Global,
    store: &Store,
    pattern: &str,
    work: &mut Work<W>,
) -> Result<String, Fail> {
    let mut room = PatternRoom::new(alloc)?;
    let mut patterns = Patterns::new(alloc, &mut room);
    let kind = RuleKind::Re(patterns.whole(pattern)?);
    let mut rules = Items::new(alloc);
    rules.push(Rule {
        label: Text::of(alloc, "__name__")?,
        kind,
    })?;
    let mut text = String::new(alloc);
    for place in store.select(&rules, &mut patterns, work)?.as_slice() {
        text.push_str(format!(in alloc; " {place}")?.as_str())?;
    }
    Ok(text)
}

/// What a call answers.
fn answer<W: Ledger>(
    alloc: Global,
    store: &mut Store,
    call: &str,
    work: &mut Work<W>,
) -> Result<String, Fail> {
    let (word, words) = call.split_once(' ').unwrap_or((call, ""));
    match word {
        "put" => Ok(String::from_str(alloc, put(alloc, store, words)?)?),
        "load" => Ok(String::from_str(alloc, load_words(alloc, store, words)?)?),
        "at" => Ok(at_place(alloc, store, count(words, 0), work)?),
        "behind" => Ok(behind(alloc, store, number(words, 0), work)?),
        "later" => Ok(later(alloc, store, words, work)?),
        _ => selected(alloc, store, words, work),
    }
}

/// Makes the calls of lines on one store, and fails with the first line of another answer.
fn call<W: Ledger>(alloc: Global, lines: &Text, blank: Blank) -> Result<(), Fail>
    requires name { blank.name ≡ W.name }
    requires parts { blank.parts ≡ W.parts }
    requires three { blank.parts ≡ 3 }
{
    let mut work = Work::<W>::new(blank);
    let mut store = Store::new(alloc);
    for line in lines.as_str().split('\n') {
        let got = answer(alloc, &mut store, field(line, '=', 0), &mut work)?;
        if got.as_str() != field(line, '=', 1) {
            return Err(Fail::new(line));
        }
    }
    Ok(())
}

/// The same, with counters that nobody reads.
fn lines_hold(alloc: Global, lines: &str) -> Result<(), Fail> {
    call::<Brand>(alloc, &Text::of(alloc, lines)?, Blank::new(3))
}

#[test]
fn samples_are_put_found_and_selected(rt: HostRuntime) -> Result<(), Fail> {
    lines_hold(rt.alloc(), SAMPLES)
}

#[test]
fn places_hold_across_chunks_and_insertions(rt: HostRuntime) -> Result<(), Fail> {
    lines_hold(rt.alloc(), PLACES)
}

/// Puts in a series of twenty samples, from 0 on.
fn put_series(alloc: Global, store: &mut Store, i: u32) -> Result<(), Fail> {
    let name = format!(in alloc; "m{i}")?;
    let labels = named(alloc, name.as_str())?;
    let answer = told(load(store, &labels, 0, 20, 1));
    if answer == "taken" {
        return Ok(());
    }
    Err(Fail::new(answer))
}

/// Puts in 100,000 series, with twenty samples each, from 0 on.
fn fill(alloc: Global, store: &mut Store) -> Result<(), Fail> {
    for i in 0..100_000u32 {
        put_series(alloc, store, i)?;
    }
    Ok(())
}

/// The answers of a full store, and how many series and samples it has then.
fn answers(alloc: Global, store: &mut Store) -> Result<String, Fail> {
    let new = put(alloc, store, "m100000 0 stale")?;
    let more = put(alloc, store, "m7 20 stale")?;
    let other = put(alloc, store, "m7 19 stale")?;
    let same = put(alloc, store, "m7 19 1")?;
    let (series, samples) = (store.series(), store.samples());
    Ok(format!(in alloc; "{new} {more} {other} {same} {series} {samples}")?)
}

#[test]
fn a_full_store_refuses_more(rt: HostRuntime) -> Result<(), Fail> {
    let mut store = Store::new(rt.alloc());
    fill(rt.alloc(), &mut store)?;
    let answers = answers(rt.alloc(), &mut store)?;
    text_is(
        answers.as_str(),
        "series samples conflict taken 100000 2000000",
    )
}
