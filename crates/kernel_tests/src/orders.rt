//! Frames of three engines in many orders and cuts: what is joined is the same.
use crate::delivered::{Source, kind};
use crate::gathers::{gather_of, has_room, take_ready};
use op_gather::Gather;
use std::alloc::Global;
use std::test::Fail;
use step_table::{PartKind, Step};
use ticks::Ms;
use written_steps::{line_that_differs, steps};

// Each line is a kind of cells, the steps of three engines, and the steps that are joined.
const LINES: &str =
    "rows > 10 a:1 | 20 a:2 | 30 - | 40 a:4!I | 50 a:5 > 10 b:1 | 20 - | 30 b:3 | 40 b:4 | 50 b:5;c:6 > 10 c:1 | 20 c:2 | 30 c:3 | 40 -!O | 50 c:7 > 10 a:1;b:1;c:1 | 20 a:2;c:2 | 30 b:3;c:3 | 40 a:4;b:4!O!I | 50 a:5;b:5!S,c
rows > 10 c:1;a:2 | 20 a:2 | 30 a:nan | 40 - | 50 a:1 > 10 b:1;d:7 | 20 a:3 | 30 - | 40 - | 50 a:1 > 10 e:1 | 20 a:4 | 30 b:inf | 40 - | 50 b:1 > 10 a:2;b:1;c:1;d:7;e:1 | 20 -!S,a | 30 a:nan;b:inf | 40 - | 50 b:1!S,a
sum > 10 ,x=1:1 | 20 ,x=1:1/2;,x=2:2 | 30 ,x=1:big | 40 ,x=1:nan | 50 -!O > 10 ,x=1:2 | 20 ,x=2:3 | 30 ,x=1:-1000000000000000000000000000000;,x=2:1 | 40 ,x=1:1 | 50 ,x=1:1 > 10 ,x=2:4 | 20 ,x=1:1/3 | 30 - | 40 ,x=2:-inf | 50 - > 10 ,x=1:3;,x=2:4 | 20 ,x=1:5/6;,x=2:5 | 30 ,x=2:1!O | 40 ,x=1:nan;,x=2:-inf | 50 ,x=1:1!O
avg > 10 ,x=1:1 | 20 ,x=1:1/2;,x=2:2 | 30 ,x=1:big | 40 - | 50 ,x=1:7 > 10 ,x=1:2 | 20 ,x=2:3 | 30 ,x=2:1 | 40 - | 50 ,x=1:0 > 10 ,x=1:6 | 20 - | 30 - | 40 - | 50 ,x=1:2 > 10 ,x=1:3 | 20 ,x=1:1/2;,x=2:5/2 | 30 ,x=1:big;,x=2:1 | 40 - | 50 ,x=1:3
min > 10 ,x=1:1 | 20 ,x=1:nan | 30 ,x=1:inf | 40 ,x=1:2 | 50 - > 10 ,x=1:-1 | 20 ,x=1:5 | 30 ,x=1:3 | 40 - | 50 ,x=2:1 > 10 ,x=1:0 | 20 ,x=1:4 | 30 ,x=1:-inf | 40 ,x=2:nan | 50 ,x=2:1/2 > 10 ,x=1:-1 | 20 ,x=1:4 | 30 ,x=1:-inf | 40 ,x=1:2;,x=2:nan | 50 ,x=2:1/2
max > 10 ,x=1:1 | 20 ,x=1:nan | 30 ,x=1:inf | 40 ,x=1:2 | 50 - > 10 ,x=1:-1 | 20 ,x=1:5 | 30 ,x=1:3 | 40 - | 50 ,x=2:1 > 10 ,x=1:0 | 20 ,x=1:4 | 30 ,x=1:-inf | 40 ,x=2:nan | 50 ,x=2:1/2 > 10 ,x=1:1 | 20 ,x=1:5 | 30 ,x=1:inf | 40 ,x=1:2;,x=2:nan | 50 ,x=2:1
count > 10 ,x=1:1 | 20 ,x=1:2;,x=2:1 | 30 - | 40 ,x=1:4000000000 | 50 ,x=1:1 > 10 ,x=1:2 | 20 ,x=2:3 | 30 - | 40 ,x=1:4000000000 | 50 - > 10 ,x=1:3 | 20 ,x=1:7 | 30 - | 40 ,x=1:1 | 50 - > 10 ,x=1:6 | 20 ,x=1:9;,x=2:4 | 30 - | 40 ,x=1:8000000001 | 50 ,x=1:1
group > 10 ,x=1:1 | 20 ,x=1:2;,x=2:1 | 30 - | 40 ,x=1:4 | 50 ,x=1:1 > 10 ,x=1:2 | 20 ,x=2:3 | 30 - | 40 ,x=1:4 | 50 - > 10 ,x=1:3 | 20 ,x=1:7 | 30 - | 40 ,x=1:1 | 50 - > 10 ,x=1:1 | 20 ,x=1:1;,x=2:1 | 30 - | 40 ,x=1:1 | 50 ,x=1:1
windows > 10 a:1 | 20 a:2 | 30 - | 40 c:4!I | 50 a:5 > 10 b:1 | 20 - | 30 b:3 | 40 b:4 | 50 b:5;c:6 > 10 c:1 | 20 c:2 | 30 c:3 | 40 -!O | 50 c:7 > 10 a:1;b:1;c:1 | 20 a:2;c:2 | 30 b:3;c:3 | 40 b:4;c:4!O!I | 50 a:5;b:5!S,c";

// How many steps each engine's frames have, and who is pulled next, again and again.
const ORDERS: &str = "111 012
111 210
111 0011122
111 2
111 000000111111222222012
123 012
321 012
555 012
555 210
515 021
151 102
222 120
222 00000
333 012012210
231 2220001
312 0120
411 11110000222
141 20
114 01
511 2101";

/// Delivers an engine's next frame, or its end, where there is room.
fn deliver(
    alloc: Global,
    gather: &mut Gather,
    engine: u32,
    source: &mut Source,
) -> Result<(), Fail> {
    if source.has_ended || !has_room(gather, engine) {
        return Ok(());
    }
    if source.is_empty() {
        source.has_ended = true;
        gather.finish(engine)?;
        return Ok(());
    }
    gather.feed(engine, source.next(alloc)?)?;
    Ok(())
}

fn pick(alloc: Global, gather: &mut Gather, sources: &mut [Source], c: char) -> Result<(), Fail> {
    let engine = c.to_digit(10).ok_or("no number of an engine")?;
    match sources.get_mut(engine as usize) {
        Some(source) => deliver(alloc, gather, engine, source),
        None => Err("no such engine")?,
    }
}

fn sources(alloc: Global, kind: &PartKind, texts: &str, sizes: &str) -> Result<Vec<Source>, Fail> {
    let mut all = Vec::new(alloc);
    for (text, digit) in texts.split(" > ").zip(sizes.chars()) {
        let size = digit.to_digit(10).ok_or("no size")?;
        all.push(Source::read(alloc, kind, text, size)?)?;
    }
    Ok(all)
}

/// Whether the steps of sources are joined as they are wanted, each as soon as it is ready.
fn are_joined(
    alloc: Global,
    kind: &PartKind,
    sources: &mut [Source],
    picks: &str,
    wanted: &[(Ms, Step)],
) -> Result<bool, Fail> {
    let mut gather = gather_of(alloc, 3, kind)?;
    let mut taken = 0;
    for _ in 0..20 {
        for c in picks.chars().chain("012".chars()) {
            pick(alloc, &mut gather, sources, c)?;
            taken = take_ready(&mut gather, kind, wanted, taken)?;
        }
    }
    Ok(taken == wanted.len() && gather.engines() == 3 && !gather.ready())
}

/// Whether a line holds in an order.
fn holds(alloc: Global, line: &str, order: &str) -> Result<bool, Fail> {
    let (word, rest) = line.split_once(" > ").ok_or("no kind")?;
    let (texts, wanted) = rest.rsplit_once(" > ").ok_or("nothing wanted")?;
    let (sizes, picks) = order.split_once(' ').ok_or("no picks")?;
    let kind = kind(alloc, word)?;
    let wanted = steps(alloc, wanted)?;
    let mut sources = sources(alloc, &kind, texts, sizes)?;
    are_joined(alloc, &kind, &mut sources, picks, wanted.as_slice())
}

/// The first line that doesn't hold in an order.
fn differing(alloc: Global, order: &str) -> Result<&'static str, Fail> {
    line_that_differs(LINES, |line| holds(alloc, line, order))
}

#[test]
fn frames_in_any_order_and_cut_are_joined_alike(rt: HostRuntime) -> Result<(), Fail> {
    let alloc = rt.alloc();
    let order = line_that_differs(ORDERS, |order| Ok(differing(alloc, order)? == "none"))?;
    assert_eq!(rt; order, "none");
    Ok(())
}
