//! What is refused of one engine's deliveries, each at its edge, and what is taken beside it.
use crate::delivered::{all_cells, kind};
use crate::gathers::{gather_of, has_room, take_next};
use op_gather::{Gather, GatherRefusal};
use remote_api::Frame;
use std::alloc::Global;
use std::test::Fail;
use ticks::Ms;
use written_steps::{are_lent, line_that_differs, steps};

// Each line is the kind that is asked at 10, 20 and so on up to 50, deliveries, and what comes of the last one. A delivery is the kind
// of its cells and its steps, `empty`, or `end`.
const LINES: &str = "rows > rows 10 a:1 > taken
rows > rows 10 a:1 | 20 a:1 | 30 - | 40 - | 50 a:2 > taken
rows > rows 20 a:1 > expected 10 got 20
rows > rows 9 a:1 > expected 10 got 9
rows > rows 11 a:1 > expected 10 got 11
rows > rows 10 a:1 | 30 a:1 > expected 20 got 30
rows > rows 10 a:1 | 10 a:1 > expected 20 got 10
rows > rows 10 a:1 > rows 10 a:1 > expected 20 got 10
rows > rows 10 a:1 > rows 20 a:1 > taken
rows > empty > expected 10 got none
rows > rows 10 a:1 | 20 - > empty > expected 30 got none
rows > rows 10 - | 20 - | 30 - | 40 - | 50 - > rows 60 a:1 > expected none got 60
rows > rows 10 - | 20 - | 30 - | 40 - | 50 - | 60 - > expected none got 60
rows > rows 10 - | 20 - | 30 - | 40 - | 50 - > empty > expected none got none
rows > end > expected 10 got none
rows > rows 10 - | 20 - | 30 - | 40 - > end > expected 50 got none
rows > rows 10 - | 20 - | 30 - | 40 - | 50 - > end > taken
rows > sum 10 a:1 > wrong 10
rows > count 10 a:1 > wrong 10
rows > windows 10 a:1 > wrong 10
rows > min 10 a:1 > taken
rows > rows 10 a:1;b:1;a:2 > wrong 10
rows > rows 10 b:1;a:1;c:1 > taken
rows > rows 10 b:1;a:1 | 20 b:1;b:1 > wrong 20
rows > rows 10 a:1;a:1 | 30 a:1 > expected 20 got 30
rows > sum 10 - | 20 - > taken
sum > sum 10 a:1 > taken
sum > rows 10 a:1 > wrong 10
sum > count 10 a:1 > wrong 10
sum > sum 10 a:1;a:2 > wrong 10
avg > sum 10 a:1 > taken
avg > count 10 a:1 > wrong 10
min > rows 10 a:1 > taken
min > sum 10 a:1 > wrong 10
max > rows 10 a:nan > taken
max > count 10 a:1 > wrong 10
count > count 10 a:0 > taken
count > rows 10 a:1 > wrong 10
group > count 10 a:7 > taken
group > sum 10 a:1 > wrong 10
windows > windows 10 a:1 > taken
windows > rows 10 a:1 > wrong 10
windows > windows 10 a:1 | 20 a:1;b:1;a:1 > wrong 20";

/// A written instant, or `none`.
fn time(word: &str) -> Result<Option<Ms>, Fail> {
    if word == "none" {
        return Ok(None);
    }
    let at: i64 = word.parse()?;
    Ok(Some(Ms(at)))
}

fn out_of_step(times: &str) -> Result<GatherRefusal, Fail> {
    let (expected, got) = times.split_once(" got ").ok_or("no such answer")?;
    let (expected, got) = (time(expected)?, time(got)?);
    Ok(GatherRefusal::OutOfStep { expected, got })
}

/// Whether an answer is the one that a line writes.
fn is_written(answer: Result<(), GatherRefusal>, text: &str) -> Result<bool, Fail> {
    match text.split_once(' ') {
        Some(("expected", times)) => Ok(answer == Err(out_of_step(times)?)),
        Some(("wrong", at)) => Ok(
            answer
                == Err(GatherRefusal::WrongCell {
                    at: Ms(at.parse()?),
                }),
        ),
        _ => Ok(text == "taken" && answer.is_ok()),
    }
}

fn frame(alloc: Global, text: &str) -> Result<Frame, Fail> {
    if text == "empty" {
        return Ok(Frame::new(alloc));
    }
    let (word, rest) = text.split_once(' ').ok_or("no kind")?;
    let steps = all_cells(alloc, &kind(alloc, word)?, rest)?;
    Ok(Frame { steps })
}

/// What comes of a delivery of the first engine, which has room.
fn delivered(
    alloc: Global,
    gather: &mut Gather,
    text: &str,
) -> Result<Result<(), GatherRefusal>, Fail> {
    if !has_room(gather, 0) {
        return Err("no room")?;
    }
    if text == "end" {
        return Ok(gather.finish(0));
    }
    Ok(gather.feed(0, frame(alloc, text)?))
}

/// Whether a delivery is taken, or else what a word says holds.
fn is_so(alloc: Global, gather: &mut Gather, word: &str) -> Result<bool, Fail> {
    match word {
        "take" => take_next(gather),
        "room" => Ok(has_room(gather, 0)),
        "full" => Ok(!has_room(gather, 0)),
        "room beside" => Ok(has_room(gather, 1)),
        "ready" => Ok(gather.ready()),
        "waiting" => Ok(!gather.ready()),
        _ => Ok(delivered(alloc, gather, word)?.is_ok()),
    }
}

fn are_so(alloc: Global, gather: &mut Gather, words: &str) -> Result<bool, Fail> {
    for word in words.split(" > ") {
        if !is_so(alloc, gather, word)? {
            return Ok(false);
        }
    }
    Ok(true)
}

/// Whether the last delivery is answered as it says behind what holds before it, and a refusal leaves the gather spent.
fn is_answered(alloc: Global, gather: &mut Gather, words: &str) -> Result<bool, Fail> {
    let (text, wanted) = words.rsplit_once(" > ").ok_or("no answer")?;
    let (front, last) = text.rsplit_once(" > ").unwrap_or(("room", text));
    if !are_so(alloc, gather, front)? {
        return Ok(false);
    }
    let answer = delivered(alloc, gather, last)?;
    Ok(is_written(answer, wanted)? && gather.is_spent() == answer.is_err())
}

fn holds(alloc: Global, line: &str) -> Result<bool, Fail> {
    let (word, words) = line.split_once(" > ").ok_or("no kind")?;
    let mut gather = gather_of(alloc, 3, &kind(alloc, word)?)?;
    is_answered(alloc, &mut gather, words)
}

#[test]
fn each_refusal_comes_at_its_edge(rt: HostRuntime) -> Result<(), Fail> {
    let alloc = rt.alloc();
    let line = line_that_differs(LINES, |line| holds(alloc, line))?;
    assert_eq!(rt; line, "none");
    Ok(())
}

// Each line is how many engines are asked for rows, and then deliveries of the first one, which are taken, and what holds behind
// them: whether it has room or is full, and whether a step is ready, which `take` takes.
const ROOMS: &str =
    "3 > rows 10 a:1 > rows 20 a:1 > rows 30 a:1 > rows 40 a:1 > full > room beside > waiting
1 > rows 10 - | 20 - > rows 30 - > rows 40 - > rows 50 - > full > take > full > take > room > end > full > ready";

fn keeps(alloc: Global, line: &str) -> Result<bool, Fail> {
    let (engines, words) = line.split_once(" > ").ok_or("no engines")?;
    let mut gather = gather_of(alloc, engines.parse()?, &kind(alloc, "rows")?)?;
    are_so(alloc, &mut gather, words)
}

#[test]
fn four_frames_are_kept_each_until_its_last_step_is_taken(rt: HostRuntime) -> Result<(), Fail> {
    let alloc = rt.alloc();
    let line = line_that_differs(ROOMS, |line| keeps(alloc, line))?;
    assert_eq!(rt; line, "none");
    Ok(())
}

// Deliveries that are refused of an engine that has delivered the steps at 10 and 20, of which the first was taken.
const REFUSED: &str = "rows 30 a:3 | 50 a:5 > expected 40 got 50
rows 20 a:3 > expected 30 got 20
rows 30 a:3 | 40 b:4;b:5 > wrong 40
sum 30 a:3 > wrong 30
empty > expected 30 got none
end > expected 30 got none";

/// Whether the step at 10 is lent.
fn is_lent(alloc: Global, gather: &Gather) -> Result<bool, Fail> {
    Ok(are_lent(&gather.lend(), steps(alloc, "10 a:1")?.as_slice()))
}

/// Whether a refusal leaves the gather spent, with the step that was lent and what was kept, and nothing of the refused frame.
fn is_left(alloc: Global, line: &str) -> Result<bool, Fail> {
    let mut gather = gather_of(alloc, 1, &kind(alloc, "rows")?)?;
    let is_kept = are_so(alloc, &mut gather, "rows 10 a:1 | 20 a:2 > take")?;
    let is_refused = is_answered(alloc, &mut gather, line)?;
    let is_left = gather.is_spent() && gather.ready() && gather.engines() == 1;
    Ok(is_kept && is_refused && is_left && is_lent(alloc, &gather)?)
}

#[test]
fn a_refusal_leaves_what_was_kept_and_lent(rt: HostRuntime) -> Result<(), Fail> {
    let alloc = rt.alloc();
    let line = line_that_differs(REFUSED, |line| is_left(alloc, line))?;
    assert_eq!(rt; line, "none");
    Ok(())
}
