use crate::wanted::{is_wanted, order};
use label_set::Items;
use promql_meaning::Outcome;
use result_rows::Collected;
use std::alloc::Global;
use std::test::Fail;
use step_batch::StepBuffer;
use step_rules::ByValue;
use step_table::{Marks, Note, Step};
use ticks::Ms;
use written_steps::{buffer_of, line_that_differs, parted, steps};
use xfrac::whole;

// Each line is an order, steps, and the series or the stop that comes of them.
const LINES: &str = "labels > 10 - > -
labels > 10 b:2;a:1 > a 10:1;b 10:2
labels > 10 a,x=2:1;a,x=1:2 | 20 a,x=1:3 | 30 a,x=2:4;a,x=1:5 > a,x=1 10:2 20:3 30:5;a,x=2 10:1 30:4
labels > 10 c:1 | 20 b:2 | 30 a:3 | 40 d:4;c:5;b:6;a:7 > a 30:3 40:7;b 20:2 40:6;c 10:1 40:5;d 40:4
labels > 10 a:1;b:2;c:3 | 20 - | 30 c:4;b:5 | 40 a:6 > a 10:1 40:6;b 10:2 30:5;c 10:3 30:4
labels > 10 a,x=1:nan;a,x=1,y=1:inf | 20 a,x=1,y=1:-inf;a,y=1:1/2 > a,x=1 10:nan;a,x=1,y=1 10:inf 20:-inf;a,y=1 20:1/2
labels > 10 a:1 | 20 b:2!O | 30 c:3!I > stop 20 -!O
labels > 10 a:1 | 20 a:2 | 30 a:3 | 40 a:4!I!O > stop 40 -!I
labels > 10 -!S,x=1 > stop 10 -!S,x=1
up > 10 a:3;b:1;c:2 > b 10:1;c 10:2;a 10:3
down > 10 a:3;b:1;c:2;d:nan > a 10:3;c 10:2;b 10:1;d 10:nan
down l > 10 a,l=q:1;a,l=p:2;b,l=q:3;b,l=p:4 > b,l=p 10:4;a,l=p 10:2;b,l=q 10:3;a,l=q 10:1";

/// What comes of steps that are taken so many at once.
fn collect(
    alloc: Global,
    size: usize,
    order: Option<ByValue>,
    steps: &[(Ms, Step)],
) -> Result<Outcome, Fail> {
    let mut collected = Collected::new(alloc);
    let mut left = steps;
    for _ in 0..steps.len() {
        let (these, others) = parted(left, size);
        let buffer = buffer_of(alloc, these)?;
        if let Some(outcome) = collected.take(&buffer.lend())? {
            return Ok(outcome);
        }
        left = others;
    }
    Ok(Outcome::Answer(collected.answer(false, order)?))
}

fn holds(alloc: Global, size: usize, line: &str) -> Result<bool, Fail> {
    let (word, text) = line.split_once(" > ").ok_or("no order")?;
    let (fed, wanted) = text.split_once(" > ").ok_or("no steps")?;
    let steps = steps(alloc, fed)?;
    let outcome = collect(alloc, size, order(alloc, word)?, steps.as_slice())?;
    is_wanted(alloc, &outcome, wanted)
}

/// The first line that doesn't hold in batches of so many steps.
fn differing(alloc: Global, size: usize) -> Result<&'static str, Fail> {
    line_that_differs(LINES, |line| holds(alloc, size, line))
}

#[test]
fn steps_are_collected_in_turn(rt: HostRuntime) -> Result<(), Fail> {
    assert_eq!(rt; differing(rt.alloc(), 1)?, "none");
    Ok(())
}

#[test]
fn three_steps_are_collected_at_once(rt: HostRuntime) -> Result<(), Fail> {
    assert_eq!(rt; differing(rt.alloc(), 3)?, "none");
    Ok(())
}

/// Takes a step that has a note alone.
fn take_note(
    alloc: Global,
    collected: &mut Collected,
    at: Ms,
    note: Note,
) -> Result<Option<Outcome>, Fail> {
    let mut notes = Items::new(alloc);
    notes.push(note)?;
    let mut buffer = StepBuffer::new(alloc);
    buffer.begin(at)?;
    buffer.unite(&Marks {
        fatal: Items::new(alloc),
        notes,
    })?;
    Ok(collected.take(&buffer.lend())?)
}

#[test]
fn notes_stand_in_their_order_each_once(rt: HostRuntime) -> Result<(), Fail> {
    let alloc = rt.alloc();
    let mut collected = Collected::new(alloc);
    take_note(alloc, &mut collected, Ms(10), Note::FixedBuckets)?;
    take_note(alloc, &mut collected, Ms(20), Note::QuantileRange(whole(2)))?;
    take_note(alloc, &mut collected, Ms(30), Note::FixedBuckets)?;
    let answer = collected.answer(true, None)?;
    assert!(rt; answer.scalar);
    match answer.notes.as_slice() {
        [first, second] => {
            assert!(rt; first.is_same(&Note::QuantileRange(whole(2))));
            assert!(rt; second.is_same(&Note::FixedBuckets));
            Ok(())
        }
        _ => Err("notes that are missing or stand twice")?,
    }
}
