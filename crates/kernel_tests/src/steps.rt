use crate::written::{digits, lines_hold, marks, named, number, write_marks};
use label_set::{LabelRefusal, METRIC_NAME};
use std::alloc::{AllocError, Global};
use std::test::Fail;
use step_batch::{Batch, Slot, StepBuffer};
use ticks::Ms;
use xfrac::whole;

// Each line is calls on one buffer, and what they answered and what it lends then. A call of `place` answers a place, `begin` and `put`
// tell where their condition doesn't hold. Of what is lent the names come first, then the steps: an instant, the values by
// their places, marks behind `!` and the number of notes behind `?`.
const LINES: &str = " > |
place:a > 0 |a
place:a place:b > 0 1 |a b
place:a place:b place:a place:c place:b > 0 1 0 2 1 |a b c
begin:10 > | 10:
begin:10 begin:20 > | 10: 20:
begin:-5 begin:-4 > | -5: -4:
begin:10 begin:10 > late | 10:
begin:10 begin:9 > late | 10:
begin:10 begin:11 begin:11 > late | 10: 11:
put:0=5 > taken |
place:a put:0=5 > 0 taken |a
begin:10 put:0=5 > taken | 10:
place:a begin:10 put:0=5 > 0 |a 10: 0=5
begin:10 place:a put:0=5 > 0 |a 10: 0=5
place:a begin:10 put:1=5 > 0 taken |a 10:
place:a begin:10 put:0=5 put:0=6 > 0 taken |a 10: 0=5
place:a begin:10 put:0=5 begin:20 > 0 |a 10: 0=5 20:
place:a begin:10 put:0=5 begin:20 put:0=6 > 0 |a 10: 0=5 20: 0=6
place:a place:b begin:10 put:0=1 put:1=2 > 0 1 |a b 10: 0=1 1=2
place:a place:b begin:10 put:1=2 put:0=1 > 0 1 |a b 10: 0=1 1=2
place:a place:b place:c begin:10 put:0=1 put:2=3 put:1=2 > 0 1 2 |a b c 10: 0=1 1=2 2=3
place:a place:b place:c begin:10 put:2=3 put:1=2 put:0=1 > 0 1 2 |a b c 10: 0=1 1=2 2=3
place:a place:b place:c begin:10 put:1=2 put:2=3 put:0=1 put:1=9 > 0 1 2 taken |a b c 10: 0=1 1=2 2=3
place:a begin:10 put:0=1 place:b begin:20 put:1=2 > 0 1 |a b 10: 0=1 20: 1=2
unite:O > none |
begin:10 unite:O > | 10:!O
begin:10 unite:- > | 10:
begin:10 unite:O unite:- unite:B > | 10:!O?1
begin:10 unite:I unite:O unite:I > | 10:!O!I
begin:10 unite:B unite:B > | 10:?1
begin:10 unite:O begin:20 > | 10:!O 20:
begin:10 begin:20 unite:O > | 10: 20:!O
place:a begin:10 put:0=5 unite:O > 0 |a 10: 0=5!O
clear > |
place:a begin:10 put:0=5 unite:O clear > 0 |
place:a place:b clear place:b > 0 1 0 |b
place:a begin:10 put:0=5 unite:O clear begin:5 > 0 | 5:
place:a begin:10 put:0=5 unite:O clear begin:5 place:b put:0=7 > 0 0 |b 5: 0=7
renew > |
place:a place:b renew > 0 1 |a b
place:a place:b begin:10 put:1=5 unite:O renew > 0 1 |a b
place:a place:b begin:10 put:1=5 unite:O renew place:b begin:5 > 0 1 1 |a b 5:
place:a place:b begin:10 put:1=5 begin:20 put:0=6 renew begin:30 put:0=7 > 0 1 |a b 30: 0=7
place:a begin:10 put:0=5 renew begin:20 begin:30 put:0=6 > 0 |a 20: 30: 0=6
feed > |
place:a feed > 0 |a
place:a place:b feed > 0 1 |
place:a place:b begin:10 put:1=5 feed > 0 1 |a b
place:a place:b place:c feed > 0 1 2 |
place:a place:b place:c begin:10 put:0=1 feed > 0 1 2 |a b c
place:a place:b place:c place:d begin:10 put:0=1 feed > 0 1 2 3 |
place:a place:b place:c place:d begin:10 put:0=1 put:3=1 feed > 0 1 2 3 |a b c d
place:a place:b place:c place:d begin:10 put:0=1 begin:20 put:0=1 feed > 0 1 2 3 |a b c d";

/// Begins a step at an instant, where it is later than the last one.
fn begin(buffer: &mut StepBuffer, at: Ms, answers: &mut String) -> Result<(), AllocError> {
    if !buffer.is_later(at) {
        return answers.push_str("late ");
    }
    buffer.begin(at)
}

/// Puts a value at a place that is free.
fn put(buffer: &mut StepBuffer, given: &str, answers: &mut String) -> Result<(), AllocError> {
    let (place, value) = given.split_once('=').unwrap_or((given, ""));
    let place = place.parse::<usize>().unwrap_or(0);
    if !buffer.is_free(place) {
        return answers.push_str("taken ");
    }
    buffer.put(place, whole(number(value)))
}

/// Adds marks or notes, where a step was begun.
fn unite(
    alloc: Global,
    buffer: &mut StepBuffer,
    word: &str,
    answers: &mut String,
) -> Result<(), AllocError> {
    if buffer.lend().len() == 0 {
        return answers.push_str("none ");
    }
    buffer.unite(&marks(alloc, word)?)
}

fn place(
    alloc: Global,
    buffer: &mut StepBuffer,
    name: &str,
    answers: &mut String,
) -> Result<(), LabelRefusal> {
    let place = buffer.place(&named(alloc, name)?)?;
    answers.push_str(format!(in alloc; "{place} ")?.as_str())?;
    Ok(())
}

/// Makes a call that answers nothing.
fn settle(buffer: &mut StepBuffer, name: &str) {
    match name {
        "clear" => buffer.clear(),
        "renew" => buffer.renew(),
        "feed" => buffer.begin_feed(),
        _ => {}
    }
}

fn call(
    alloc: Global,
    buffer: &mut StepBuffer,
    word: &str,
    answers: &mut String,
) -> Result<(), LabelRefusal> {
    let (name, given) = word.split_once(':').unwrap_or((word, ""));
    match name {
        "place" => place(alloc, buffer, given, answers),
        "begin" => Ok(begin(buffer, Ms(number(given)), answers)?),
        "put" => Ok(put(buffer, given, answers)?),
        "unite" => Ok(unite(alloc, buffer, given, answers)?),
        _ => {
            settle(buffer, name);
            Ok(())
        }
    }
}

fn write_slots(alloc: Global, text: &mut String, slots: &[Slot]) -> Result<(), AllocError> {
    for slot in slots {
        let place = slot.place;
        let value = digits(&slot.value);
        text.push_str(format!(in alloc; " {place}={value}")?.as_str())?;
    }
    Ok(())
}

fn write_names(text: &mut String, batch: &Batch<'_>) -> Result<(), AllocError> {
    let mut apart = "|";
    for labels in batch.labels() {
        text.push_str(apart)?;
        text.push_str(labels.get(METRIC_NAME))?;
        apart = " ";
    }
    if apart == "|" {
        text.push_str(apart)?;
    }
    Ok(())
}

fn write_lent(alloc: Global, text: &mut String, batch: &Batch<'_>) -> Result<(), AllocError> {
    write_names(text, batch)?;
    for i in 0..batch.len() {
        let at = batch.at(i).0;
        text.push_str(format!(in alloc; " {at}:")?.as_str())?;
        write_slots(alloc, text, batch.slots(i))?;
        write_marks(alloc, text, batch.marks(i))?;
    }
    Ok(())
}

/// What the calls of a line answer, and what is lent then.
fn told(alloc: Global, calls: &str) -> Result<String, LabelRefusal> {
    let mut buffer = StepBuffer::new(alloc);
    let mut text = String::new(alloc);
    for word in calls.split(' ') {
        call(alloc, &mut buffer, word, &mut text)?;
    }
    write_lent(alloc, &mut text, &buffer.lend())?;
    Ok(text)
}

#[test]
fn a_buffer_lends_what_was_put(rt: HostRuntime) -> Result<(), Fail> {
    lines_hold(rt.alloc(), LINES, told)
}
