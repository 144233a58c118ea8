use crate::written::{digits, lines_hold, marks, named, number, write_marks};
use label_set::{LabelRefusal, METRIC_NAME};
use std::alloc::{AllocError, Global};
use std::test::Fail;
use step_batch::{WindowBuffer, Windows};
use ticks::Ms;
use xfrac::{XFrac, whole};

fn write_window(
    alloc: Global,
    text: &mut String,
    times: &[Ms],
    values: &[XFrac],
) -> Result<(), AllocError> {
    for at in times {
        let at = at.0;
        text.push_str(format!(in alloc; " {at}")?.as_str())?;
    }
    text.push_str(" =")?;
    for value in values {
        let value = digits(value);
        text.push_str(format!(in alloc; " {value}")?.as_str())?;
    }
    Ok(())
}

/// The instant, then each window: its name, its times and its values; then marks behind `!` and the number of notes behind `?`.
fn write_lent(alloc: Global, text: &mut String, lent: &Windows<'_>) -> Result<(), AllocError> {
    let at = lent.at().0;
    text.push_str(format!(in alloc; "{at}:")?.as_str())?;
    for i in 0..lent.len() {
        text.push_str(" ")?;
        text.push_str(lent.labels(i).get(METRIC_NAME))?;
        write_window(alloc, text, lent.times(i), lent.values(i))?;
    }
    write_marks(alloc, text, lent.marks())
}

/// What is lent of a window of three samples where those no later than an edge were let go.
fn left_of(alloc: Global, edge: i64, mark: &str) -> Result<String, LabelRefusal> {
    let mut buffer = WindowBuffer::new(alloc, Ms(30));
    let times = [Ms(10), Ms(20), Ms(30)];
    let values = [whole(1), whole(2), whole(3)];
    buffer.put(&named(alloc, "a")?, &times, &values)?;
    buffer.unite(&marks(alloc, mark)?)?;
    buffer.forget(Ms(edge));
    let mut text = String::new(alloc);
    write_lent(alloc, &mut text, &buffer.lend())?;
    Ok(text)
}

/// What is lent of a window of one sample at another instant, which is renewed or begun anew.
fn renewed(alloc: Global, call: &str) -> Result<String, LabelRefusal> {
    let mut buffer = WindowBuffer::new(alloc, Ms(30));
    let place = buffer.add(&named(alloc, "b")?, Ms(30), whole(7))?;
    buffer.unite(&marks(alloc, "O")?)?;
    if call == "renew" {
        buffer.renew(Ms(40));
    } else if call == "begin" {
        buffer.begin(Ms(40));
    }
    let mut text = String::new(alloc);
    text.push_str(format!(in alloc; "{place} ")?.as_str())?;
    write_lent(alloc, &mut text, &buffer.lend())?;
    Ok(text)
}

// Each line is an edge, a mark, and what is lent behind it; or a call and what is lent after it.
const LINES: &str = "9 - > 30: a 10 20 30 = 1 2 3
10 - > 30: a 20 30 = 2 3
11 - > 30: a 20 30 = 2 3
19 - > 30: a 20 30 = 2 3
20 - > 30: a 30 = 3
29 - > 30: a 30 = 3
30 - > 30:
31 - > 30:
-5 O > 30: a 10 20 30 = 1 2 3!O
30 B > 30:?1
keep > 0 30: b 30 = 7!O
renew > 0 40: b 30 = 7
begin > 0 40:";

fn told(alloc: Global, line: &str) -> Result<String, LabelRefusal> {
    match line.split_once(' ') {
        Some((edge, mark)) => left_of(alloc, number(edge), mark),
        None => renewed(alloc, line),
    }
}

#[test]
fn windows_let_go_of_what_is_early(rt: HostRuntime) -> Result<(), Fail> {
    lines_hold(rt.alloc(), LINES, told)
}
