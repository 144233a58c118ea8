use func_table::{CalendarPart, Element};
use op_element::{ElementRows, ElementRule, is_scalar};
use std::alloc::Global;
use std::test::Fail;
use step_batch::{Batch, StepBuffer};
use step_table::Step;
use ticks::Ms;
use written_steps::{
    Case, Feed, are_lent, blank_of, buffer_of, has_same_steps, line_that_differs, operator,
};

// Each line is a rule, steps that are fed, steps of its first and of its second scalar, `same` where it takes none, and steps that
// are lent. An operator stands behind `v` where the scalar is on its right, and behind `s` where it is on its left.
const LINES: &str =
    "abs > 10 a,x=1:-7/2;b,x=2:3 | 20 a,x=1:-inf;b,x=2:nan | 30 -!O > same > same > 10 ,x=1:7/2;,x=2:3 | 20 ,x=1:inf;,x=2:nan | 30 -!O
ceil > 10 a:-7/2 | 20 a:7/2 | 30 a:inf > same > same > 10 :-3 | 20 :4 | 30 :inf
floor > 10 a:-7/2 | 20 a:7/2 | 30 a:nan > same > same > 10 :-4 | 20 :3 | 30 :nan
sgn > 10 a,x=1:-5;a,x=2:0 | 20 a,x=2:inf | 30 a,x=1:nan > same > same > 10 ,x=1:-1;,x=2:0 | 20 ,x=2:1 | 30 ,x=1:nan
minus > 0 a:1 | 600000 b:2 | 1200000 a:3;b:3 > same > same > 0 :-1 | 600000 :-2 | 1200000 -!S
minus > 10 a,x=1:1;a,x=2:2;b,x=1:3;b,x=2:4 | 20 a,x=2:5;b,x=1:6 | 30 b,x=2:7;c,x=3:8 > same > same > 10 -!S,x=1!S,x=2 | 20 ,x=1:-6;,x=2:-5 | 30 ,x=2:-7;,x=3:-8
minus > 10 a,x=1:1;a,x=2:2;b,x=1:3 | 20 a,x=1:4 | 30 b,x=1:5;a,x=2:6 > same > same > 10 ,x=2:-2!S,x=1 | 20 ,x=1:-4 | 30 ,x=1:-5;,x=2:-6
minus > 10 a,x=1:1 | 20 a,x=2:2 | 30 a,x=1:3;a,x=2:4 > same > same > 10 ,x=1:-1 | 20 ,x=2:-2 | 30 ,x=1:-3;,x=2:-4
hour > 10 a,x=1:18001;b,x=2:inf | 20 b,x=2:-1 | 30 a,x=1:86400 > same > same > 10 ,x=1:5!C | 20 ,x=2:23 | 30 ,x=1:0
round > 10 a,x=1:7/2;a,x=2:-7/2 | 20 a,x=1:12 | 30 a,x=1:5/2 > 10 :1 | 20 :5 | 30 :nan > same > 10 ,x=1:4;,x=2:-3 | 20 ,x=1:10 | 30 ,x=1:nan
round > 10 a,x=1:big;a,x=2:1 | 20 a,x=1:3 | 30 a,x=1:3 > 10 :1/10 | 20 :0 | 30 -!O > same > 10 ,x=2:1!O | 20 ,x=1:nan | 30 -!O
clamp > 10 a,x=1:1;a,x=2:3;a,x=3:5 | 20 a,x=1:nan;a,x=2:-inf;a,x=3:inf | 30 a,x=1:1 > 10 :2 | 20 :2 | 30 :4 > 10 :4 | 20 :4 | 30 :2 > 10 ,x=1:2;,x=2:3;,x=3:4 | 20 ,x=1:nan;,x=2:2;,x=3:4 | 30 -
clamp > 10 a:1 | 20 a:1!I | 30 a:1 > 10 :nan | 20 -!O | 30 :2 > 10 :4 | 20 :4 | 30 -!C > 10 :nan | 20 -!O!I | 30 -!C
clamp_min > 10 a:1 | 20 a:3 | 30 a:-inf > 10 :2 | 20 :2 | 30 :2 > same > 10 :2 | 20 :3 | 30 :2
clamp_max > 10 a:1 | 20 a:3 | 30 a:inf > 10 :2 | 20 :2 | 30 :inf > same > 10 :1 | 20 :2 | 30 :inf
v+ > 10 a:7 | 20 a:7 | 30 a:inf > 10 :2 | 20 -!O | 30 :-inf > same > 10 :9 | 20 -!O | 30 :nan
s+ > 10 a:1/2 | 20 a:1/3 | 30 a:big > 10 :1/3 | 20 :-1/3 | 30 :big > same > 10 :5/6 | 20 :0 | 30 -!O
v- > 10 a:7 | 20 a:2 | 30 a:nan > 10 :2 | 20 :7 | 30 :1 > same > 10 :5 | 20 :-5 | 30 :nan
s- > 10 a:7 | 20 a:2 | 30 a:inf > 10 :2 | 20 :7 | 30 :1 > same > 10 :-5 | 20 :5 | 30 :-inf
v* > 10 a,x=1:big;a,x=2:3 | 20 a,x=1:1/2 | 30 a,x=1:inf > 10 :10 | 20 :2 | 30 :0 > same > 10 ,x=2:30!O | 20 ,x=1:1 | 30 ,x=1:nan
s* > 10 a,x=1:big;a,x=2:3 | 20 a,x=1:1/2 | 30 a,x=1:inf > 10 :10 | 20 :2 | 30 :-3 > same > 10 ,x=2:30!O | 20 ,x=1:1 | 30 ,x=1:-inf
v/ > 10 a:7 | 20 a:7 | 30 a:0 > 10 :2 | 20 :0 | 30 :0 > same > 10 :7/2 | 20 :inf | 30 :nan
s/ > 10 a:7 | 20 a:0 | 30 a:inf > 10 :2 | 20 :-2 | 30 :5 > same > 10 :2/7 | 20 :-inf | 30 :0
v% > 10 a:-1 | 20 a:7 | 30 a:7 > 10 :3 | 20 :inf | 30 :0 > same > 10 :-1 | 20 :7 | 30 :nan
s% > 10 a:4 | 20 a:-3 | 30 a:inf > 10 :7 | 20 :7 | 30 :-5 > same > 10 :3 | 20 :1 | 30 :-5
v^ > 10 a:2 | 20 a,x=1:4;a,x=2:inf;a,x=3:nan | 30 a:big > 10 :3 | 20 :1/2 | 30 :2 > same > 10 :8 | 20 ,x=2:inf;,x=3:nan!I | 30 -!O
s^ > 10 a:2 | 20 a,x=1:1/2;a,x=2:-1 | 30 a:0 > 10 :3 | 20 :4 | 30 :nan > same > 10 :9 | 20 ,x=2:1/4!I | 30 :1
v== > 10 a:5;b:6 | 20 a:5;b:5 | 30 a:nan > 10 :5 | 20 :5 | 30 :nan > same > 10 a:5 | 20 a:5;b:5 | 30 -
v!= > 10 a:5;b:6 | 20 a:5;b:5 | 30 a:nan > 10 :5 | 20 :5 | 30 :nan > same > 10 b:6 | 20 - | 30 a:nan
v> > 10 a,x=1:7;b:3;b,x=1:5 | 20 a,x=1:inf | 30 a,x=1:7!I > 10 :5 | 20 :5 | 30 -!O > same > 10 a,x=1:7 | 20 a,x=1:inf | 30 -!O!I
s> > 10 a,x=1:7;b:3;b,x=1:5 | 20 a,x=1:inf | 30 a,x=1:-inf > 10 :5 | 20 :5 | 30 :nan > same > 10 b:3 | 20 - | 30 -
v< > 10 a:7;b:3 | 20 a:5 | 30 a:-inf > 10 :5 | 20 :5 | 30 :5 > same > 10 b:3 | 20 - | 30 a:-inf
s< > 10 a:7;b:3 | 20 a:5 | 30 a:6 > 10 :5 | 20 :5 | 30 :5 > same > 10 a:7 | 20 - | 30 a:6
v>= > 10 a:7;b:3 | 20 a:5 | 30 b:4 > 10 :5 | 20 :5 | 30 :5 > same > 10 a:7 | 20 a:5 | 30 -
s<= > 10 a:7;b:3 | 20 a:5 | 30 b:4 > 10 :5 | 20 :5 | 30 :5 > same > 10 a:7 | 20 a:5 | 30 -
v>bool > 10 a,x=1:7;b,x=2:3 | 20 a,x=1:5 | 30 a,x=1:nan > 10 :5 | 20 :5 | 30 :5 > same > 10 ,x=1:1;,x=2:0 | 20 ,x=1:0 | 30 ,x=1:0
s>bool > 10 a,x=1:7;b,x=2:3 | 20 a,x=1:5 | 30 a:1;b:2 > 10 :5 | 20 :5 | 30 :5 > same > 10 ,x=1:0;,x=2:1 | 20 ,x=1:0 | 30 -!S
s!=bool > 10 a:5 | 20 a:6 | 30 a:nan > 10 :5 | 20 :5 | 30 -!I > same > 10 :0 | 20 :1 | 30 -!I";

fn function(word: &str) -> Option<Element> {
    match word {
        "abs" => Some(Element::Abs),
        "ceil" => Some(Element::Ceil),
        "floor" => Some(Element::Floor),
        "round" => Some(Element::Round),
        "sgn" => Some(Element::Sgn),
        "minus" => Some(Element::Neg),
        "clamp" => Some(Element::Clamp),
        "clamp_min" => Some(Element::ClampMin),
        "clamp_max" => Some(Element::ClampMax),
        "hour" => Some(Element::Calendar(CalendarPart::Hour)),
        _ => None,
    }
}

fn rule(word: &str) -> Result<ElementRule, Fail> {
    if let Some(f) = function(word) {
        return Ok(ElementRule::Apply(f));
    }
    let scalar_left = word.starts_with('s');
    let op = operator(word.trim_start_matches('s').trim_start_matches('v'))?;
    Ok(ElementRule::WithScalar { op, scalar_left })
}

/// Feeds steps with their scalars, and answers whether what is lent are the wanted ones.
fn is_lent(
    kernel: &mut ElementRows,
    rows: &Batch<'_>,
    first: &Batch<'_>,
    second: &Batch<'_>,
    wanted: &[(Ms, Step)],
) -> Result<bool, Fail> {
    if !has_same_steps(rows, first) || !has_same_steps(rows, second) {
        return Err("steps without scalars")?;
    }
    if !is_scalar(first) || !is_scalar(second) {
        return Err("scalars of several rows")?;
    }
    kernel.feed(rows, first, second)?;
    Ok(are_lent(&kernel.lend(), wanted))
}

/// The steps of a scalar beside those of rows; where none is taken they have no rows.
fn scalar(alloc: Global, steps: &[(Ms, Step)], rows: &[(Ms, Step)]) -> Result<StepBuffer, Fail> {
    if steps.is_empty() {
        blank_of(alloc, rows)
    } else {
        buffer_of(alloc, steps)
    }
}

fn is_made(alloc: Global, kernel: &mut ElementRows, feed: &Feed<'_>) -> Result<bool, Fail> {
    let rows = buffer_of(alloc, feed.rows)?;
    let first = scalar(alloc, feed.first, feed.rows)?;
    let second = scalar(alloc, feed.second, feed.rows)?;
    let (first, second) = (first.lend(), second.lend());
    is_lent(kernel, &rows.lend(), &first, &second, feed.wanted)
}

fn holds(alloc: Global, size: usize, line: &str) -> Result<bool, Fail> {
    let (word, text) = line.split_once(" > ").ok_or("no rule")?;
    let case = Case::read(alloc, text)?;
    let mut kernel = ElementRows::new(alloc, rule(word)?)?;
    case.holds(size, |feed| is_made(alloc, &mut kernel, feed))
}

/// The first line that doesn't hold in batches of so many steps.
fn differing(alloc: Global, size: usize) -> Result<&'static str, Fail> {
    line_that_differs(LINES, |line| holds(alloc, size, line))
}

#[test]
fn element_kernels_make_steps_in_turn(rt: HostRuntime) -> Result<(), Fail> {
    assert_eq!(rt; differing(rt.alloc(), 1)?, "none");
    Ok(())
}

#[test]
fn element_kernels_make_three_steps_at_once(rt: HostRuntime) -> Result<(), Fail> {
    assert_eq!(rt; differing(rt.alloc(), 3)?, "none");
    Ok(())
}
