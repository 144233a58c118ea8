use func_table::Aggregate;
use label_set::Text;
use op_element::is_scalar;
use op_rank::Ranked;
use std::alloc::Global;
use std::test::Fail;
use step_batch::Batch;
use step_table::Step;
use ticks::Ms;
use written_steps::{
    Case, Feed, are_lent, blank_of, buffer_of, grouping, has_same_steps, line_that_differs,
};

// Each line is the label that values are counted under with the grouping, steps that are fed, and steps that are lent.
const LINES: &str =
    "v by > 10 a:1;b:2;c:1 | 20 - | 30 a:1/2;b:1/2;c:1/3 > 10 ,v=1:2;,v=2:1 | 20 - | 30 ,v=0.5:2;,v=1/3:1
v by > 10 a:nan;b:inf;c:nan;d:-inf | 20 a:-3/4;b:-3/4 | 30 a:0 > 10 ,v=NaN:2;,v=+Inf:1;,v=-Inf:1 | 20 ,v=-0.75:2 | 30 ,v=0:1
v by > 10 a:big;b:1;c:big | 20 a:1/8;b:2/16;c:-1/8 | 30 a:10;b:20/2;c:1/30 > 10 ,v=1000000000000000000000000000000:2;,v=1:1 | 20 ,v=0.125:2;,v=-0.125:1 | 30 ,v=10:2;,v=1/30:1
v by x > 10 a,x=1:5;b,x=1:5;a,x=2:5;b,x=2:6 | 20 a,x=2:5 | 30 b:5;c,x=2:6;a:5 > 10 ,x=1,v=5:2;,x=2,v=5:1;,x=2,v=6:1 | 20 ,x=2,v=5:1 | 30 ,v=5:2;,x=2,v=6:1
v by x > 10 a,x=1:1 | 20 a,x=2:1 | 30 a,x=1:2;a,x=2:1 | 40 - | 50 b,x=2:1;a,x=3:1;c,x=2:1 > 10 ,x=1,v=1:1 | 20 ,x=2,v=1:1 | 30 ,x=1,v=2:1;,x=2,v=1:1 | 40 - | 50 ,x=2,v=1:2;,x=3,v=1:1
v without x > 10 a,x=1,y=1:5;b,x=2,y=1:5;c,y=2:5 | 20 a,x=1:7!I | 30 -!O > 10 ,y=1,v=5:2;,y=2,v=5:1 | 20 ,v=7:1!I | 30 -!O
v by v > 10 a,v=9:1;b,v=8:1;c:1 | 20 a,v=9:9 | 30 a,v=1:2;b,v=2:1 > 10 ,v=1:3 | 20 ,v=9:1 | 30 ,v=1:1;,v=2:1
v without v > 10 a,v=9:1;b,v=8:2;c,x=1:1 | 20 a,v=9:9 | 30 a:1;b,v=2:1 > 10 :2;,x=1:1 | 20 :1 | 30 :2
__name__ by x > 10 a,x=1:5;b,x=1:5;c,x=2:1/2 | 20 - | 30 a:1 > 10 5,x=1:2;0.5,x=2:1 | 20 - | 30 1:1
__name__ without x > 10 a,x=1:5;b,x=1:6;c,y=1:6 | 20 a:1 | 30 - > 10 :2;,y=1:1 | 20 :1 | 30 -
v without > 10 ,#64:1;,#63,l63=w:1;b,x=1:2 | 20 a,#63:1 | 30 ,#64:1;,#63,v=9:5!C > 10 ,x=1,v=2:1!O | 20 ,#63,v=1:1 | 30 ,#63,v=5:1!O!C";

/// A kernel of `count_values` with its label and grouping.
fn kernel(alloc: Global, rule: &str) -> Result<Ranked, Fail> {
    let (label, by) = rule.split_once(' ').ok_or("no grouping")?;
    let by = grouping(alloc, by)?;
    let label = Text::of(alloc, label)?;
    Ok(Ranked::new(alloc, Aggregate::CountValues, by, label)?)
}

/// Feeds steps beside a parameter, which isn't read, and answers whether what is lent are the wanted ones.
fn is_lent(
    kernel: &mut Ranked,
    rows: &Batch<'_>,
    blank: &Batch<'_>,
    wanted: &[(Ms, Step)],
) -> Result<bool, Fail> {
    if !has_same_steps(rows, blank) || !is_scalar(blank) {
        return Err(Fail::new("a parameter with more rows"));
    }
    kernel.feed(rows, blank)?;
    Ok(are_lent(&kernel.lend(), wanted))
}

fn is_made(alloc: Global, kernel: &mut Ranked, feed: &Feed<'_>) -> Result<bool, Fail> {
    let rows = buffer_of(alloc, feed.rows)?;
    let blank = blank_of(alloc, feed.rows)?;
    is_lent(kernel, &rows.lend(), &blank.lend(), feed.wanted)
}

fn holds(alloc: Global, size: usize, line: &str) -> Result<bool, Fail> {
    let (rule, text) = line.split_once(" > ").ok_or("no rule")?;
    let case = Case::read(alloc, text)?;
    let mut kernel = kernel(alloc, rule)?;
    case.holds(size, |feed| is_made(alloc, &mut kernel, feed))
}

/// The first line that doesn't hold in batches of so many steps.
fn differing(alloc: Global, size: usize) -> Result<&'static str, Fail> {
    line_that_differs(LINES, |line| holds(alloc, size, line))
}

#[test]
fn values_are_counted_in_turn(rt: HostRuntime) -> Result<(), Fail> {
    assert_eq!(rt; differing(rt.alloc(), 1)?, "none");
    Ok(())
}

#[test]
fn values_of_three_steps_are_counted_at_once(rt: HostRuntime) -> Result<(), Fail> {
    assert_eq!(rt; differing(rt.alloc(), 3)?, "none");
    Ok(())
}
