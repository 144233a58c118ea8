use op_aggregate::{Grouped, is_grouped};
use std::alloc::Global;
use std::test::Fail;
use written_steps::{Case, Feed, aggregate, are_lent, buffer_of, grouping, line_that_differs};

// Each line is an aggregation with its grouping, steps that are fed, and steps that are lent.
const LINES: &str =
    "sum by x > 10 a,x=1:1;a,x=2:2;b,x=1:3 | 20 - | 30 a,x=2:5 > 10 ,x=1:4;,x=2:2 | 20 - | 30 ,x=2:5
sum by > 10 a:1;b:2 | 20 - | 30 b:1/2 > 10 :3 | 20 - | 30 :1/2
sum by > 10 a:1/2;b:1/3;c:-1/6 | 20 a:2;b:-2 | 30 -!O > 10 :2/3 | 20 :0 | 30 -!O
sum by > 10 a:big;b:-1 | 20 a:big;b:1!I | 30 a:1!O!S,x=1 > 10 -!O | 20 -!O!I | 30 :1!O!S,x=1
sum by x > 10 a,x=1:big;b,x=1:1;a,x=2:2 | 20 a,x=1:big | 30 a,x=1:big;a,x=2:1;b,x=1:big > 10 ,x=2:2!O | 20 ,x=1:big | 30 ,x=2:1!O
sum by x > 10 a,x=1:big;b,x=1:1;c,x=1:nan;a,x=2:3 | 20 a,x=1:1 | 30 b,x=2:big;c,x=2:big;b,x=1:7 > 10 ,x=2:3!O | 20 ,x=1:1 | 30 ,x=1:7!O
sum by x > 10 a,x=1:nan;b,x=1:1;a,x=2:inf;b,x=2:1;a,x=3:inf;b,x=3:-inf | 20 a,x=1:-inf;b,x=1:5 | 30 a,x=1:1!I > 10 ,x=1:nan;,x=2:inf;,x=3:nan | 20 ,x=1:-inf | 30 ,x=1:1!I
sum by x > 10 a,x=1:1 | 20 a,x=2:2 | 30 a,x=1:3;a,x=2:4 > 10 ,x=1:1 | 20 ,x=2:2 | 30 ,x=1:3;,x=2:4
sum by x > 10 a,x=1:1;b,x=2:2;c,x=1:3 | 20 b,x=2:5;c,x=1:7 | 30 c,x=1:1;a,x=3:2;b,x=2:4 > 10 ,x=1:4;,x=2:2 | 20 ,x=1:7;,x=2:5 | 30 ,x=1:1;,x=2:4;,x=3:2
sum by y,x > 10 a,x=1,y=1:1;b,x=1,y=1:2;c,x=1,y=2:4;d,x=1:8 | 20 d:16;c,y=1:32 | 30 d,z=1:1;d,z=2:2 > 10 ,x=1,y=1:3;,x=1,y=2:4;,x=1:8 | 20 :16;,y=1:32 | 30 :3
sum by __name__ > 10 a,x=1:1;a,x=2:2;b:3 | 20 b:4 | 30 ,x=1:5 > 10 a:3;b:3 | 20 b:4 | 30 :5
sum without x > 10 a,x=1,y=1:1;b,x=2,y=1:2;a,y=2:4;a,x=1:8 | 20 - | 30 b,y=2:1;b,y=1:2 > 10 ,y=1:3;,y=2:4;:8 | 20 - | 30 ,y=1:2;,y=2:1
sum without > 10 a,x=1:1;b,x=1:2;a:4;b:8 | 20 a,x=1:3 | 30 b:1 > 10 ,x=1:3;:12 | 20 ,x=1:3 | 30 :1
avg by x > 10 a,x=1:1;b,x=1:2;c,x=1:6;a,x=2:5 | 20 a,x=1:1;b,x=1:2 | 30 - > 10 ,x=1:3;,x=2:5 | 20 ,x=1:3/2 | 30 -
avg by > 10 a,x=1:1;b,x=1:2;c,x=2:6 | 20 a,x=1:nan;b,x=1:1 | 30 a,x=1:inf;b,x=1:1 > 10 :3 | 20 :nan | 30 :inf
avg by x > 10 a,x=1:big;b,x=1:big;a,x=2:4;b,x=2:6 | 20 a,x=1:1/1000000000000000000000000000000;b,x=1:0;b,x=2:1 | 30 a,x=1:inf;b,x=1:-inf > 10 ,x=2:5!O | 20 ,x=2:1!O | 30 ,x=1:nan
min by x > 10 a,x=1:nan;b,x=1:3;c,x=1:-1;a,x=2:nan | 20 a,x=1:inf;b,x=1:-inf;c,x=2:inf | 30 a,x=1:big;b,x=1:2 > 10 ,x=1:-1;,x=2:nan | 20 ,x=1:-inf;,x=2:inf | 30 ,x=1:2
min without x > 10 - | 20 a,x=1:3;a,x=2:1/2;b,y=1:7 | 30 a,x=1:3 > 10 - | 20 :1/2;,y=1:7 | 30 :3
max by x > 10 a,x=1:nan;b,x=1:3;c,x=1:-1;a,x=2:nan | 20 a,x=1:inf;b,x=1:-inf;c,x=2:-inf | 30 a,x=1:2;b,x=1:big > 10 ,x=1:3;,x=2:nan | 20 ,x=1:inf;,x=2:-inf | 30 ,x=1:big
max without x > 10 - | 20 a,x=1:3;a,x=2:1/2;b,y=1:-7 | 30 a,x=1:-3 > 10 - | 20 :3;,y=1:-7 | 30 :-3
count by x > 10 a,x=1:nan;b,x=1:3;a,x=2:inf | 20 - | 30 b,x=3:1 > 10 ,x=1:2;,x=2:1 | 20 - | 30 ,x=3:1
count by > 10 a:big;b:big;c:-inf | 20 a:1!C | 30 - > 10 :3 | 20 :1!C | 30 -
count without x > 10 a,x=1:5;a,x=2:5;b,y=1:5 | 20 a,x=1:5 | 30 a,x=2:5;b,x=2:5 > 10 :2;,y=1:1 | 20 :1 | 30 :2
group by x > 10 a,x=1:nan;b,x=1:3;a,x=2:inf | 20 - | 30 b,x=3:7 > 10 ,x=1:1;,x=2:1 | 20 - | 30 ,x=3:1
group without x > 10 a,x=1:big;b,x=2:big | 20 a,y=1:-inf | 30 -!O > 10 :1 | 20 ,y=1:1 | 30 -!O
stdvar by x > 10 a,x=1:1;b,x=1:3;a,x=2:7 | 20 a,x=1:1;b,x=1:2;c,x=1:6 | 30 a,x=1:inf;b,x=1:1;a,x=2:nan > 10 ,x=1:1;,x=2:0 | 20 ,x=1:14/3 | 30 ,x=1:nan;,x=2:nan
stdvar by x > 10 a,x=1:big;b,x=1:0;a,x=2:1;b,x=2:3 | 20 - | 30 b,x=1:5 > 10 ,x=2:1!O | 20 - | 30 ,x=1:0
stdvar without x > 10 a,x=1:1/2;a,x=2:3/2;b,y=1:-1 | 20 a,x=1:-inf | 30 a,x=2:1;b,x=1:2 > 10 :1/4;,y=1:0 | 20 :nan | 30 :1/4";

/// A kernel of an aggregation with its grouping.
fn kernel(alloc: Global, rule: &str) -> Result<Grouped, Fail> {
    let (word, by) = rule.split_once(' ').ok_or("no grouping")?;
    let f = aggregate(word)?;
    if !is_grouped(f) {
        return Err(Fail::new("an aggregation with a parameter"));
    }
    let by = grouping(alloc, by)?;
    Ok(Grouped::new(alloc, f, by, false)?)
}

/// Feeds steps, and answers whether what is lent are the wanted ones.
fn is_made(alloc: Global, kernel: &mut Grouped, feed: &Feed<'_>) -> Result<bool, Fail> {
    let rows = buffer_of(alloc, feed.rows)?;
    kernel.feed(&rows.lend())?;
    Ok(are_lent(&kernel.lend(), feed.wanted))
}

fn holds(alloc: Global, size: usize, line: &str) -> Result<bool, Fail> {
    let (rule, text) = line.split_once(" > ").ok_or("no rule")?;
    let case = Case::read(alloc, text)?;
    let mut kernel = kernel(alloc, rule)?;
    case.holds(size, |feed| is_made(alloc, &mut kernel, feed))
}

/// The first line that doesn't hold in batches of so many steps.
fn differing(alloc: Global, size: usize) -> Result<&'static str, Fail> {
    line_that_differs(LINES, |line| holds(alloc, size, line))
}

#[test]
fn aggregate_kernels_make_steps_in_turn(rt: HostRuntime) -> Result<(), Fail> {
    assert_eq!(rt; differing(rt.alloc(), 1)?, "none");
    Ok(())
}

#[test]
fn aggregate_kernels_make_three_steps_at_once(rt: HostRuntime) -> Result<(), Fail> {
    assert_eq!(rt; differing(rt.alloc(), 3)?, "none");
    Ok(())
}
