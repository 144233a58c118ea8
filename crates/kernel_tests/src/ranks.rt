use label_set::Text;
use op_element::is_scalar;
use op_rank::{Ranked, is_ranking};
use std::alloc::Global;
use std::test::Fail;
use step_batch::Batch;
use step_table::Step;
use ticks::Ms;
use written_steps::{
    Case, Feed, aggregate, are_lent, buffer_of, grouping, has_same_steps, line_that_differs,
};

// Each line is an aggregation and its grouping, steps that are fed, steps of its parameter, and steps that are lent. A step that
// is lent with a note of a quantile has it behind `~`.
const LINES: &str =
    "topk by > 10 a,x=1:1;a,x=2:3;a,x=3:2 | 20 - | 30 a,x=1:1;a,x=2:1 > 10 :2 | 20 :2 | 30 :1 > 10 a,x=2:3;a,x=3:2 | 20 - | 30 a,x=1:1
bottomk by > 10 a,x=1:1;a,x=2:3;a,x=3:2 | 20 - | 30 a,x=2:1;a,x=1:1 > 10 :2 | 20 :2 | 30 :1 > 10 a,x=1:1;a,x=3:2 | 20 - | 30 a,x=1:1
topk by x > 10 a,x=1:1;b,x=1:2;a,x=2:9;b,x=2:8 | 20 a,x=1:5;b,x=1:5 | 30 a,x=2:nan;b,x=2:-inf > 10 :1 | 20 :1 | 30 :1 > 10 b,x=1:2;a,x=2:9 | 20 a,x=1:5 | 30 b,x=2:-inf
topk without x > 10 a,x=1:1;b,x=1:2;a,x=2:9;b,x=2:8 | 20 a,x=1,y=1:5;b,x=1,y=2:5 | 30 a,x=2:nan;b,x=2:inf > 10 :2 | 20 :1 | 30 :1 > 10 a,x=2:9;b,x=2:8 | 20 a,x=1,y=1:5;b,x=1,y=2:5 | 30 b,x=2:inf
bottomk by > 10 a:nan;b:inf;c:-inf | 20 a:nan;b:inf;c:-inf | 30 a:nan;b:nan > 10 :1 | 20 :2 | 30 :1 > 10 c:-inf | 20 b:inf;c:-inf | 30 a:nan
topk by > 10 a:nan;b:inf;c:-inf | 20 a:nan;b:inf;c:-inf | 30 b:nan;a:nan > 10 :1 | 20 :2 | 30 :1 > 10 b:inf | 20 b:inf;c:-inf | 30 a:nan
topk by > 10 a:1;b:2 | 20 a:1;b:2 | 30 a:1;b:2 > 10 :1/2 | 20 :-7 | 30 :-inf > 10 - | 20 - | 30 -
topk by > 10 a:1;b:2 | 20 - | 30 a:1;b:2 > 10 :nan | 20 :inf | 30 :9223372036854775808 > 10 -!O | 20 -!O | 30 -!O
topk by > 10 a:1;b:2 | 20 a:1;b:2 | 30 a:1;b:2 > 10 :3/2 | 20 :9223372036854775807 | 30 :18446744073709551615/2 > 10 b:2 | 20 a:1;b:2 | 30 a:1;b:2
topk by > 10 a:1;b:2!I | 20 a:1;b:2!I | 30 a:1;b:2 > 10 -!O | 20 :1 | 30 :1!C > 10 -!O!I | 20 b:2!I | 30 b:2!C
topk by > 10 a:1;b:2!I | 20 a:1 | 30 a:1;b:2 > 10 :nan | 20 :1 | 30 :0!C > 10 -!O!I | 20 a:1 | 30 -!C
bottomk by x > 10 a,x=1:1;a,x=2:2 | 20 a,x=3:3;a,x=1:4 | 30 a,x=2:5;b,x=2:4;b,x=4:0 > 10 :1 | 20 :1 | 30 :1 > 10 a,x=1:1;a,x=2:2 | 20 a,x=3:3;a,x=1:4 | 30 b,x=2:4;b,x=4:0
topk by > 10 c:1;b:1;a:1 | 20 b:1;a:1;c:1 | 30 a:1;c:1;b:1 > 10 :1 | 20 :2 | 30 :3 > 10 a:1 | 20 a:1;b:1 | 30 a:1;b:1;c:1
bottomk by > 10 c:1;b:1;a:1 | 20 b:1;a:1;c:1 | 30 a:1;c:1;b:0 > 10 :1 | 20 :2 | 30 :2 > 10 a:1 | 20 a:1;b:1 | 30 a:1;b:0
bottomk by > 10 a:1;b:2 | 20 a:1;b:2 | 30 a:1;b:2 > 10 :1/2 | 20 :nan | 30 :inf > 10 - | 20 -!O | 30 -!O
topk by > 10 a:1/3;b:2/3;c:1/2 | 20 a:-1/3;b:-2/3;c:-1/2 | 30 a:big;b:inf > 10 :2 | 20 :2 | 30 :1 > 10 b:2/3;c:1/2 | 20 a:-1/3;c:-1/2 | 30 b:inf
quantile by > 10 a:1;b:2;c:4 | 20 a:5 | 30 - > 10 :1/2 | 20 :1/4 | 30 :1/2 > 10 :2 | 20 :5 | 30 -
quantile by x > 10 a,x=1:0;b,x=1:10;a,x=2:7 | 20 b,x=2:3;a,x=1:4 | 30 a,x=3:1/3 > 10 :1/4 | 20 :0 | 30 :1 > 10 ,x=1:5/2;,x=2:7 | 20 ,x=1:4;,x=2:3 | 30 ,x=3:1/3
quantile without x > 10 a,x=1,y=1:nan;b,x=2,y=1:2;c,y=2:-inf | 20 a,y=1:inf;b,y=1:-inf | 30 a,x=1:1;a,x=2:3 > 10 :0 | 20 :1 | 30 :1/2 > 10 ,y=1:nan;,y=2:nan | 20 ,y=1:nan | 30 :2
quantile by > 10 a:1;b:2 | 20 a:1 | 30 - > 10 :2 | 20 :-1 | 30 :nan > 10 :inf~2 | 20 :-inf~-1 | 30 -
quantile by > 10 a:1;b:2 | 20 a:1;b:2 | 30 a:1 > 10 :inf | 20 :-inf | 30 -!O > 10 :inf~inf | 20 :-inf~-inf | 30 -!O
quantile by > 10 a:1 | 20 a:1;b:3 | 30 a:1 > 10 :nan | 20 :1/2 | 30 -!I > 10 :nan~nan | 20 :2 | 30 -!I
quantile by x > 10 a,x=1:big;b,x=1:1;a,x=2:6;b,x=2:8 | 20 a,x=2:1 | 30 a,x=1:2!C > 10 :1/3 | 20 :1/3 | 30 :1/3 > 10 ,x=2:20/3!O | 20 ,x=2:1 | 30 ,x=1:2!C
quantile by x > 10 a,x=1:3;b,x=1:1;c,x=1:2 | 20 c,x=1:1;b,x=2:2;a,x=1:4 | 30 a,x=2:9 > 10 :1 | 20 :1/2 | 30 :0 > 10 ,x=1:3 | 20 ,x=1:5/2;,x=2:2 | 30 ,x=2:9";

/// A kernel of an aggregation with its grouping.
fn kernel(alloc: Global, rule: &str) -> Result<Ranked, Fail> {
    let (word, by) = rule.split_once(' ').ok_or("no grouping")?;
    let f = aggregate(word)?;
    if !is_ranking(f) {
        return Err(Fail::new("an aggregation that doesn't rank"));
    }
    let by = grouping(alloc, by)?;
    Ok(Ranked::new(alloc, f, by, Text::of(alloc, "")?)?)
}

/// Feeds steps beside their parameters, and answers whether what is lent are the wanted ones.
fn is_lent(
    kernel: &mut Ranked,
    rows: &Batch<'_>,
    arg: &Batch<'_>,
    wanted: &[(Ms, Step)],
) -> Result<bool, Fail> {
    if !has_same_steps(rows, arg) || !is_scalar(arg) {
        return Err(Fail::new("steps without parameters"));
    }
    kernel.feed(rows, arg)?;
    Ok(are_lent(&kernel.lend(), wanted))
}

fn is_made(alloc: Global, kernel: &mut Ranked, feed: &Feed<'_>) -> Result<bool, Fail> {
    let rows = buffer_of(alloc, feed.rows)?;
    let arg = buffer_of(alloc, feed.first)?;
    is_lent(kernel, &rows.lend(), &arg.lend(), feed.wanted)
}

fn holds(alloc: Global, size: usize, line: &str) -> Result<bool, Fail> {
    let (rule, text) = line.split_once(" > ").ok_or("no rule")?;
    let case = Case::read(alloc, text)?;
    let mut kernel = kernel(alloc, rule)?;
    case.holds(size, |feed| is_made(alloc, &mut kernel, feed))
}

/// The first line that doesn't hold in batches of so many steps.
fn differing(alloc: Global, size: usize) -> Result<&'static str, Fail> {
    line_that_differs(LINES, |line| holds(alloc, size, line))
}

#[test]
fn ranked_kernels_make_steps_in_turn(rt: HostRuntime) -> Result<(), Fail> {
    assert_eq!(rt; differing(rt.alloc(), 1)?, "none");
    Ok(())
}

#[test]
fn ranked_kernels_make_three_steps_at_once(rt: HostRuntime) -> Result<(), Fail> {
    assert_eq!(rt; differing(rt.alloc(), 3)?, "none");
    Ok(())
}
