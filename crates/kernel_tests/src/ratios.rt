use op_ratio::Ratios;
use std::alloc::Global;
use std::test::Fail;
use step_batch::Batch;
use step_table::Step;
use ticks::Ms;
use written_steps::{Case, Feed, are_lent, buffer_of, has_same_steps, line_that_differs};

// Each line is steps of a sum, steps of a count, and steps that are lent.
const LINES: &str =
    "10 ,l=p:6;,l=q:9 | 20 ,l=p:7 | 30 - > 10 ,l=p:2;,l=q:3 | 20 ,l=p:2 | 30 - > 10 ,l=p:3;,l=q:3 | 20 ,l=p:7/2 | 30 -
10 :6 | 20 :5 | 30 :4 > 10 :3 | 20 - | 30 ,l=p:2 > 10 :2 | 20 - | 30 -
10 - | 20 ,l=q:4 | 30 - > 10 ,l=p:2 | 20 ,l=p:2;,l=q:4 | 30 ,l=q:1 > 10 - | 20 ,l=q:1 | 30 -
10 :nan | 20 :inf | 30 :-inf > 10 :2 | 20 :3 | 30 :1 > 10 :nan | 20 :inf | 30 :-inf
10 :1 | 20 :0 | 30 :-1 > 10 :0 | 20 :0 | 30 :0 > 10 :inf | 20 :nan | 30 :-inf
10 :4!O | 20 -!O | 30 :6!I > 10 :2!I | 20 :3!C | 30 :2!O > 10 :2!O!I | 20 -!O!C | 30 :3!O!I
10 ,l=p:big;,l=q:4 | 20 ,l=p:8 | 30 ,l=p:big > 10 ,l=p:1/2;,l=q:2 | 20 ,l=p:2 | 30 ,l=p:1/2 > 10 ,l=q:2!O | 20 ,l=p:4 | 30 -!O
10 ,l=a:2;,l=b:4 | 20 ,l=b:6;,l=c:9 | 30 ,l=a:3;,l=c:8 > 10 ,l=b:2;,l=a:1 | 20 ,l=c:3;,l=b:2 | 30 ,l=c:4;,l=a:3 > 10 ,l=a:2;,l=b:2 | 20 ,l=b:3;,l=c:3 | 30 ,l=a:1;,l=c:2
10 a:4 | 20 b:6 | 30 a:1;b:2 > 10 b:2 | 20 b:3 | 30 b:4;a:2 > 10 - | 20 b:2 | 30 a:1/2;b:1/2
10 :1 | 20 :2 | 30 :3 | 40 - | 50 :5 | 60 ,l=p:6 | 70 ,l=p:7;,l=q:7 | 80 :8 | 90 :9 > 10 :2 | 20 :2 | 30 :2 | 40 :2 | 50 :2 | 60 ,l=p:2 | 70 ,l=q:2;,l=p:2 | 80 - | 90 :3 > 10 :1/2 | 20 :1 | 30 :3/2 | 40 - | 50 :5/2 | 60 ,l=p:3 | 70 ,l=p:7/2;,l=q:7/2 | 80 - | 90 :3";

/// Feeds steps of a sum and of a count, and answers whether what is lent are the wanted ones.
fn is_lent(
    kernel: &mut Ratios,
    sum: &Batch<'_>,
    count: &Batch<'_>,
    wanted: &[(Ms, Step)],
) -> Result<bool, Fail> {
    if !has_same_steps(sum, count) {
        return Err(Fail::new("a side with fewer steps"));
    }
    kernel.feed(sum, count)?;
    Ok(are_lent(&kernel.lend(), wanted))
}

fn is_made(alloc: Global, kernel: &mut Ratios, feed: &Feed<'_>) -> Result<bool, Fail> {
    let sum = buffer_of(alloc, feed.rows)?;
    let count = buffer_of(alloc, feed.first)?;
    is_lent(kernel, &sum.lend(), &count.lend(), feed.wanted)
}

fn holds(alloc: Global, size: usize, line: &str) -> Result<bool, Fail> {
    let case = Case::read(alloc, line)?;
    let mut kernel = Ratios::new(alloc)?;
    case.holds(size, |feed| is_made(alloc, &mut kernel, feed))
}

/// The first line that doesn't hold in batches of so many steps.
fn differing(alloc: Global, size: usize) -> Result<&'static str, Fail> {
    line_that_differs(LINES, |line| holds(alloc, size, line))
}

#[test]
fn ratio_kernels_make_steps_in_turn(rt: HostRuntime) -> Result<(), Fail> {
    assert_eq!(rt; differing(rt.alloc(), 1)?, "none");
    Ok(())
}

#[test]
fn ratio_kernels_make_three_steps_at_once(rt: HostRuntime) -> Result<(), Fail> {
    assert_eq!(rt; differing(rt.alloc(), 3)?, "none");
    Ok(())
}
