use crate::modifiers::pairing;
use func_table::SetOp;
use label_set::{Card, Items};
use op_set::Combined;
use std::alloc::Global;
use std::test::Fail;
use step_batch::Batch;
use step_table::Step;
use ticks::Ms;
use written_steps::{Case, Feed, are_lent, buffer_of, has_same_steps, line_that_differs};

// Each line is an operator with its matching, steps of its left and of its right side, and steps that are lent.
const LINES: &str =
    "and > 10 a,x=1:1;a,x=2:2 | 20 a,x=2:3 | 30 a,x=1:4;a,x=3:5 > 10 b,x=1:9 | 20 b,x=1:9;b,x=2:8 | 30 b,x=3:7 > 10 a,x=1:1 | 20 a,x=2:3 | 30 a,x=3:5
and > 10 a:1 | 20 a:2 | 30 a:3 > 10 - | 20 b:5 | 30 - > 10 - | 20 a:2 | 30 -
and > 10 - | 20 a:2 | 30 - > 10 b:1 | 20 b:1 | 30 b:1 > 10 - | 20 a:2 | 30 -
and > 10 a:1!O | 20 a:2 | 30 -!S,x=1 > 10 b:1!I | 20 -!C | 30 b:1!S,x=2 > 10 a:1!O!I | 20 -!C | 30 -!S,x=1!S,x=2
and > 10 a:nan;b:inf | 20 a:1/2;c:-inf | 30 b:0 > 10 c:0 | 20 d:nan | 30 e:1 > 10 a:nan;b:inf | 20 a:1/2;c:-inf | 30 b:0
and > 10 a,x=1:1;b,x=1:2 | 20 b,x=1:3 | 30 a,x=1:4 > 10 c,x=1:0;d,x=1:0 | 20 c,x=2:0 | 30 d,x=1:0 > 10 a,x=1:1;b,x=1:2 | 20 - | 30 a,x=1:4
and on=l > 10 a,i=1,l=p:1;a,i=2,l=q:2 | 20 a,i=1,l=p:3 | 30 a,i=2,l=q:4;a,i=3:5 > 10 b,l=p:9 | 20 b,l=q:9 | 30 b,l=q:9;c,k=1:0 > 10 a,i=1,l=p:1 | 20 - | 30 a,i=2,l=q:4;a,i=3:5
and on= > 10 a,x=1:1;a,x=2:2 | 20 a,x=1:3 | 30 - > 10 b,y=1:0 | 20 - | 30 b,y=1:0 > 10 a,x=1:1;a,x=2:2 | 20 - | 30 -
and on=__name__ > 10 x:1;y:2 | 20 x:1;y:2 | 30 y:2 > 10 y:7 | 20 x,a=1:7 | 30 z:1 > 10 y:2 | 20 x:1 | 30 -
and ignoring=j > 10 a,i=1,j=1:1;a,i=2,j=1:2 | 20 a,i=1,j=1:3 | 30 a,i=2,j=2:4 > 10 b,i=2,j=7:0 | 20 b,i=1:0 | 30 b,i=1,j=2:0 > 10 a,i=2,j=1:2 | 20 a,i=1,j=1:3 | 30 -
unless > 10 a,x=1:1;a,x=2:2 | 20 a,x=2:3 | 30 a,x=1:4;a,x=3:5 > 10 b,x=1:9 | 20 b,x=1:9;b,x=2:8 | 30 b,x=3:7 > 10 a,x=2:2 | 20 - | 30 a,x=1:4
unless > 10 a:1 | 20 a:2 | 30 - > 10 - | 20 b:5 | 30 b:5 > 10 a:1 | 20 - | 30 -
unless > 10 a:1!O | 20 -!C | 30 a:2 > 10 b:1!I | 20 -!C | 30 -!D,x=1 > 10 -!O!I | 20 -!C | 30 a:2!D,x=1
unless on=l > 10 a,i=1,l=p:1;a,i=2,l=q:2 | 20 a,i=1,l=p:3 | 30 a,i=2,l=q:4;a,i=3:5 > 10 b,l=p:9 | 20 b,l=q:9 | 30 b,l=q:9;c,k=1:0 > 10 a,i=2,l=q:2 | 20 a,i=1,l=p:3 | 30 -
unless on= > 10 a,x=1:1;a,x=2:2 | 20 a,x=1:3 | 30 - > 10 b,y=1:0 | 20 - | 30 b,y=1:0 > 10 - | 20 a,x=1:3 | 30 -
unless ignoring=j > 10 a,i=1,j=1:1;a,i=2,j=1:2 | 20 a,i=1,j=1:3 | 30 a,i=2,j=2:4 > 10 b,i=2,j=7:0 | 20 b,i=1:0 | 30 b,i=1,j=2:0 > 10 a,i=1,j=1:1 | 20 - | 30 a,i=2,j=2:4
or > 10 a,x=1:1 | 20 a,x=1:2 | 30 - > 10 b,x=1:9;b,x=2:8 | 20 b,x=2:7 | 30 b,x=1:6 > 10 a,x=1:1;b,x=2:8 | 20 a,x=1:2;b,x=2:7 | 30 b,x=1:6
or > 10 - | 20 a:1 | 30 - > 10 b:2 | 20 - | 30 - > 10 b:2 | 20 a:1 | 30 -
or > 10 a:1!O | 20 -!I | 30 a:2 > 10 b,x=1:2!S,a=1 | 20 b:3!O | 30 -!C > 10 a:1;b,x=1:2!O!S,a=1 | 20 b:3!O!I | 30 a:2!C
or > 10 a,x=1:1;a,x=2:2 | 20 a,x=2:2 | 30 - > 10 a,x=3:9;a,x=1:8 | 20 a,x=3:7;a,x=1:6;a,x=2:5 | 30 a,x=2:4;a,x=1:3 > 10 a,x=1:1;a,x=2:2;a,x=3:9 | 20 a,x=2:2;a,x=3:7;a,x=1:6 | 30 a,x=2:4;a,x=1:3
or > 10 a,x=1:1 | 20 a,x=1:1;a,x=2:2 | 30 a,x=1:3;a,x=2:4;a,x=3:5 > 10 a,x=2:9 | 20 a,x=2:8;a,x=3:7 | 30 a,x=2:1;a,x=3:1;a,x=4:6 > 10 a,x=1:1;a,x=2:9 | 20 a,x=1:1;a,x=2:2;a,x=3:7 | 30 a,x=1:3;a,x=2:4;a,x=3:5;a,x=4:6
or > 10 a,x=1:1 | 20 a,x=1:1;a,x=4:2 | 30 a,x=1:1;a,x=4:2;a,x=3:3 > 10 b,x=2:5;b,x=3:6 | 20 b,x=2:5;b,x=3:6 | 30 b,x=2:5;b,x=3:6 > 10 a,x=1:1;b,x=2:5;b,x=3:6 | 20 a,x=1:1;a,x=4:2;b,x=2:5;b,x=3:6 | 30 a,x=1:1;a,x=4:2;a,x=3:3;b,x=2:5
or on=i > 10 x,i=1:1 | 20 x,i=1:1;x,i=3:3 | 30 x,i=2:5 > 10 y,i=2,j=1:2;y,i=2,j=2:3 | 20 y,i=2,j=1:2;y,i=3,j=9:4 | 30 y,i=2,j=1:2;y,i=1,j=1:7 > 10 x,i=1:1;y,i=2,j=1:2;y,i=2,j=2:3 | 20 x,i=1:1;x,i=3:3;y,i=2,j=1:2 | 30 x,i=2:5;y,i=1,j=1:7
or on= > 10 a:1 | 20 - | 30 a:1 > 10 b,x=1:2 | 20 b,x=1:2;c:3 | 30 - > 10 a:1 | 20 b,x=1:2;c:3 | 30 a:1
or on=__name__ > 10 x:1;y:2 | 20 y:2 | 30 - > 10 x,a=1:3;z:4 | 20 x,a=1:5 | 30 x,a=1:6;x:7 > 10 x:1;y:2;z:4 | 20 y:2;x,a=1:5 | 30 x,a=1:6;x:7
or ignoring=j > 10 a,i=1,j=1:1 | 20 a,i=1,j=1:1 | 30 a,i=1,j=1:1 > 10 a,i=1,j=2:2 | 20 a,i=2,j=2:2 | 30 b,i=1:2;b,j=1:3 > 10 a,i=1,j=1:1 | 20 a,i=1,j=1:1;a,i=2,j=2:2 | 30 a,i=1,j=1:1;b,j=1:3
and > 10 a,x=1:1;a,x=2:2;a,x=3:3 | 20 a,x=1:1;a,x=4:5;a,x=3:3 | 30 a,x=1:1;a,x=2:2;a,x=3:3 > 10 b,x=2:0;b,x=3:0 | 20 b,x=2:0;b,x=3:0 | 30 b,x=2:0;b,x=3:0 > 10 a,x=2:2;a,x=3:3 | 20 a,x=3:3 | 30 a,x=2:2;a,x=3:3
and > 10 a,x=1:1;a,x=2:2 | 20 a,x=1:1;a,x=2:2 | 30 a,x=1:1;a,x=2:2 > 10 b,x=1:0;b,x=3:0 | 20 b,x=2:0;b,x=3:0 | 30 b,x=2:0;b,x=1:0 > 10 a,x=1:1 | 20 a,x=2:2 | 30 a,x=1:1;a,x=2:2
and > 10 a,x=1:1 | 20 a,x=2:2 | 30 a,x=3:3 | 40 a,x=4:4 | 50 a,x=5:5 | 60 a,x=6:6 | 70 a,x=7:7 | 80 a,x=8:8 | 90 a,x=9:9 > 10 b,x=1:0 | 20 b,x=2:0 | 30 b,x=9:0 | 40 b,x=4:0 | 50 b,x=1:0 | 60 b,x=6:0 | 70 b,x=7:0 | 80 b,x=1:0 | 90 b,x=9:0 > 10 a,x=1:1 | 20 a,x=2:2 | 30 - | 40 a,x=4:4 | 50 - | 60 a,x=6:6 | 70 a,x=7:7 | 80 - | 90 a,x=9:9
unless > 10 a,x=1:1;a,x=2:2;a,x=3:3 | 20 a,x=1:1;a,x=2:2;a,x=3:3 | 30 a,x=1:1;a,x=2:2;a,x=3:3 | 40 a,x=1:1;a,x=2:2;a,x=3:3 | 50 a,x=1:1;a,x=2:2;a,x=3:3 | 60 a,x=1:1;a,x=2:2;a,x=3:3 | 70 a,x=1:1;a,x=2:2;a,x=3:3 | 80 a,x=1:1;a,x=2:2;a,x=3:3 | 90 a,x=1:1;a,x=2:2;a,x=3:3 > 10 b,x=1:0;b,x=2:0 | 20 b,x=1:0 | 30 b,x=2:0 | 40 b,x=3:0;b,x=2:0 | 50 b,x=3:0 | 60 b,x=2:0 | 70 b,x=3:0;b,x=1:0 | 80 b,x=3:0 | 90 b,x=1:0 > 10 a,x=3:3 | 20 a,x=2:2;a,x=3:3 | 30 a,x=1:1;a,x=3:3 | 40 a,x=1:1 | 50 a,x=1:1;a,x=2:2 | 60 a,x=1:1;a,x=3:3 | 70 a,x=2:2 | 80 a,x=1:1;a,x=2:2 | 90 a,x=2:2;a,x=3:3
or > 10 a,x=1:1;a,x=2:2 | 20 a,x=5:3;a,x=2:4 | 30 a,x=5:5;a,x=6:6 > 10 b,x=2:7;b,x=3:8;b,x=4:9 | 20 b,x=2:7;b,x=6:8;b,x=4:9 | 30 b,x=1:7;b,x=6:8;b,x=4:9 > 10 a,x=1:1;a,x=2:2;b,x=3:8;b,x=4:9 | 20 a,x=5:3;a,x=2:4;b,x=6:8;b,x=4:9 | 30 a,x=5:5;a,x=6:6;b,x=1:7;b,x=4:9
or > 10 a,x=1:1;a,x=2:2 | 20 a,x=2:3 | 30 a,x=1:4 | 40 a,x=5:1;a,x=2:2 | 50 a,x=2:3 | 60 a,x=5:4 | 70 a,x=5:1;a,x=6:2 | 80 a,x=6:3 | 90 a,x=5:4 > 10 b,x=2:7;b,x=3:8 | 20 b,x=3:8 | 30 b,x=2:7 | 40 b,x=2:7;b,x=1:9 | 50 b,x=1:9 | 60 b,x=2:7 | 70 b,x=5:6;b,x=1:9 | 80 b,x=5:6;b,x=1:9 | 90 b,x=5:6 > 10 a,x=1:1;a,x=2:2;b,x=3:8 | 20 a,x=2:3;b,x=3:8 | 30 a,x=1:4;b,x=2:7 | 40 a,x=5:1;a,x=2:2;b,x=1:9 | 50 a,x=2:3;b,x=1:9 | 60 a,x=5:4;b,x=2:7 | 70 a,x=5:1;a,x=6:2;b,x=1:9 | 80 a,x=6:3;b,x=5:6;b,x=1:9 | 90 a,x=5:4
or on=i > 10 x,i=1,j=1:1;x,i=2:2 | 20 x,i=1,j=2:3;x,i=2:2 | 30 x,i=1,j=2:3;x,i=3:2 > 10 y,i=1:5;y,i=3:6 | 20 y,i=1:5;y,i=3:6 | 30 y,i=2:5;y,i=3:6 > 10 x,i=1,j=1:1;x,i=2:2;y,i=3:6 | 20 x,i=1,j=2:3;x,i=2:2;y,i=3:6 | 30 x,i=1,j=2:3;x,i=3:2;y,i=2:5";

fn operator(word: &str) -> Result<SetOp, Fail> {
    match word {
        "and" => Ok(SetOp::And),
        "unless" => Ok(SetOp::Unless),
        "or" => Ok(SetOp::Or),
        _ => Err("no such operator")?,
    }
}

fn kernel(alloc: Global, rule: &str) -> Result<Combined, Fail> {
    let (word, matching) = rule.split_once(' ').unwrap_or((rule, ""));
    let op = operator(word)?;
    let pairing = pairing(alloc, matching, Card::OneToOne, Items::new(alloc))?;
    Ok(Combined::new(alloc, op, pairing)?)
}

/// Feeds steps of both sides, and answers whether what is lent are the wanted ones.
fn is_lent(
    kernel: &mut Combined,
    left: &Batch<'_>,
    right: &Batch<'_>,
    wanted: &[(Ms, Step)],
) -> Result<bool, Fail> {
    if !has_same_steps(left, right) {
        return Err(Fail::new("a side with fewer steps"));
    }
    kernel.feed(left, right)?;
    Ok(are_lent(&kernel.lend(), wanted))
}

fn is_made(alloc: Global, kernel: &mut Combined, feed: &Feed<'_>) -> Result<bool, Fail> {
    let left = buffer_of(alloc, feed.rows)?;
    let right = buffer_of(alloc, feed.first)?;
    is_lent(kernel, &left.lend(), &right.lend(), feed.wanted)
}

fn holds(alloc: Global, size: usize, line: &str) -> Result<bool, Fail> {
    let (rule, text) = line.split_once(" > ").ok_or("no rule")?;
    let case = Case::read(alloc, text)?;
    let mut kernel = kernel(alloc, rule)?;
    case.holds(size, |feed| is_made(alloc, &mut kernel, feed))
}

/// The first line that doesn't hold in batches of so many steps.
fn differing(alloc: Global, size: usize) -> Result<&'static str, Fail> {
    line_that_differs(LINES, |line| holds(alloc, size, line))
}

#[test]
fn set_kernels_make_steps_in_turn(rt: HostRuntime) -> Result<(), Fail> {
    assert_eq!(rt; differing(rt.alloc(), 1)?, "none");
    Ok(())
}

#[test]
fn set_kernels_make_three_steps_at_once(rt: HostRuntime) -> Result<(), Fail> {
    assert_eq!(rt; differing(rt.alloc(), 3)?, "none");
    Ok(())
}
