use crate::modifiers::pairing;
use label_set::Card;
use op_match::{Joined, are_together};
use std::alloc::Global;
use std::test::Fail;
use step_batch::Batch;
use step_table::Step;
use ticks::Ms;
use written_steps::{Case, Feed, are_lent, buffer_of, line_that_differs, names, operator};

// Each line is an operator with its group word and its labels, steps of the left side, steps of the right side, and steps
// that are lent. Behind `left=` and `right=` stand the labels that are taken over.
const LINES: &str =
    "+ one ignoring= > 10 a,x=1:1;a,x=2:2 | 20 a,x=1:3 | 30 a,x=2:4 > 10 b,x=1:10;b,x=2:20 | 20 b,x=1:30;b,x=2:40 | 30 b,x=1:50;b,x=2:60 > 10 ,x=1:11;,x=2:22 | 20 ,x=1:33 | 30 ,x=2:64
+ one ignoring= > 10 a,x=1:1;a,x=2:2 | 20 - | 30 a,x=2:4 > 10 - | 20 b,x=1:30;b,x=2:40 | 30 b,x=2:60;b,x=1:50 > 10 - | 20 - | 30 ,x=2:64
+ one ignoring= > 10 a,x=2:2 | 20 a,x=1:1;a,x=2:3 | 30 a,x=3:7;a,x=2:4;a,x=1:2 > 10 b,x=2:20 | 20 b,x=2:20;b,x=1:10 | 30 b,x=1:10;b,x=2:20;b,x=3:30 > 10 ,x=2:22 | 20 ,x=1:11;,x=2:23 | 30 ,x=1:12;,x=2:24;,x=3:37
+ one ignoring=y > 10 a,x=1,y=1:1 | 20 a,x=1,y=2:2 | 30 a,x=1,y=1:1;a,x=1,y=2:2 > 10 b,x=1,y=3:5 | 20 c,x=1:6 | 30 b,x=1,y=3:5 > 10 ,x=1:6 | 20 ,x=1:8 | 30 -!M,x=1
- one on=x > 10 a,x=1,y=1:7 | 20 a,x=1,y=1:7;a,x=1,y=2:8 | 30 a,x=1,y=2:9 > 10 b,x=1:2 | 20 b,x=1:2 | 30 b,x=1:3 > 10 ,x=1:5 | 20 -!M,x=1 | 30 ,x=1:6
* one on=x > 10 a,x=1:2;a,x=2:3 | 20 a,x=1:2;a,x=2:3 | 30 a,x=1:2;a,x=2:3 > 10 b,x=1,y=1:5;b,x=2:7 | 20 b,x=1,y=1:5;b,x=1,y=2:6;b,x=2:7 | 30 b,x=1,y=2:6;b,x=2:7 > 10 ,x=1:10;,x=2:21 | 20 ,x=2:21!D,x=1 | 30 ,x=1:12;,x=2:21
+ one on=x > 10 a,x=2:1 | 20 a,x=2:1 | 30 - > 10 b,x=1,y=1:1;b,x=2:2 | 20 b,x=1,y=1:1;b,x=1,y=2:1;b,x=2:2 | 30 b,x=1,y=1:1;b,x=1,y=2:1 > 10 ,x=2:3 | 20 ,x=2:3!D,x=1 | 30 -
+ one on= > 10 a,x=1:1 | 20 a,x=2:2 | 30 a,x=1:1;a,x=2:2 > 10 b:4 | 20 c:5 | 30 b:4 > 10 :5 | 20 :7 | 30 -!M
+ one on=__name__,x > 10 a,x=1:1;b,x=1:2 | 20 a,x=1:1 | 30 b,x=1:2 > 10 a,x=1:10;b,x=1:20 | 20 a,x=1:10;b,x=1:20 | 30 b,x=1:20 > 10 -!S,x=1 | 20 ,x=1:11 | 30 ,x=1:22
* one ignoring= > 10 a,x=1:big;a,x=2:2 | 20 a,x=1:3 | 30 a,x=1:0 > 10 b,x=1:10;b,x=2:5 | 20 b,x=1:5 | 30 b,x=1:inf > 10 ,x=2:10!O | 20 ,x=1:15 | 30 ,x=1:nan
^ one ignoring= > 10 a,x=1:4;a,x=2:2 | 20 a,x=1:4 | 30 a,x=1:big > 10 b,x=1:1/2;b,x=2:3 | 20 b,x=1:2 | 30 b,x=1:2 > 10 ,x=2:8!I | 20 ,x=1:16 | 30 -!O
% one ignoring= > 10 a,x=1:7;a,x=2:-1 | 20 a,x=1:7 | 30 a,x=1:7 > 10 b,x=1:4;b,x=2:3 | 20 b,x=1:0 | 30 b,x=1:inf > 10 ,x=1:3;,x=2:-1 | 20 ,x=1:nan | 30 ,x=1:7
+ one ignoring= > 10 a:1!S,x=9 | 20 -!O | 30 a:2 > 10 b:2!I | 20 b:1!I | 30 -!C > 10 :3!I!S,x=9 | 20 -!O!I | 30 -!C
- one on=x > 10 a,x=1,y=1:1;a,x=1,y=2:2!I | 20 a,x=1,y=1:1!I | 30 a,x=1,y=1:1 > 10 b,x=1:1!O | 20 b,x=1:1!O | 30 b,x=1:3 > 10 -!O!I!M,x=1 | 20 ,x=1:0!O!I | 30 ,x=1:-2
> one ignoring= > 10 a,x=1:5;a,x=2:1 | 20 a,x=1:5 | 30 a,x=1:nan > 10 b,x=1:3;b,x=2:3 | 20 b,x=1:7 | 30 b,x=1:1 > 10 a,x=1:5 | 20 - | 30 -
> one ignoring= > 10 a,x=1:5;c,x=2:4 | 20 c,x=1:5 | 30 a,x=1:6;c,x=1:7 > 10 b,x=1:3;b,x=2:3 | 20 b,x=1:4 | 30 b,x=1:5 > 10 a,x=1:5;c,x=2:4 | 20 c,x=1:5 | 30 -!M,x=1
> one on=x > 10 a,x=1,y=1:5 | 20 a,x=1,y=1:3 | 30 a,x=1,y=2:4 > 10 b,x=1:3 | 20 b,x=1:3 | 30 b,x=1:3 > 10 ,x=1:5 | 20 - | 30 ,x=1:4
== one on=x > 10 a,x=1,y=1:5;a,x=1,y=2:6 | 20 a,x=1,y=1:6;a,x=1,y=2:6 | 30 a,x=1,y=2:6 > 10 b,x=1:5 | 20 b,x=1:6 | 30 b,x=1:7 > 10 ,x=1:5 | 20 -!M,x=1 | 30 -
!= one on=x > 10 a,x=1,y=1:5;a,x=2:6 | 20 a,x=1,y=1:5 | 30 a,x=1,y=1:nan > 10 b,x=1:5;b,x=2:5 | 20 b,x=1:6 | 30 b,x=1:nan > 10 ,x=2:6 | 20 ,x=1:5 | 30 ,x=1:nan
<= one ignoring= > 10 a,x=1:3;a,x=2:9 | 20 a,x=1:3 | 30 a,x=2:9 > 10 b,x=1:3;b,x=2:3 | 20 b,x=1:2 | 30 b,x=2:inf > 10 a,x=1:3 | 20 - | 30 a,x=2:9
>bool one ignoring= > 10 a,x=1:5;a,x=2:1 | 20 a,x=1:nan | 30 - > 10 b,x=1:3;b,x=2:3 | 20 b,x=1:1 | 30 b,x=1:1 > 10 ,x=1:1;,x=2:0 | 20 ,x=1:0 | 30 -
!=bool one on=x > 10 a,x=1,y=1:5 | 20 a,x=1,y=1:5;a,x=1,y=2:6 | 30 a,x=1,y=2:6 > 10 b,x=1:5 | 20 b,x=1:5 | 30 b,x=1:5 > 10 ,x=1:0 | 20 -!M,x=1 | 30 ,x=1:1
<bool one ignoring= > 10 a,x=1:3;a,x=2:1 | 20 a,x=1:nan | 30 a,x=2:1 > 10 b,x=1:3;b,x=2:3 | 20 b,x=1:1 | 30 - > 10 ,x=1:0;,x=2:1 | 20 ,x=1:0 | 30 -
==bool left= on=x > 10 a,x=1,y=1:5;a,x=1,y=2:6 | 20 a,x=1,y=2:5 | 30 a,x=2,y=1:5 > 10 b,x=1:5 | 20 b,x=1:5 | 30 b,x=1:5 > 10 ,x=1,y=1:1;,x=1,y=2:0 | 20 ,x=1,y=2:1 | 30 -
<=bool right= on=x > 10 a,x=1:5 | 20 a,x=1:5 | 30 a,x=1:5 > 10 b,x=1,y=1:5;b,x=1,y=2:4 | 20 b,x=1,y=2:6 | 30 - > 10 ,x=1,y=1:1;,x=1,y=2:0 | 20 ,x=1,y=2:1 | 30 -
/ left= on=x > 10 a,x=1,y=1:6;a,x=1,y=2:8 | 20 a,x=1,y=2:9;a,x=2,y=1:4 | 30 a,x=2,y=1:4 > 10 b,x=1,z=9:2 | 20 b,x=1,z=8:3;b,x=2:2 | 30 b,x=1,z=8:3 > 10 ,x=1,y=1:3;,x=1,y=2:4 | 20 ,x=1,y=2:3;,x=2,y=1:2 | 30 -
* left=z on=x > 10 a,x=1,y=1:2;a,x=1,y=2:3 | 20 a,x=1,y=1:2 | 30 a,x=1,y=2,z=old:3 > 10 b,x=1,z=p:5 | 20 b,x=1,z=q:5 | 30 b,x=1:5 > 10 ,x=1,y=1,z=p:10;,x=1,y=2,z=p:15 | 20 ,x=1,y=1,z=q:10 | 30 ,x=1,y=2:15
* left=z,__name__ on=x > 10 a,x=1,y=1:2 | 20 a,x=1,y=1:2 | 30 a,x=1,y=1:2 > 10 b,x=1,z=p:5 | 20 ,x=1,z=p:5 | 30 b,x=1,z=p:6 > 10 b,x=1,y=1,z=p:10 | 20 ,x=1,y=1,z=p:10 | 30 b,x=1,y=1,z=p:12
* left=z on=x > 10 a,x=1:2 | 20 a,x=1:2 | 30 a,x=1:2 > 10 b,x=1,z=p:5 | 20 b,x=1,z=p:5;b,x=1,z=q:6 | 30 b,x=1,z=q:6 > 10 ,x=1,z=p:10 | 20 -!D,x=1 | 30 ,x=1,z=q:12
+ left=y on=x > 10 a,x=1,y=1:1;a,x=1,y=2:2;a,x=3:5 | 20 a,x=1,y=1:1 | 30 a,x=1,y=2:2;a,x=3:5 > 10 b,x=1,y=k:10;b,x=3:1 | 20 b,x=1,y=k:10 | 30 b,x=1,y=k:10;b,x=3,y=m:1 > 10 ,x=3:6!R,x=1,y=k | 20 ,x=1,y=k:11 | 30 ,x=1,y=k:12;,x=3,y=m:6
+ left= ignoring=y > 10 a,x=1,y=1:1;b,x=1,y=1:2;a,x=1,y=2:3 | 20 b,x=1,y=1:2;a,x=1,y=2:3 | 30 a,x=1,y=1:1 > 10 c,x=1:4 | 20 c,x=1:4 | 30 c,x=1:4 > 10 ,x=1,y=2:7!R,x=1,y=1 | 20 ,x=1,y=1:6;,x=1,y=2:7 | 30 ,x=1,y=1:5
< left= on=x > 10 a,x=1,y=1:5;b,x=1,y=2:1 | 20 a,x=1,y=1:1;b,x=1,y=2:1 | 30 b,x=1,y=2:1 > 10 c,x=1:3 | 20 c,x=1:3 | 30 - > 10 b,x=1,y=2:1 | 20 a,x=1,y=1:1;b,x=1,y=2:1 | 30 -
>=bool left=z on=x > 10 a,x=1,y=1:5;b,x=1,y=2:1 | 20 a,x=1,y=1:3 | 30 b,x=1,y=2:1 > 10 c,x=1,z=p:3 | 20 c,x=1,z=p:3 | 30 c,x=1,z=q:3 > 10 ,x=1,y=1,z=p:1;,x=1,y=2,z=p:0 | 20 ,x=1,y=1,z=p:1 | 30 ,x=1,y=2,z=q:0
- right=z ignoring=y,z > 10 a,x=1,z=p:10 | 20 a,x=1,z=q:10 | 30 a,x=1,z=p:1;a,x=1,z=q:2 > 10 b,x=1,y=1:3;b,x=1,y=2:4 | 20 b,x=1,y=1:3 | 30 b,x=1,y=1:3 > 10 ,x=1,y=1,z=p:7;,x=1,y=2,z=p:6 | 20 ,x=1,y=1,z=q:7 | 30 -!D,x=1
> right= on=x > 10 a,x=1:5 | 20 a,x=1:2 | 30 - > 10 b,x=1,y=1:3;b,x=1,y=2:9 | 20 b,x=1,y=1:3 | 30 b,x=1,y=1:3 > 10 b,x=1,y=1:5 | 20 - | 30 -
/ right= on=x > 10 a,x=1:12;a,x=2:8 | 20 a,x=1:12 | 30 a,x=1:12!I > 10 b,x=1,y=1:3;b,x=1,y=2:4;b,x=2:2 | 20 b,x=1,y=1:3;b,x=2:2 | 30 b,x=1,y=1:3!O > 10 ,x=1,y=1:4;,x=1,y=2:3;,x=2:4 | 20 ,x=1,y=1:4 | 30 ,x=1,y=1:4!O!I
+ left=z on=l0 > 10 ,#64:1 | 20 a,#63:1;a,l0=v:2 | 30 ,#64:1 > 10 b,l0=v,z=p:2 | 20 b,l0=v,z=p:2 | 30 b,l0=v:2 > 10 -!O | 20 ,#63,z=p:3;,l0=v,z=p:4 | 30 ,#64:3
> left=z on=l0 > 10 a,#63:9 | 20 a,#63:1 | 30 a,#62:9 > 10 b,l0=v,z=p:2 | 20 b,l0=v,z=p:2 | 30 b,l0=v,z=p:2 > 10 -!O | 20 - | 30 a,#62,z=p:9";

fn card(word: &str) -> Result<Card, Fail> {
    match word {
        "one" => Ok(Card::OneToOne),
        "left" => Ok(Card::GroupLeft),
        "right" => Ok(Card::GroupRight),
        _ => Err("no such group word")?,
    }
}

/// A kernel of an operator, a group word and a matching.
fn kernel(alloc: Global, rule: &str) -> Result<Joined, Fail> {
    let (word, rest) = rule.split_once(' ').ok_or("no group word")?;
    let (group, matching) = rest.split_once(' ').ok_or("no matching")?;
    let (group, listed) = group.split_once('=').unwrap_or((group, ""));
    let op = operator(word)?;
    let card = card(group)?;
    let extra = names(alloc, listed)?;
    let pairing = pairing(alloc, matching, card, extra)?;
    Ok(Joined::new(alloc, op, pairing)?)
}

/// Feeds steps of both sides, and answers whether what is lent are the wanted ones.
fn is_lent(
    kernel: &mut Joined,
    left: &Batch<'_>,
    right: &Batch<'_>,
    wanted: &[(Ms, Step)],
) -> Result<bool, Fail> {
    if !are_together(left, right) {
        return Err(Fail::new("sides of other instants"));
    }
    kernel.feed(left, right)?;
    Ok(are_lent(&kernel.lend(), wanted))
}

fn is_made(alloc: Global, kernel: &mut Joined, feed: &Feed<'_>) -> Result<bool, Fail> {
    let left = buffer_of(alloc, feed.rows)?;
    let right = buffer_of(alloc, feed.first)?;
    is_lent(kernel, &left.lend(), &right.lend(), feed.wanted)
}

fn holds(alloc: Global, size: usize, line: &str) -> Result<bool, Fail> {
    let (rule, text) = line.split_once(" > ").ok_or("no rule")?;
    let case = Case::read(alloc, text)?;
    let mut kernel = kernel(alloc, rule)?;
    case.holds(size, |feed| is_made(alloc, &mut kernel, feed))
}

/// The first line that doesn't hold in batches of so many steps.
fn differing(alloc: Global, size: usize) -> Result<&'static str, Fail> {
    line_that_differs(LINES, |line| holds(alloc, size, line))
}

#[test]
fn joins_make_steps_in_turn(rt: HostRuntime) -> Result<(), Fail> {
    assert_eq!(rt; differing(rt.alloc(), 1)?, "none");
    Ok(())
}

#[test]
fn joins_make_three_steps_at_once(rt: HostRuntime) -> Result<(), Fail> {
    assert_eq!(rt; differing(rt.alloc(), 3)?, "none");
    Ok(())
}
