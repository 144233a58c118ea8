ghost use Rattle.std.specs.Prelude.{IsTrue};
ghost use Rattle.step_batch.specs.LentWindows.{TimesRise};

use crate::conditions::rise;
use label_set::Items;
use op_small::{Small, SmallRule};
use std::alloc::Global;
use std::test::Fail;
use step_table::Step;
use ticks::Ms;
use written_steps::{are_lent, buffer_of, labels, line_that_differs, parted, steps, value};

// Each line is a rule, steps that are fed, and steps that are lent. A row is its metric's name and its labels, and a value behind
// a colon; `-` is no row. A mark is the letter of its kind and its labels, behind `!`.
const LINES: &str = "number:5 > 10 a:1 | 20 - | 30 - > 10 :5 | 20 :5 | 30 :5
number:5 > 10 a:1!O > 10 :5
number:nan > 10 - > 10 :nan
time > 0 - | 1 - | 30000 a:1!O > 0 :0 | 1 :1/1000 | 30000 :30
time > -1500 - > -1500 :-3/2
own > 10 a,x=1:1/2;a,x=2:3 | 20 - | 30 a,x=2:4!O > 10 ,x=1:1/2;,x=2:3 | 20 - | 30 ,x=2:4!O
own > 10 a,x=1:1;b,x=1:2;c,x=2:3 | 20 a,x=1:1 > 10 ,x=2:3!S,x=1 | 20 ,x=1:1
instant > 10 a,x=1:7;a,x=2:8 | 2000 a,x=1:7 > 10 ,x=1:1/100;,x=2:1/100 | 2000 ,x=1:2
instant > 10 a:7;b:8 | 20 b:8 | 30 a:7;b:8!O > 10 -!S | 20 :1/50 | 30 -!O!S
scalar > 10 a,x=1:7 | 20 - | 30 a,x=1:7;a,x=2:8 > 10 :7 | 20 :nan | 30 :nan
scalar > 10 a:7!O | 20 -!O > 10 :7!O | 20 :nan!O
vector > 10 :7 | 20 -!O | 30 :8!I > 10 :7 | 20 -!O | 30 :8!I
absent:x=1 > 10 - | 20 a:1 | 30 -!O > 10 ,x=1:1 | 20 - | 30 ,x=1:1!O
absent:x=1 > 10 a:1;b:2 | 20 - | 30 - > 10 - | 20 ,x=1:1 | 30 ,x=1:1
absent > 10 - | 20 a:1!I > 10 :1 | 20 -!I
beyond > 10 - | 20 a:1 > 10 -!O | 20 -";

fn rule(alloc: Global, word: &str) -> Result<SmallRule, Fail> {
    let (name, given) = word.split_once(':').unwrap_or((word, ""));
    match name {
        "number" => Ok(SmallRule::Number(value(given)?)),
        "time" => Ok(SmallRule::Time),
        "own" => Ok(SmallRule::Stamp { own: true }),
        "instant" => Ok(SmallRule::Stamp { own: false }),
        "scalar" => Ok(SmallRule::Scalar),
        "vector" => Ok(SmallRule::Vector),
        "beyond" => Ok(SmallRule::Absent(None)),
        "absent" => Ok(SmallRule::Absent(Some(labels(alloc, given)?))),
        _ => Err("no such rule")?,
    }
}

/// The instants of steps.
fn instants(alloc: Global, steps: &[(Ms, Step)]) -> Result<Items<Ms>, Fail> {
    let mut at = Items::new(alloc);
    for (t, _) in steps {
        at.push(*t)?;
    }
    Ok(at)
}

/// Whether instants rise.
#[tactic(auto, using(crate::proofs::Follows::rise_rises))]
fn do_rise(at: &[Ms]) -> bool
    ensures { IsTrue result → TimesRise at.now }
{
    rise(at)
}

/// Feeds steps, and answers whether what is lent are the wanted ones.
fn is_fed(
    alloc: Global,
    kernel: &mut Small,
    fed: &[(Ms, Step)],
    wanted: &[(Ms, Step)],
) -> Result<bool, Fail> {
    let buffer = buffer_of(alloc, fed)?;
    let at = instants(alloc, fed)?;
    if !do_rise(at.as_slice()) {
        return Err("instants that do not rise")?;
    }
    kernel.feed(at.as_slice(), &buffer.lend())?;
    Ok(are_lent(&kernel.lend(), wanted))
}

/// Feeds so many steps at once, three times.
fn are_fed(
    alloc: Global,
    kernel: &mut Small,
    size: usize,
    fed: &[(Ms, Step)],
    wanted: &[(Ms, Step)],
) -> Result<bool, Fail> {
    let (mut fed, mut wanted) = (fed, wanted);
    for _ in 0..3 {
        let (some, more_fed) = parted(fed, size);
        let (made, more_wanted) = parted(wanted, size);
        if !is_fed(alloc, kernel, some, made)? {
            return Ok(false);
        }
        fed = more_fed;
        wanted = more_wanted;
    }
    Ok(fed.is_empty() && wanted.is_empty())
}

fn holds(alloc: Global, size: usize, line: &str) -> Result<bool, Fail> {
    let (word, rest) = line.split_once(" > ").ok_or("no steps")?;
    let (fed, wanted) = rest.split_once(" > ").ok_or("no lent steps")?;
    let fed = steps(alloc, fed)?;
    let wanted = steps(alloc, wanted)?;
    let mut kernel = Small::new(alloc, rule(alloc, word)?)?;
    are_fed(alloc, &mut kernel, size, fed.as_slice(), wanted.as_slice())
}

/// The first line that doesn't hold in batches of so many steps.
fn differing(alloc: Global, size: usize) -> Result<&'static str, Fail> {
    line_that_differs(LINES, |line| holds(alloc, size, line))
}

#[test]
fn small_kernels_make_steps_in_turn(rt: HostRuntime) -> Result<(), Fail> {
    assert_eq!(rt; differing(rt.alloc(), 1)?, "none");
    Ok(())
}

#[test]
fn small_kernels_make_three_steps_at_once(rt: HostRuntime) -> Result<(), Fail> {
    assert_eq!(rt; differing(rt.alloc(), 3)?, "none");
    Ok(())
}
