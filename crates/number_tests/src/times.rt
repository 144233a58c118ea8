//! Durations, grids and walks.
ghost use Rattle.std.specs.Prelude.{◌+◌, ◌^◌, ◌<◌, IfOk};
ghost use Rattle.ticks.specs.Near.{AreNear};
ghost use Rattle.ticks.specs.Walks.{LeadsToTimes};

use holders::Boxed;
use std::alloc::{AllocError, Global};
use std::test::Fail;
use ticks::{
    Grid, Ms, TickRefusal, Walk, WalkMoment, durations_are_found, instants_are_numbered,
    read_duration, spellings_are_durations, walks_keep_to_times, write_duration,
};

// Each line is a text and the milliseconds of its duration, or why it is refused.
const READ: &str = "0s=0
0y0w=0
007ms=7
1s1ms=1001
1m1ms=60001
90m=5400000
1h30m=5400000
1y2w3d4h5m6s7ms=33019506007
99y365d=3153600000000
36500d=3153600000000
100y=3153600000000
100y1ms=out of range
3153600000001ms=out of range
18446744073709551617ms=out of range
99999999999999999999999999y=out of range
=no duration
h=no duration
1=no duration
30m1h=no duration
1h1h=no duration
1ms1s=no duration
1ms1m=no duration
1h =no duration
 1h=no duration
1H=no duration
1.5h=no duration
-1h=no duration
5min=no duration
1hm=no duration
1_0s=no duration
1y 2d=no duration
1µs=no duration
99999999999999999999y1=no duration";

// Each line is a number of milliseconds and its spelling.
const WRITTEN: &str = "0=0s
1=1ms
-1=-1ms
61001=1m1s1ms
5400000=1h30m
-5400000=-1h30m
31449600000=52w
31535999999=52w23h59m59s999ms
34560000000=1y5w
3153600000000=100y
9223372036854775807=292471208y35w2d7h12m55s807ms
-9223372036854775808=-292471208y35w2d7h12m55s808ms";

// Each line is a start, an end and a step in milliseconds, and how many instants that grid has, or why it is refused.
const GRIDS: &str = "0 0 1=1
0 9 3=4
0 10 3=4
0 1 9223372036854775807=1
0 10999 1=11000
0 11000 1=too many steps
100000000000000 100000000000000 1=1
-100000000000000 100000000000000 100000000000000=3
-100000000000000 100000000000000 1=too many steps
100000000000000 100000000000001 1=out of range
-100000000000001 -100000000000000 1=out of range
-9223372036854775808 9223372036854775807 1=out of range
5 4 1=out of range
0 1 0=out of range
0 11000 -1=out of range";

fn told(alloc: Global, answer: Result<i64, TickRefusal>) -> Result<String, AllocError> {
    match answer {
        Ok(number) => format!(in alloc; "{number}"),
        Err(refusal) => format!(in alloc; "{refusal}"),
    }
}

fn number(word: Option<&str>) -> i64 {
    word.unwrap_or("").parse().unwrap_or(7)
}

#[test]
fn durations_and_grids(rt: HostRuntime) -> Result<(), Fail> {
    durations_are_found();
    spellings_are_durations();
    instants_are_numbered();
    for line in READ.split('\n') {
        let mut parts = line.split('=');
        let answer = read_duration(parts.next().unwrap_or("")).map(|at| at.0);
        assert_eq!(rt;
            told(rt.alloc(), answer)?.as_str(),
            parts.next().unwrap_or(""),
            "{line}"
        );
    }
    for line in WRITTEN.split('\n') {
        let mut parts = line.split('=');
        let mut into = Vec::new(rt.alloc());
        write_duration(Ms(number(parts.next())), &mut into)?;
        assert_eq!(rt;
            into.as_slice(),
            parts.next().unwrap_or("").as_bytes(),
            "{line}"
        );
    }
    for line in GRIDS.split('\n') {
        let mut parts = line.split('=');
        let mut words = parts.next().unwrap_or("").split(' ');
        let start = Ms(number(words.next()));
        let end = Ms(number(words.next()));
        let grid = Grid::of(start, end, Ms(number(words.next())));
        let answer = told(rt.alloc(), grid.map(|grid| grid.steps() as i64))?;
        assert_eq!(rt; answer.as_str(), parts.next().unwrap_or(""), "{line}");
    }
    Ok(())
}

#[test]
fn walks_are_copied_whole(rt: HostRuntime) -> Result<(), Fail> {
    let walk = Walk::Multiples {
        outer: Boxed::new(rt.alloc(), Walk::Fixed(Ms(60)))?,
        moment: WalkMoment {
            fixed: None,
            offset: Ms(5),
            closed: true,
        },
        range: Ms(30),
        step: Ms(10),
    };
    assert!(rt; walk.copy()? == walk);
    Ok(())
}

/// A subquery over a grid or a time.
fn subquery(
    alloc: Global,
    outer: Walk,
    offset: i32,
    closed: bool,
    range: u16,
    step: u16,
) -> Result<Walk, AllocError>
    requires times { LeadsToTimes outer }
    requires near { AreNear (10 ^ 14) outer }
    requires range { 0 < range }
    requires step { 0 < step }
    ensures times { IfOk result (λ walk. LeadsToTimes walk) }
    ensures near { IfOk result (λ walk. AreNear (10 ^ 14 + 2 ^ 41) walk) }
{
    walks_keep_to_times();
    let outer = Boxed::new(alloc, outer)?;
    Ok(Walk::Multiples {
        outer,
        moment: WalkMoment {
            fixed: None,
            offset: Ms(offset as i64),
            closed,
        },
        range: Ms(range as i64),
        step: Ms(step as i64),
    })
}

/// A subquery over a subquery over a grid.
fn over_subquery(
    alloc: Global,
    outer: Walk,
    offset: i32,
    closed: bool,
    range: u16,
    step: u16,
) -> Result<Walk, AllocError>
    requires times { LeadsToTimes outer }
    requires near { AreNear (10 ^ 14 + 2 ^ 41) outer }
    requires range { 0 < range }
    requires step { 0 < step }
    ensures { IfOk result (λ walk. LeadsToTimes walk) }
{
    walks_keep_to_times();
    let outer = Boxed::new(alloc, outer)?;
    Ok(Walk::Multiples {
        outer,
        moment: WalkMoment {
            fixed: None,
            offset: Ms(offset as i64),
            closed,
        },
        range: Ms(range as i64),
        step: Ms(step as i64),
    })
}

/// A subquery whose moment is the time that its `@` names, less the offset.
fn pinned(
    alloc: Global,
    outer: Walk,
    at: i32,
    offset: i32,
    closed: bool,
    range: u16,
    step: u16,
) -> Result<Walk, AllocError>
    requires times { LeadsToTimes outer }
    requires range { 0 < range }
    requires step { 0 < step }
    ensures { IfOk result (λ walk. LeadsToTimes walk) }
{
    walks_keep_to_times();
    let outer = Boxed::new(alloc, outer)?;
    Ok(Walk::Multiples {
        outer,
        moment: WalkMoment {
            fixed: Some(Ms(at as i64)),
            offset: Ms(offset as i64),
            closed,
        },
        range: Ms(range as i64),
        step: Ms(step as i64),
    })
}

/// The instants of a walk, each with a space before it; of more than 64 the first ones.
fn listed(alloc: Global, walk: &Walk) -> Result<String, AllocError>
    requires { LeadsToTimes walk.now }
{
    let mut text = String::new(alloc);
    let mut instant = walk.first();
    for _ in 0..64 {
        if let Some(at) = instant {
            let milliseconds = at.0;
            text.push_str(format!(in alloc; " {milliseconds}")?.as_str())?;
            instant = walk.after(at);
        }
    }
    Ok(text)
}

#[test]
fn subqueries_walk_over_multiples(rt: HostRuntime) -> Result<(), Fail> {
    // each list is a plain enumeration of the times, made elsewhere
    let rows = [
        (0, 60, 20, 0, 30, 10, " -20 -10 0 10 20 30 40 50 60"),
        (0, 60, 20, 0, 20, 10, " -10 0 10 20 30 40 50 60"),
        (0, 60, 20, 0, 10, 10, " 0 20 40 60"),
        (0, 60, 20, 5, 10, 10, " -10 10 30 50"),
        (0, 60, 20, 0, 5, 10, " 0 20 40 60"),
        (3, 63, 20, 0, 5, 10, " 0 20 40 60"),
        (3, 63, 20, 0, 4, 10, " 0 20 40 60"),
        (3, 63, 20, 0, 3, 10, ""),
        (7, 67, 30, 0, 100, 25, " -75 -50 -25 0 25 50"),
        (-50, 50, 25, 0, 25, 20, " -60 -40 -20 0 20 40"),
        (-50, 50, 25, -13, 25, 20, " -60 -40 -20 0 20 40 60"),
        (-1, 1, 1, 0, 1, 1, " -1 0 1"),
        (-1, 1, 1, 0, 2, 1, " -2 -1 0 1"),
        (
            0,
            100,
            7,
            3,
            9,
            6,
            " -6 0 6 12 18 24 30 36 42 48 54 60 66 72 78 84 90",
        ),
        (0, 100, 7, 3, 2, 6, " 18 24 60 66"),
        (0, 100, 13, -40, 1, 11, " 66"),
        (5, 5, 1, 0, 50, 10, " -40 -30 -20 -10 0"),
        (5, 5, 1, 0, 5, 10, ""),
        (5, 5, 1, 0, 6, 10, " 0"),
        (-97, -17, 16, 8, 21, 17, " -119 -102 -85 -68 -51 -34"),
        (0, 90, 45, 0, 10, 30, " 0 90"),
        (0, 90, 45, 10, 200, 40, " -200 -160 -120 -80 -40 0 40 80"),
        (1, 2, 1, 0, 1, 50, ""),
        (1, 9, 1, 0, 1, 3, " 3 6 9"),
    ];
    for (start, end, step, offset, range, multiple, instants) in rows {
        if let Ok(grid) = Grid::of(Ms(start), Ms(end), Ms(step)) {
            assert!(rt; 0 < range && 0 < multiple);
            walks_keep_to_times();
            let walk = subquery(rt.alloc(), Walk::Grid(grid), offset, false, range, multiple)?;
            assert_eq!(rt; listed(rt.alloc(), &walk)?.as_str(), instants);
        } else {
            assert!(rt; false);
        }
    }
    Ok(())
}

#[test]
fn subqueries_walk_over_subqueries(rt: HostRuntime) -> Result<(), Fail> {
    // each list is a plain enumeration of the times, made elsewhere: a grid, then the offset, range and step of each
    let rows = [
        (
            (0, 60, 20),
            (0, 30, 10),
            (0, 15, 5),
            " -30 -25 -20 -15 -10 -5 0 5 10 15 20 25 30 35 40 45 50 55 60",
        ),
        (
            (0, 60, 20),
            (5, 10, 10),
            (0, 7, 3),
            " -15 -12 6 9 24 27 30 45 48",
        ),
        (
            (0, 60, 30),
            (0, 5, 10),
            (-4, 9, 4),
            " -4 0 4 28 32 56 60 64",
        ),
        (
            (-50, 50, 25),
            (-13, 25, 20),
            (6, 13, 9),
            " -72 -54 -36 -27 -18 -9 9 27 45 54",
        ),
        ((3, 63, 20), (0, 3, 10), (0, 60, 5), ""),
        ((7, 7, 1), (0, 100, 25), (0, 10, 6), " -84 -78 -54 -30 -6 0"),
        ((7, 67, 30), (2, 100, 25), (-30, 50, 40), " -80 -40 0 40 80"),
        (
            (0, 90, 45),
            (10, 60, 40),
            (1, 2, 1),
            " -42 -41 -2 -1 38 39 78 79",
        ),
        ((0, 4, 1), (0, 2, 1), (0, 2, 1), " -2 -1 0 1 2 3 4"),
    ];
    for ((start, end, step), (offset, range, multiple), (later, wide, apart), instants) in rows {
        if let Ok(grid) = Grid::of(Ms(start), Ms(end), Ms(step)) {
            assert!(rt; 0 < range && 0 < multiple);
            assert!(rt; 0 < wide && 0 < apart);
            walks_keep_to_times();
            let inner = subquery(rt.alloc(), Walk::Grid(grid), offset, false, range, multiple)?;
            let walk = over_subquery(rt.alloc(), inner, later, false, wide, apart)?;
            assert_eq!(rt; listed(rt.alloc(), &walk)?.as_str(), instants);
        } else {
            assert!(rt; false);
        }
    }
    Ok(())
}

#[test]
fn subqueries_walk_over_a_fixed_time(rt: HostRuntime) -> Result<(), Fail> {
    // each list is a plain enumeration of the times, made elsewhere
    let rows = [
        (0, 0, 30, 10, " -20 -10 0"),
        (60, 5, 30, 10, " 30 40 50"),
        (60, -5, 30, 10, " 40 50 60"),
        (7, 0, 5, 10, ""),
        (10, 0, 5, 10, " 10"),
        (5, 0, 5, 10, ""),
        (-33, 12, 40, 15, " -75 -60 -45"),
        (100, 0, 1, 1, " 100"),
        (-1, 0, 2, 50, ""),
        (99, 3, 100, 33, " 0 33 66"),
    ];
    for (at, offset, range, multiple, instants) in rows {
        assert!(rt; 0 < range && 0 < multiple);
        let walk = subquery(
            rt.alloc(),
            Walk::Fixed(Ms(at as i64)),
            offset,
            false,
            range,
            multiple,
        )?;
        assert_eq!(rt; listed(rt.alloc(), &walk)?.as_str(), instants);
        let walk = pinned(
            rt.alloc(),
            Walk::Fixed(Ms(9)),
            at,
            offset,
            false,
            range,
            multiple,
        )?;
        assert_eq!(rt; listed(rt.alloc(), &walk)?.as_str(), instants);
    }
    Ok(())
}

#[test]
fn closed_subqueries_walk_over_their_edges(rt: HostRuntime) -> Result<(), Fail> {
    // each list is a plain enumeration of the times, made elsewhere: a grid, then the offset, range and step of each
    // subquery, and whether it is closed on the left
    let rows = [
        (
            (0, 60, 20),
            (0, true, 30, 10),
            (0, true, 15, 5),
            " -45 -40 -35 -30 -25 -20 -15 -10 -5 0 5 10 15 20 25 30 35 40 45 50 55 60",
        ),
        (
            (0, 60, 20),
            (0, true, 20, 10),
            (0, false, 1, 5),
            " -20 -10 0 10 20 30 40 50 60",
        ),
        (
            (3, 63, 20),
            (0, true, 3, 10),
            (0, false, 5, 10),
            " 0 20 40 60",
        ),
        ((3, 63, 20), (0, false, 3, 10), (0, true, 5, 10), ""),
        ((5, 5, 1), (0, true, 5, 10), (0, true, 10, 10), " -10 0"),
        ((5, 5, 1), (-1, true, 5, 10), (0, true, 10, 10), ""),
        (
            (-50, 50, 25),
            (-13, true, 25, 20),
            (6, true, 12, 9),
            " -72 -54 -36 -27 -18 -9 9 27 45 54",
        ),
        ((1, 2, 1), (1, true, 1, 50), (0, true, 1, 1), " -1 0"),
        ((-7, -7, 1), (0, true, 7, 7), (0, true, 7, 7), " -21 -14 -7"),
    ];
    for (
        (start, end, step),
        (offset, inside, range, multiple),
        (later, outside, wide, apart),
        instants,
    ) in rows {
        if let Ok(grid) = Grid::of(Ms(start), Ms(end), Ms(step)) {
            assert!(rt; 0 < range && 0 < multiple);
            assert!(rt; 0 < wide && 0 < apart);
            walks_keep_to_times();
            let inner = subquery(
                rt.alloc(),
                Walk::Grid(grid),
                offset,
                inside,
                range,
                multiple,
            )?;
            let walk = over_subquery(rt.alloc(), inner, later, outside, wide, apart)?;
            assert_eq!(rt; listed(rt.alloc(), &walk)?.as_str(), instants);
        } else {
            assert!(rt; false);
        }
    }
    let rows = [
        (60, 0, 30, 10, " 30 40 50 60"),
        (60, 5, 30, 10, " 30 40 50"),
        (7, 0, 7, 10, " 0"),
        (7, -1, 7, 10, ""),
        (-33, 12, 45, 15, " -90 -75 -60 -45"),
    ];
    for (at, offset, range, multiple, instants) in rows {
        assert!(rt; 0 < range && 0 < multiple);
        let walk = pinned(
            rt.alloc(),
            Walk::Fixed(Ms(9)),
            at,
            offset,
            true,
            range,
            multiple,
        )?;
        assert_eq!(rt; listed(rt.alloc(), &walk)?.as_str(), instants);
    }
    Ok(())
}
