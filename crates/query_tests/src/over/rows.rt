//! Queries over engines, and what comes of each. All series of an engine have the labels that are declared to it.

/// Two engines, one a line: the labels that are declared to it, and its series, parted by `|`, each its labels and its samples at
/// milliseconds.
pub const TWO: &str =
    "region=eu > x,i=1,region=eu 0=1 60000=2 120000=3|y,i=1,region=eu 0=5|c,region=eu 0=1 60000=1 120000=2 180000=1|s,region=eu 0=1 60000=stale 120000=3|b,i=1,region=eu 0=500000000000000000000000000000|b,i=2,region=eu 0=-500000000000000000000000000000
region=us > x,i=2,region=us 0=4 60000=5 120000=6|s,region=us 60000=7 120000=stale|b,region=us 0=1";

/// An instant in seconds, or start, end and step; a query; and what comes of it over the two, by hand.
pub const OVER_TWO: &str =
    "0..120/60 ; x ; x{i=\"1\",region=\"eu\"} 1@0 2@60000 3@120000, x{i=\"2\",region=\"us\"} 4@0 5@60000 6@120000
0..120/60 ; s ; s{region=\"eu\"} 1@0 3@120000, s{region=\"us\"} 7@60000
0 ; {__name__=~\"x|y\"} ; x{i=\"1\",region=\"eu\"} 1@0, x{i=\"2\",region=\"us\"} 4@0, y{i=\"1\",region=\"eu\"} 5@0
0 ; x{region=\"us\"} ; x{i=\"2\",region=\"us\"} 4@0
0 ; x @ 60 ; x{i=\"1\",region=\"eu\"} 2@0, x{i=\"2\",region=\"us\"} 5@0
120 ; x offset 1m ; x{i=\"1\",region=\"eu\"} 2@120000, x{i=\"2\",region=\"us\"} 5@120000
0 ; sort_desc(x) ; x{i=\"2\",region=\"us\"} 4@0, x{i=\"1\",region=\"eu\"} 1@0
0 ; z ; empty
0 ; absent(z) ; {} 1@0
0 ; scalar(x{region=\"eu\"}) ; scalar 1@0
0..60/60 ; time() ; scalar 0@0 60@60000
0..120/60 ; sum(x) ; {} 5@0 7@60000 9@120000
0..120/60 ; sum without (i) (x{i=\"1\"}) ; {region=\"eu\"} 1@0 2@60000 3@120000
0 ; sum(b) ; FAILED at 0 overflow
0 ; sum by (region) (b) ; {region=\"eu\"} 0@0, {region=\"us\"} 1@0
0 ; avg(x) ; {} 2.5@0
0 ; topk(1, x) ; x{i=\"2\",region=\"us\"} 4@0
0 ; count_values(\"v\", x) ; {v=\"1\"} 1@0, {v=\"4\"} 1@0
0 ; quantile(2, x) ; {} +Inf@0, range 2
0 ; x / on() group_left sum(x) ; {i=\"1\",region=\"eu\"} 0.2@0, {i=\"2\",region=\"us\"} 0.8@0
0 ; x * on() vector(1) ; FAILED at 0 many {}
0 ; -{__name__=~\"x|y\"} ; FAILED at 0 same {i=\"1\",region=\"eu\"}
0 ; x and on(region) y ; x{i=\"1\",region=\"eu\"} 1@0
0 ; x unless on(region) y ; x{i=\"2\",region=\"us\"} 4@0
0..60/60 ; x > 1 or vector(9) ; {} 9@0 9@60000, x{i=\"1\",region=\"eu\"} 2@60000, x{i=\"2\",region=\"us\"} 4@0 5@60000
0..60/60 ; 2 ^ (x{i=\"2\"} / 2) ; FAILED at 60000 irrational
120 ; count_over_time(x[2m]) ; {i=\"1\",region=\"eu\"} 2@120000, {i=\"2\",region=\"us\"} 2@120000
120 ; avg_over_time(x[2m]) ; {i=\"1\",region=\"eu\"} 2.5@120000, {i=\"2\",region=\"us\"} 5.5@120000
120 ; max_over_time(x[2m:1m]) ; {i=\"1\",region=\"eu\"} 3@120000, {i=\"2\",region=\"us\"} 6@120000
180 ; rate(c[4m]) ; {region=\"eu\"} 1/90@180000, counter c
0 ; 1 + ; REFUSED at 3
0 ; foo(x) ; REFUSED at 0";

/// Four engines, of which one holds nothing.
pub const FOUR: &str = "a=1,b=1 > x,a=1,b=1 0=1 60000=2
a=1,b=2 > x,a=1,b=2 0=10 60000=20
a=2,b=1 > -
a=2,b=2 > x,a=2,b=2 0=1000 60000=2000";

/// The same over the four.
pub const OVER_FOUR: &str =
    "0..60/60 ; x ; x{a=\"1\",b=\"1\"} 1@0 2@60000, x{a=\"1\",b=\"2\"} 10@0 20@60000, x{a=\"2\",b=\"2\"} 1000@0 2000@60000
0..60/60 ; x offset 1m ; x{a=\"1\",b=\"1\"} 1@60000, x{a=\"1\",b=\"2\"} 10@60000, x{a=\"2\",b=\"2\"} 1000@60000
0 ; x{a=\"2\",b=\"1\"} ; empty
0 ; absent(x{a=\"2\",b=\"1\"}) ; {a=\"2\",b=\"1\"} 1@0
0..60/60 ; sum(x) ; {} 1011@0 2022@60000
0..60/60 ; sum by (a) (x) ; {a=\"1\"} 11@0 22@60000, {a=\"2\"} 1000@0 2000@60000
0..60/60 ; max(x) - min(x) ; {} 999@0 1998@60000
0 ; count(x) ; {} 3@0
0 ; group by (b) (x) ; {b=\"1\"} 1@0, {b=\"2\"} 1@0
0 ; count by (b) (x) == 2 ; {b=\"2\"} 2@0
0 ; avg(x) ; {} 337@0
0 ; stdvar(x) ; {} 219798@0
0 ; quantile(0.5, x) ; {} 10@0
0 ; bottomk(2, x) ; x{a=\"1\",b=\"1\"} 1@0, x{a=\"1\",b=\"2\"} 10@0
0 ; x * on(b) group_left sum by (b) (x) ; {a=\"1\",b=\"1\"} 1@0, {a=\"1\",b=\"2\"} 10100@0, {a=\"2\",b=\"2\"} 1010000@0
60 ; sum_over_time(x[2m]) ; {a=\"1\",b=\"1\"} 3@60000, {a=\"1\",b=\"2\"} 30@60000, {a=\"2\",b=\"2\"} 3000@60000
0 ; sum(max_over_time(x[1m:1m])) ; {} 1011@0
0 ; 1 + 2 ; scalar 3@0
0 ; 2 ^ (x / 20) ; FAILED at 0 irrational
0 ; sum(x) + ; REFUSED at 8";

/// One engine alone.
pub const ONE: &str = "region=eu > x,region=eu 0=1";

/// Three.
pub const THREE: &str = "region=eu > x,region=eu 0=1 60000=2
region=us > x,region=us 0=10 60000=20
region=ap > x,region=ap 0=100 60000=200";

/// Which engine isn't as it ought to be, behind how many pulls, and whether it fails then or strays; an instant or a grid, and a query;
/// what is told of it instant by instant; what comes of the query over those that are left; and what is told once the lost engine is
/// declared again, behind the others. With none left the store is read.
pub const LOST_OF_ONE: &str =
    "0 ; 0 ; fails ; 0 ; x ; EngineFault { engine: 0 } ; x{region=\"none\"} 7@0 ; EngineFault { engine: 0 }
0 ; 0 ; strays ; 0 ; sum(x) ; OutOfStep { engine: 0, expected: Some(Ms(0)), got: Some(Ms(1)) } ; {} 7@0 ; OutOfStep { engine: 0, expected: Some(Ms(0)), got: Some(Ms(1)) }";

/// The same of three.
pub const LOST_OF_THREE: &str =
    "0 ; 0 ; fails ; 0 ; sum(x) ; EngineFault { engine: 0 } ; {} 110@0 ; EngineFault { engine: 2 }
1 ; 0 ; fails ; 0 ; x ; EngineFault { engine: 1 } ; x{region=\"ap\"} 100@0, x{region=\"eu\"} 1@0 ; EngineFault { engine: 2 }
2 ; 0 ; fails ; 0 ; x ; EngineFault { engine: 2 } ; x{region=\"eu\"} 1@0, x{region=\"us\"} 10@0 ; EngineFault { engine: 2 }
1 ; 1 ; fails ; 0..60/60 ; sum(x) ; EngineFault { engine: 1 } ; {} 101@0 202@60000 ; EngineFault { engine: 2 }
1 ; 1 ; fails ; 60 ; sum(x) + sum(x offset 1m) ; EngineFault { engine: 1 } ; {} 303@60000 ; EngineFault { engine: 2 }
1 ; 0 ; strays ; 0 ; x ; OutOfStep { engine: 1, expected: Some(Ms(0)), got: Some(Ms(1)) } ; x{region=\"ap\"} 100@0, x{region=\"eu\"} 1@0 ; OutOfStep { engine: 2, expected: Some(Ms(0)), got: Some(Ms(1)) }
0 ; 1 ; strays ; 0..60/60 ; sum(x) ; OutOfStep { engine: 0, expected: Some(Ms(60000)), got: Some(Ms(0)) } ; {} 110@0 220@60000 ; OutOfStep { engine: 2, expected: Some(Ms(0)), got: Some(Ms(1)) }
2 ; 0 ; strays ; 60 ; count_over_time(x[2m]) ; OutOfStep { engine: 2, expected: Some(Ms(60000)), got: Some(Ms(0)) } ; {region=\"eu\"} 2@60000, {region=\"us\"} 2@60000 ; OutOfStep { engine: 2, expected: Some(Ms(60000)), got: Some(Ms(0)) }";
