ghost use Rattle.std.specs.Prelude.{◌≡◌, None, Some};

use crate::rows::rows_hold;
use crate::shelf::{push_lines, push_script, shelf_of};
use edge_io::{Library, MemLibrary, MemSink, Sink, SinkFail};
use holders::{Items, Text};
use promql_tool::{Status, choices_leave_reports, run_tool};
use remote_api::{Engine, InOrder};
use std::alloc::{AllocError, Global};
use std::marker::Brand;
use std::sync::ledger::{Blank, Ledger};
use std::test::Fail;
use ticks::Work;

/// Each row is a report, its lines parted by `;`, and behind a `|` the script, whose line feeds are written `|`. Between
/// two backquotes stands a byte in hexadecimal, or a number, `*` and a piece that is repeated, with its place for a `%`.
const REPORTS: &str = r##"
passed 0 failed 0|
passed 0 failed 0||
passed 0 failed 0| `09`|
PASS a.test:4;FAIL a.test:7 up expected 3 got 2;passed 1 failed 1|load 5m|up 1 2||eval instant at 0 up|up 1||eval instant at 5m up|up 3|
PASS a.test:4;PASS a.test:7;PASS a.test:9;PASS a.test:11;passed 4 failed 0|load 5m|up 1 _ stale 3||eval instant at 4m59s up|up 1||eval instant at 5m up||eval instant at 10m up||eval instant at 15m up|up 3|
PASS a.test:4;PASS a.test:6;passed 2 failed 0|load 1m|z 1 stale||eval instant at 1m z||eval instant at 0 z|z 1|
passed 0 failed 0|# one|  # two|
REFUSED a.test:5 Conflict|load 5m|x 1||load 5m|x 2||eval instant at 0 x|x 1|
REFUSED a.test:2 NumberRange|load 1m|x 1e30+1x1|
REFUSED a.test:2 NumberRange|load 100y|x 1 _x31 1|
REFUSED a.test:2 BadLabels|load 1m|x{__name__="y"} 1|
REFUSED a.test:2 BadLabels|eval instant at 0 x|x{a="1",a="1"} 1|
REFUSED a.test:2 NumberRange|eval instant at 0 x|x 1e31|
REFUSED a.test:2 Malformed|load 1m|x{a="b|
REFUSED a.test:2 NativeHistogram|load 5m|x {{sum:1}}|
PASS a.test:4;PASS a.test:7;passed 2 failed 0|load 1m|c_total 0+60x10||eval instant at 5m rate(c_total[5m])|{} 1||eval instant at 5m increase(c_total[5m])|{} 300|
PASS a.test:4;passed 1 failed 0|load 1m|c_total 0 10 5 15||eval instant at 3m increase(c_total[4m])|{} 25|
PASS a.test:1;FAIL a.test:4 scalar expected 0.33333 got 1/3;passed 1 failed 1|eval instant at 0 1/3|0.3333333333333333||eval instant at 0 1/3|0.33333|
PASS a.test:1;FAIL a.test:4 unexpected NumberRange at 0;FAIL a.test:6 unexpected overflow;FAIL a.test:8 unexpected overflow;passed 1 failed 3|eval instant at 0 1e30|1e30||eval instant at 0 1e31||eval instant at 0 1e30 * 10||eval instant at 0 1e30 - 1e30|
FAIL a.test:5 unexpected overflow;FAIL a.test:7 unexpected overflow;passed 0 failed 2|load 1m|x{region="eu"} 6e29|x{region="us"} -6e29||eval instant at 0 sum(x)||eval instant at 0 avg(x)|
PASS a.test:1;PASS a.test:4;PASS a.test:7;PASS a.test:10;FAIL a.test:13 unexpected irrational result;passed 4 failed 1|eval instant at 0 -1 ^ 2|-1||eval instant at 0 2 ^ 3 ^ 2|512||eval instant at 0 -1 % 3|-1||eval instant at 0 0/0|NaN||eval instant at 0 2 ^ 0.5|
PASS a.test:4;passed 1 failed 0|load 1m|x 0+1x10||eval instant at 5m max_over_time(x[3m:2m])|{} 4|
FAIL a.test:6 unexpected many-to-one matching must be explicit for {};PASS a.test:8;FAIL a.test:12 unexpected found duplicate series for the match group {};passed 1 failed 2|load 1m|a{i="1"} 1|a{i="2"} 2|b 1||eval instant at 0 a * on() b||eval instant at 0 a * on() group_left b|{i="1"} 1|{i="2"} 2||eval instant at 0 b * on() a|
FAIL a.test:7 unexpected found duplicate series for the match group {x="2"};passed 0 failed 1|load 1m|a{x="1"} 1|a{x="2"} 1|b{x="2"} 1|c{x="1"} 2||eval instant at 0 c{x="1"} * {__name__=~"a`7c`b"}|
PASS a.test:5;FAIL a.test:8 unexpected vector cannot contain metrics with the same labelset: {};passed 1 failed 1|load 10m|a 1 _ 3|b _ 2 3||eval instant at 10m -{__name__=~"a`7c`b"}|{} -2||eval instant at 20m -{__name__=~"a`7c`b"}|
PASS a.test:6;PASS a.test:9;PASS a.test:12;passed 3 failed 0|load 1m|h_bucket{le="1"} 10|h_bucket{le="2"} 20|h_bucket{le="+Inf"} 20||eval instant at 0 histogram_quantile(0.75, h_bucket)|{} 1.5||eval instant at 0 histogram_quantile(2, h_bucket)|{} Inf||eval instant at 0 histogram_quantile(0.75, h_bucket{le!="+Inf"})|{} NaN|
PASS a.test:7;PASS a.test:11;PASS a.test:15;passed 3 failed 0|load 1m|x{i="1"} 5|x{i="2"} 5|x{i="3"} 5|x{i="4"} NaN||eval instant at 0 topk(2, x)|x{i="1"} 5|x{i="2"} 5||eval instant at 0 sort(topk(2, x))|x{i="1"} 5|x{i="2"} 5||eval instant at 0 topk(2, sort(x))|x{i="1"} 5|x{i="2"} 5|
PASS a.test:4;PASS a.test:7;passed 2 failed 0|load 1m|x 0+1x10||eval instant at 4m x @ end() offset 1m|x 3||eval instant at 4m x offset 1m @ end()|x 3|
PASS a.test:5;passed 1 failed 0|load 1m|metric{a="b",c="d"} 2|metric{a="b"} 6||eval instant at 0 sum(metric{a="b",c="d"}) / scalar(sum(metric{a="b"}))|{} 0.25|
FAIL a.test:5 expected a failure;FAIL a.test:7 expected no info;FAIL a.test:11 missing y{a="1"};FAIL a.test:15 unexpected series x;passed 0 failed 4|load 1m|  x 0 60|  y 5||eval_fail instant at 0 y||eval instant at 1m rate(x[5m])|  expect no_info|  {} 0.2||eval instant at 0 y|  y 5|  y{a="1"} 5||eval instant at 0 {__name__=~"x`7c`y"}|  y 5|
PASS a.test:4;FAIL a.test:8 expected no warning;FAIL a.test:12 expected no warning;passed 1 failed 2|load 1m|x 5||eval instant at 0 quantile(2, x)|expect warn msg: quantile value should be between 0 and 1, got 2|{} Inf||eval instant at 0 quantile(2, x)|expect no_warn|{} Inf||eval instant at 0 quantile(2, x) + quantile(3, x)|expect warn msg: quantile value should be between 0 and 1, got 2|{} Inf|
PASS a.test:4;PASS a.test:7;FAIL a.test:10 x at 120000 expected 4 got 3;FAIL a.test:13 x at 60000 expected nothing got 2;FAIL a.test:16 x at 0 expected 1 got nothing;passed 2 failed 3|load 1m|x 1 2 3||eval range from 0 to 2m step 1m x|x 1 2 3||eval range from 0 to 2m step 1m x > 1|x _ 2 3||eval range from 0 to 2m step 1m x|x 1 2 4||eval range from 0 to 2m step 1m x|x 1 _ 3||eval range from 0 to 2m step 1m x > 1|x 1 2 3|
FAIL a.test:5 order at x;PASS a.test:9;passed 1 failed 1|load 1m|x 1|y 2||eval_ordered instant at 0 sort({__name__=~"x`7c`y"})|y 2|x 1||eval instant at 0 sort({__name__=~"x`7c`y"})|y 2|x 1|
FAIL a.test:1 failure text Expected at 3;PASS a.test:4;PASS a.test:7;passed 2 failed 1|eval instant at 0 1 +|expect fail msg: Expected at 4||eval instant at 0 1 +|expect fail msg: Expected at 3||eval_fail instant at 0 1 +|expect fail regex: ^Exp|
FAIL a.test:1 unexpected RefusedFunction sqrt at 0;FAIL a.test:3 unexpected RefusedFunction stddev at 0;FAIL a.test:5 unexpected UnknownFunction foo at 0;passed 0 failed 3|eval instant at 0 sqrt(x)||eval instant at 0 stddev(x)||eval instant at 0 foo(x)|
PASS a.test:4;PASS a.test:7;passed 2 failed 0|load 1m|x{i="7"} 1||eval instant at 0 label_replace(x, "j", "$1", "i", "(.*)")|x{i="7",j="7"} 1||eval instant at 0 label_join(x, "k", "-", "i", "i")|x{i="7",k="7-7"} 1|
PASS a.test:4;PASS a.test:6;PASS a.test:10;PASS a.test:13;passed 4 failed 0|load 1m|x{i="1"} 1||eval instant at 0 x unless x||eval instant at 0 x or vector(9)|{} 9|x{i="1"} 1||eval instant at 0 x or on() vector(9)|x{i="1"} 1||eval instant at 0 x and on() vector(9)|x{i="1"} 1|
PASS a.test:4;passed 1 failed 0|load 1m|y 1||eval instant at 0 y or vector(9)|y 1|
FAIL a.test:1 unexpected BadPattern at 5;FAIL a.test:3 unexpected EmptySelector at 5;passed 0 failed 2|eval instant at 0 x{a=~"("}||eval instant at 0 {a=""}|
FAIL a.test:4 unexpected Expected at 3;passed 0 failed 1|load 1m|x 1||eval instant at 0 1 +|
FAIL a.test:1 unexpected Expected at 8;FAIL a.test:3 unexpected Expected at 11;FAIL a.test:5 unexpected Expected at 12;FAIL a.test:7 unexpected Expected at 4;passed 0 failed 4|eval instant at 0 up{a="b"||eval instant at 0 sum by (a) by (b) (x)||eval instant at 0 x offset 5m offset 1m||eval instant at 0 a:b{c:d="e"}|
FAIL a.test:1 unexpected RefusedFunction sqrt at 4;FAIL a.test:3 unexpected RefusedFunction atan2 at 2;FAIL a.test:5 unexpected WrongType at 5;FAIL a.test:7 unexpected WrongArity at 0;passed 0 failed 4|eval instant at 0 1 + sqrt(x) + (||eval instant at 0 1 atan2 2||eval instant at 0 rate(x)||eval instant at 0 round()|
FAIL a.test:1 unexpected NeedsBool at 0;FAIL a.test:3 unexpected SetOnScalar at 0;FAIL a.test:5 unexpected RangeResult at 0;FAIL a.test:7 unexpected StringResult at 0;passed 0 failed 4|eval instant at 0 1 == 1||eval instant at 0 1 and x||eval instant at 0 x[5m]||eval instant at 0 "a"|
FAIL a.test:1 unexpected TooManyPoints at 5;FAIL a.test:3 unexpected LeadingZero at 0;FAIL a.test:5 unexpected Unterminated at 0;passed 0 failed 3|eval instant at 0 rate(x[1y:1ms])||eval instant at 0 08||eval instant at 0 "a|
PASS a.test:5;PASS a.test:8;PASS a.test:11;PASS a.test:14;PASS a.test:18;PASS a.test:21;PASS a.test:24;FAIL a.test:28 unexpected overflow;FAIL a.test:30 unexpected overflow;passed 7 failed 2|load 1m|x{i="1"} 1|x{i="2"} 2||eval instant at 0 avg(x)|{} 1.5||eval instant at 0 quantile(0.25, x)|{} 1.25||eval instant at 0 stdvar(x)|{} 0.25||eval instant at 0 count_values("v", x)|{v="1"} 1|{v="2"} 1||eval instant at 0 count_values by (i) ("i", x * 0)|{i="0"} 2||eval instant at 0 count_values without (i) ("i", x)|{} 2||eval instant at 0 topk by (i) (1, x)|x{i="1"} 1|x{i="2"} 2||eval instant at 0 topk(NaN, x)||eval instant at 0 topk(Inf, x)|
PASS a.test:4;PASS a.test:7;PASS a.test:10;PASS a.test:13;passed 4 failed 0|load 1m|c 1 1 2 1||eval instant at 3m changes(c[4m])|{} 2||eval instant at 3m resets(c[4m])|{} 1||eval instant at 3m idelta(c[4m])|{} -1||eval instant at 3m irate(c[4m])|{} 0.016666666666666666|
PASS a.test:6;FAIL a.test:10 unexpected many-to-one matching must be explicit for {i="1"};FAIL a.test:12 unexpected found duplicate series for the match group {i="1"};passed 1 failed 2|load 1m|a{i="1",p="x"} 1|a{i="1",p="y"} 2|m{i="1",t="z"} 10||eval instant at 0 a + on(i) group_left(t) m|{i="1",p="x",t="z"} 11|{i="1",p="y",t="z"} 12||eval instant at 0 a + on(i) m||eval instant at 0 m + on(i) a|
PASS a.test:4;PASS a.test:7;PASS a.test:10;PASS a.test:13;PASS a.test:16;passed 5 failed 0|load 1m|x 0+60x10||eval instant at 3m predict_linear(x[3m], 60)|{} 240||eval instant at 3m quantile_over_time(0.5, x[3m])|{} 120||eval instant at 3m absent(x{a="b"})|{a="b"} 1||eval instant at 3m absent(x{a=~"b",a="b"})|{a="b"} 1||eval instant at 3m absent(x{a="b",a=~"b"})|{} 1|
FAIL a.test:6 unexpected multiple matches for labels {i="1"};passed 0 failed 1|load 1m|a{i="1"} 1|a{i="2"} 2|b{i="1"} 1||eval instant at 0 a * on() group_left(i) b|
PASS a.test:4;FAIL a.test:7 expected a scalar;FAIL a.test:10 expected a vector;FAIL a.test:12 expected a vector;FAIL a.test:15 scalar expected 2 got NaN;PASS a.test:18;passed 2 failed 4|load 1m|x 1||eval instant at 0 scalar(x)|1||eval instant at 0 x|1||eval instant at 0 1||eval instant at 0 1|{} 1||eval instant at 0 scalar(y)|2||eval instant at 1h  time() - 3600`09`+ `09` 0|0|
REFUSED a.test:3 Malformed|eval instant at 0 1|1|x 1|
REFUSED a.test:3 Conflict|load 5m|x 1|x 2||eval_fail instant at 0 x|
REFUSED a.test:2 BadPattern|eval instant at 0 x|expect fail regex: (|
REFUSED a.test:1 NotUtf8|`ff`|load 5m|
REFUSED a.test:4 NotUtf8|load 5m|x 1||# `c3`(||eval instant at 0 x|
REFUSED a.test:2 NotUtf8|load 5m|x 1 `e2``82`
REFUSED a.test:2 NotUtf8|nonsense|`f0``9f`
REFUSED a.test:2 NotUtf8|load 5m`0d`|x{a="`ed``a0``80`"} 1`0d`|
REFUSED a.test:1 NotUtf8|`80`
passed 0 failed 0|load 1|y 1|x 1`30*0`
passed 0 failed 0|load 1|`4096*n` 1
REFUSED a.test:2 BadLabels|load 1|`4097*n` 1
REFUSED a.test:2 BadLabels|load 1|x{a="`4097*n`"} 1
passed 0 failed 0|load 1|x{`63*l%="v",`} 1
"##;

/// The same, for long files and many samples.
const LONG: &str = "
passed 0 failed 0|`4194304*|`
REFUSED a.test:0 TooLarge|`4194305*|`
passed 0 failed 0|load 1s|x 0x1999999
REFUSED a.test:2 TooManySamples|load 1s|x 0x2000000
REFUSED a.test:2 TooManySamples|load 0.001|x 0x4294967295
";

/// Each row is the path of a file and behind a `|` its script, written as those of `REPORTS` are.
const FILES: &str = r##"
a.test|load 5m|up 1 2||eval instant at 0 up|up 1||eval instant at 5m up|up 3|
one.test|load 5m|up 1||eval instant at 0 up|up 1|
two.test|load 5m|down 2||eval instant at 0 down|down 2||eval instant at 1m down|down 2|
no.test|eval instant at 0 up|up 1|
-x|eval instant at 0 up|
bad.test|load 5m|up 1|up{||eval instant at 0 up|up 1|
large.test|`4194305*|`
twice.test|eval instant at 0 up||load 5m|up 1|up 2|
beyond.test|load 1m|up 1 1e31|
past.test|load 1m|up 1e30+1x1|
s.test|load 1m|x{i="1"} 1 2 3|x{i="2"} 20 10 5|y_total 0 60 120||eval instant at 0 x|x{i="1"} 7|
cleared.test|load 1m|x 1||clear||load 1m|y 2|
sevens.test|load 1m|x 0+1x60||eval range from 0 to 61m step 7m sum(x)|{} 0+7x8|
"##;

/// Each row is a status, a text with its line feeds written `;`, the words with two blanks between them, and the numbers of the
/// fetch and of the write that fail, of the files of `FILES`.
const RUNS: &str = r##"
1|PASS a.test:4;FAIL a.test:7 up expected 3 got 2;passed 1 failed 1;|promqltest  a.test|0|0
2|usage: promqltest [options] FILE.. or query [options] FILE EXPR;||0|0
2|usage: promqltest [options] FILE.. or query [options] FILE EXPR;|promqltest|0|0
2|usage: promqltest [options] FILE.. or query [options] FILE EXPR;|query  a.test|0|0
2|usage: promqltest [options] FILE.. or query [options] FILE EXPR;|query  a.test  up  up|0|0
2|usage: promqltest [options] FILE.. or query [options] FILE EXPR;|query  --at  0  --from  0  a.test  up|0|0
2|usage: promqltest [options] FILE.. or query [options] FILE EXPR;|query  --from  0  --to  1  a.test  up|0|0
2|usage: promqltest [options] FILE.. or query [options] FILE EXPR;|query  --at  -1m  a.test  up|0|0
2|usage: promqltest [options] FILE.. or query [options] FILE EXPR;|query  a.test  -1|0|0
2|usage: promqltest [options] FILE.. or query [options] FILE EXPR;|promqltest  --at  0  a.test|0|0
2|usage: promqltest [options] FILE.. or query [options] FILE EXPR;|Promqltest  a.test|0|0
2|usage: promqltest [options] FILE.. or query [options] FILE EXPR;|promqltest  -a.test|0|0
2|usage: promqltest [options] FILE.. or query [options] FILE EXPR;|promqltest  --help|0|0
2|usage: promqltest [options] FILE.. or query [options] FILE EXPR;|a.test  promqltest|0|0
3|FAULT read -;|promqltest  -|0|0
3|FAULT read b.test;|promqltest  b.test|0|0
3|FAULT read a.test;|promqltest  a.test|1|0
4|PASS a.test:4;|promqltest  a.test|0|2
4||promqltest|0|1
0|PASS one.test:4;PASS two.test:4;PASS two.test:7;passed 3 failed 0;|promqltest  one.test  two.test|0|0
0|PASS two.test:4;PASS two.test:7;PASS one.test:4;passed 3 failed 0;|promqltest  two.test  one.test|0|0
1|PASS one.test:4;FAIL no.test:1 missing up;PASS two.test:4;PASS two.test:7;passed 3 failed 1;|promqltest  one.test  no.test  two.test|0|0
1|PASS a.test:4;FAIL a.test:7 up expected 3 got 2;FAIL no.test:1 missing up;passed 1 failed 2;|promqltest  a.test  no.test|0|0
0|PASS one.test:4;PASS one.test:4;passed 2 failed 0;|promqltest  one.test  one.test|0|0
0|PASS -x:1;PASS one.test:4;passed 2 failed 0;|promqltest  --  -x  one.test|0|0
3|PASS one.test:4;FAULT read b.test;|promqltest  one.test  b.test  two.test|0|0
3|PASS one.test:4;FAULT read one.test;|promqltest  one.test  one.test|2|0
3|FAULT read b.test;|promqltest  b.test  bad.test|0|0
6|PASS one.test:4;REFUSED bad.test:3 Malformed;|promqltest  one.test  bad.test  b.test|0|0
6|PASS one.test:4;FAIL no.test:1 missing up;REFUSED twice.test:5 Conflict;|promqltest  one.test  no.test  twice.test  two.test|0|0
6|REFUSED bad.test:3 Malformed;|promqltest  bad.test  one.test|0|0
6|PASS one.test:4;REFUSED large.test:0 TooLarge;|promqltest  one.test  large.test|0|0
6|REFUSED beyond.test:2 NumberRange;|promqltest  beyond.test|0|0
6|REFUSED past.test:2 NumberRange;|promqltest  past.test|0|0
0|x{i="1"} 1@0;x{i="2"} 20@0;|query  s.test  x|0|0
0|x{i="1"} 2@60000;x{i="2"} 10@60000;|query  --at  1m  s.test  x|0|0
0|x{i="1"} 3@300000;x{i="2"} 5@300000;|query  s.test  x  --at=300|0|0
0|empty;|query  --at=-1m  s.test  x|0|0
0|empty;|query  s.test  z|0|0
0|x{i="1"} 1@0 2@60000 3@120000;x{i="2"} 20@0 10@60000 5@120000;|query  --from  0  --to  2m  --step  1m  s.test  x|0|0
0|x{i="1"} 2@60000 3@120000;x{i="2"} 20@0 10@60000;|query  --from  0  --to  2m  --step  1m  s.test  (x > 1) < 4 or x > 5|0|0
0|scalar 3@0;|query  s.test  1 + 2|0|0
0|scalar 0@0 60@60000;|query  --from  0  --to  1m  --step  1m  s.test  time()|0|0
0|scalar 0.5@-500;|query  --at=-0.5  s.test  1 / 2|0|0
0|scalar -1@0;|query  --  s.test  -1|0|0
0|{} 1@0;|query  --  -x  vector(1)|0|0
0|x{i="2"} 20@0;x{i="1"} 1@0;|query  s.test  sort_desc(x)|0|0
0|x{i="1"} 3@120000;x{i="2"} 5@120000;|query  --at  2m  s.test  sort(x)|0|0
0|{} +Inf@120000;warning: quantile value should be between 0 and 1, got 2;|query  --at  2m  s.test  quantile(2, x)|0|0
0|{i="1"} 2@120000;info: metric might not be a counter, name does not end in _total/_sum/_count/_bucket: x;|query  --at  2m  s.test  increase(x{i="1"}[2m])|0|0
0|{} +Inf@120000;info: metric might not be a counter, name does not end in _total/_sum/_count/_bucket: x;warning: quantile value should be between 0 and 1, got 10;warning: quantile value should be between 0 and 1, got 2;|query  --at  2m  s.test  quantile(2, x) + quantile(10, increase(x[2m]))|0|0
0|y 2@0;|query  cleared.test  {__name__=~".+"}|0|0
1|REFUSED Expected at 3;|query  s.test  1 +|0|0
1|REFUSED RefusedFunction sqrt at 0;|query  s.test  sqrt(x)|0|0
1|FAILED at 0 irrational result;|query  s.test  2 ^ 0.5|0|0
1|FAILED at 60000 irrational result;|query  --from  0  --to  2m  --step  1m  s.test  2 ^ (1 / scalar(x{i="1"}))|0|0
1|FAILED at -60000 overflow;|query  --at=-1m  s.test  1e30 + 1|0|0
3|FAULT read b.test;|query  b.test  x|0|0
3|FAULT read s.test;|query  s.test  x|1|0
6|REFUSED bad.test:3 Malformed;|query  bad.test  x|0|0
6|REFUSED twice.test:5 Conflict;|query  twice.test  1 +|0|0
6|REFUSED beyond.test:2 NumberRange;|query  beyond.test  up|0|0
0|series 100 samples 6100;PASS workload:103;PASS workload:106;PASS workload:112;passed 3 failed 0;|workload  100|0|0
0|series 1 samples 61;PASS workload:4;PASS workload:7;PASS workload:10;passed 3 failed 0;|workload  1|1|0
0|series 5 samples 305;PASS workload:8;PASS workload:11;PASS workload:17;passed 3 failed 0;|workload  --  5|0|0
2|usage: promqltest [options] FILE.. or query [options] FILE EXPR;|workload  0|0|0
2|usage: promqltest [options] FILE.. or query [options] FILE EXPR;|workload  20001|0|0
2|usage: promqltest [options] FILE.. or query [options] FILE EXPR;|workload  a.test|0|0
2|usage: promqltest [options] FILE.. or query [options] FILE EXPR;|promqltest  --edges  v4  a.test|0|0
2|usage: promqltest [options] FILE.. or query [options] FILE EXPR;|promqltest  --edges=  a.test|0|0
2|usage: promqltest [options] FILE.. or query [options] FILE EXPR;|promqltest  --edges  v2  --edges  v2  a.test|0|0
2|usage: promqltest [options] FILE.. or query [options] FILE EXPR;|query  --edges=v4  s.test  x|0|0
2|usage: promqltest [options] FILE.. or query [options] FILE EXPR;|query  --edges=  s.test  x|0|0
2|usage: promqltest [options] FILE.. or query [options] FILE EXPR;|workload  --edges=v2  5  --edges=v3|0|0
1|PASS a.test:4;FAIL a.test:7 up expected 3 got 2;passed 1 failed 1;|promqltest  --edges  v2  a.test|0|0
0|empty;|query  --at  7m  s.test  x|0|0
0|x{i="1"} 3@420000;x{i="2"} 5@420000;|query  --edges  v2  --at  7m  s.test  x|0|0
0|{i="1"} 2@120000;{i="2"} 2@120000;|query  --at  2m  s.test  count_over_time(x[2m])|0|0
0|{i="1"} 3@120000;{i="2"} 3@120000;|query  --at  2m  --edges=v2  s.test  count_over_time(x[2m])|0|0
0|{i="1"} 2@120000;{i="2"} 2@120000;|query  --edges=v3  --at  2m  s.test  count_over_time(x[2m])|0|0
0|series 5 samples 305;PASS workload:8;PASS workload:11;PASS workload:17;passed 3 failed 0;|workload  --edges  v2  5|0|0
2|usage: promqltest [options] FILE.. or query [options] FILE EXPR;|promqltest  --batch  0  a.test|0|0
2|usage: promqltest [options] FILE.. or query [options] FILE EXPR;|promqltest  --batch  01  a.test|0|0
2|usage: promqltest [options] FILE.. or query [options] FILE EXPR;|promqltest  --batch=1025  a.test|0|0
2|usage: promqltest [options] FILE.. or query [options] FILE EXPR;|promqltest  --batch  x  a.test|0|0
2|usage: promqltest [options] FILE.. or query [options] FILE EXPR;|promqltest  --batch  3  --batch  3  a.test|0|0
2|usage: promqltest [options] FILE.. or query [options] FILE EXPR;|query  --batch=0  s.test  x|0|0
2|usage: promqltest [options] FILE.. or query [options] FILE EXPR;|query  --batch=  s.test  x|0|0
2|usage: promqltest [options] FILE.. or query [options] FILE EXPR;|workload  --batch=3  5  --batch=3|0|0
0|PASS sevens.test:4;passed 1 failed 0;|promqltest  sevens.test|0|0
0|PASS sevens.test:4;passed 1 failed 0;|promqltest  --batch  1  sevens.test|0|0
0|PASS sevens.test:4;passed 1 failed 0;|promqltest  --batch  3  sevens.test|0|0
0|PASS sevens.test:4;passed 1 failed 0;|promqltest  --batch=1024  sevens.test|0|0
1|PASS a.test:4;FAIL a.test:7 up expected 3 got 2;passed 1 failed 1;|promqltest  --batch  1  a.test|0|0
0|x{i="1"} 1@0 2@60000 3@120000;x{i="2"} 20@0 10@60000 5@120000;|query  --batch  1  --from  0  --to  2m  --step  1m  s.test  x|0|0
0|x{i="1"} 2@60000 3@120000;x{i="2"} 20@0 10@60000;|query  --batch=2  --from  0  --to  2m  --step  1m  s.test  (x > 1) < 4 or x > 5|0|0
1|FAILED at 60000 irrational result;|query  --batch  3  --from  0  --to  2m  --step  1m  s.test  2 ^ (1 / scalar(x{i="1"}))|0|0
0|series 5 samples 305;PASS workload:8;PASS workload:11;PASS workload:17;passed 3 failed 0;|workload  --batch  3  5|0|0
0|rate(x{b!="c"}[5m] @ 3 offset 1h) + -1;|format  rate(x{b!="c"}[300s]offset 60m@3)+-1|0|0
0|x;|format  x {}|1|0
0|-1;|format  --  -1|0|0
0|label_replace(x{a=~"b"}, "c", "$1", "d", "(.*)");|format  label_replace(x{a=~'b'}, 'c', '$1', 'd', '(.*)')|0|0
1|REFUSED WrongType at 4;|format  sum(x{b!="c"}[5m:] offset 1h @ 3) by(a)|0|0
1|REFUSED Expected at 3;|format  1 +|0|0
1|REFUSED UnknownFunction foo at 4;|format  1 + foo(x)|0|0
1|REFUSED BadPattern at 5;|format  x{a=~"("}|0|0
4||format  x|0|1
2|usage: promqltest [options] FILE.. or query [options] FILE EXPR;|format|0|0
2|usage: promqltest [options] FILE.. or query [options] FILE EXPR;|format  x  y|0|0
2|usage: promqltest [options] FILE.. or query [options] FILE EXPR;|format  --edges=v2  x|0|0
0|select x{a="2", b="1"};|explain  x{b="1",a="2"}|1|0
0|select x{b="1", a="2"};|explain  --opts  none  x{b="1",a="2"}|0|0
0|select x;|explain  --  +x|0|0
1|REFUSED WrongType at 4;|explain  sum(x{b!="c"}[5m:] offset 1h @ 3) by(a)|0|0
1|REFUSED Expected at 3;|explain  --opts=none  1 +|0|0
2|usage: promqltest [options] FILE.. or query [options] FILE EXPR;|explain|0|0
2|usage: promqltest [options] FILE.. or query [options] FILE EXPR;|explain  --opts=sorts  x|0|0
0|{} 5.5@0;|query  --opts  none  s.test  avg(x{i="1"}) + avg(x) - 6|0|0
0|{} 5.5@0;|query  --opts  avg  s.test  avg(x{i="1"}) + avg(x) - 6|0|0
1|PASS a.test:4;FAIL a.test:7 up expected 3 got 2;passed 1 failed 1;|promqltest  --opts=none  a.test|0|0
"##;

/// A library of one file, `a.test`.
fn library_of(alloc: Global, text: &[u8]) -> Result<MemLibrary, AllocError> {
    let mut paths = Items::new(alloc);
    paths.push(Text::of(alloc, "a.test")?)?;
    let mut file: Items<u8> = Items::new(alloc);
    for byte in text {
        file.push(*byte)?;
    }
    let mut bytes = Items::new(alloc);
    bytes.push(file)?;
    Ok(MemLibrary::of(paths, bytes, Items::new(alloc)))
}

fn sink_of(alloc: Global, fails: u32) -> Result<MemSink, AllocError> {
    let mut failing = Items::new(alloc);
    failing.push(fails)?;
    Ok(MemSink::of(alloc, failing))
}

fn words_of(alloc: Global, line: &str) -> Result<Vec<String>, AllocError> {
    let mut words = Vec::new(alloc);
    for word in line.split("  ") {
        if !word.is_empty() {
            words.push(String::from_str(alloc, word)?)?;
        }
    }
    Ok(words)
}

/// A sink that takes at most so many bytes at once.
#[derive(Drop)]
struct Narrow {
    most: usize,
    bytes: Vec<u8>,
}

impl Sink for Narrow {
    ghost written = { λ narrow. Some narrow.bytes.items };

    ghost faults = { λ _. 0 };

    ghost sound = { λ _. Unit {0} };

    fn write(&mut self, piece: &[u8]) -> Result<usize, SinkFail> {
        let (front, _) = piece.split_at(piece.len().min(self.most.max(1)));
        self.bytes.extend_from_slice(front)?;
        Ok(front.len())
    }
}

/// Runs words with counters of their own.
fn run_counted<W: Ledger, L: Library, S: Sink>(
    alloc: Global,
    blank: Blank,
    words: &[String],
    library: &mut L,
    out: &mut S,
) -> Status
    requires name { blank.name ≡ W.name }
    requires parts { blank.parts ≡ W.parts }
    requires three { blank.parts ≡ 3 }
{
    let mut engines: Vec<Box<dyn Engine>> = Vec::new(alloc);
    let mut work = Work::<W>::new(blank);
    run_tool(
        alloc,
        words,
        library,
        out,
        &mut engines,
        &mut InOrder::new(),
        &mut work,
    )
}

fn run_words<L: Library, S: Sink>(
    alloc: Global,
    words: &[String],
    library: &mut L,
    out: &mut S,
) -> Status {
    run_counted::<Brand, L, S>(alloc, Blank::new(3), words, library, out)
}

/// Whether the file `a.test` of this text ends with this status, and has this report.
fn reports_so(alloc: Global, text: &[u8], status: u32, printed: &[u8]) -> Result<bool, AllocError> {
    let words = words_of(alloc, "promqltest  a.test")?;
    let mut library = library_of(alloc, text)?;
    let mut out = sink_of(alloc, 0)?;
    let got = run_words(alloc, &words, &mut library, &mut out);
    Ok(out.written() == printed && u32::from(got.0) == status)
}

/// Words over the files of `FILES`, and the numbers of the fetch and of the write that fail.
#[derive(Clone, Copy)]
struct Run<'a> {
    line: &'a str,
    fetch: u32,
    write: u32,
}

/// Whether a run ends with this status and has printed this.
fn runs_so(alloc: Global, run: Run<'_>, status: u32, printed: &[u8]) -> Result<bool, AllocError> {
    let words = words_of(alloc, run.line)?;
    let mut library = shelf_of(FILES, run.fetch);
    let mut out = sink_of(alloc, run.write)?;
    let got = run_words(alloc, &words, &mut library, &mut out);
    Ok(out.written() == printed && u32::from(got.0) == status)
}

/// The same over a sink that takes at most so many bytes at once.
fn runs_narrowly(
    alloc: Global,
    run: Run<'_>,
    most: usize,
    status: u32,
    printed: &[u8],
) -> Result<bool, AllocError> {
    let words = words_of(alloc, run.line)?;
    let mut library = shelf_of(FILES, run.fetch);
    let bytes = Vec::new(alloc);
    let mut out = Narrow { most, bytes };
    let got = run_words(alloc, &words, &mut library, &mut out);
    Ok(out.bytes.as_slice() == printed && u32::from(got.0) == status)
}

fn status_of(report: &[u8]) -> u32 {
    if report.starts_with(b"REFUSED") {
        6
    } else if report.ends_with(b"failed 0\n") {
        0
    } else {
        1
    }
}

/// Whether a row's script has its report.
fn row_reports_so(alloc: Global, row: &str) -> Result<bool, Fail> {
    let (told, script) = row.split_once('|').ok_or("no script")?;
    let mut text = Vec::new(alloc);
    push_script(&mut text, script)?;
    let mut report = Vec::new(alloc);
    push_lines(&mut report, told, b';')?;
    report.push(b'\n')?;
    Ok(reports_so(alloc, &text, status_of(&report), &report)?)
}

fn number_in(field: Option<&str>) -> u32 {
    field.unwrap_or("").parse::<u32>().unwrap_or(0)
}

/// Whether the words of a row come to what stands before them, however few bytes the sink takes at once, and whether each
/// write that fails in turn leaves the lines before it.
fn row_runs_so(alloc: Global, row: &str) -> Result<bool, Fail> {
    let mut fields = row.rsplitn(5, '|');
    let write = number_in(fields.next());
    let fetch = number_in(fields.next());
    let line = fields.next().unwrap_or("");
    let mut printed = Vec::new(alloc);
    push_lines(&mut printed, fields.next().unwrap_or(""), b';')?;
    let status = number_in(fields.next());
    let run = Run { line, fetch, write };
    if !runs_so(alloc, run, status, &printed)? {
        return Ok(false);
    }
    if write > 0 {
        return Ok(true);
    }
    Ok(runs_narrowly(alloc, run, 7, status, &printed)? && is_cut_so(alloc, run, &printed)?)
}

/// Whether each write that fails in turn ends the run with 4, behind the lines before it.
fn is_cut_so(alloc: Global, run: Run<'_>, printed: &[u8]) -> Result<bool, AllocError> {
    let mut write = 1u32;
    let mut begin = 0;
    for (place, byte) in printed.iter().enumerate() {
        if *byte != b'\n' {
            continue;
        }
        let (front, _) = printed.split_at(begin);
        let cut = Run { write, ..run };
        if !runs_so(alloc, cut, 4, front)? {
            return Ok(false);
        }
        write = write.saturating_add(1);
        begin = place + 1;
    }
    Ok(true)
}

#[test]
fn reports(rt: HostRuntime) -> Result<(), Fail> {
    rows_hold(rt.alloc(), REPORTS, 64, row_reports_so)?;
    rows_hold(rt.alloc(), LONG, 5, row_reports_so)
}

#[test]
fn words_are_run(rt: HostRuntime) -> Result<(), Fail> {
    choices_leave_reports();
    rows_hold(rt.alloc(), RUNS, 120, row_runs_so)
}
