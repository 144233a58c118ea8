//! Texts of queries, and what each is.

// Each line is a text and its tree, found by hand. Each node stands with the place of its first byte: `#` is a number, `''` a
// string, `()` parentheses, `-` a sign, `{}` a selector, whose label `_` is that of the metric's name, `[]` its range, `<>[:]` a
// subquery, `@` and `o` its time and its offset; then calls, aggregations and operators with their matching. A refusal is `!`, its
// kind and its place.
pub const TEXTS: &str = "\"a\" => 0'a'
'a' => 0'a'
abs(x) => 0Element(Abs)(4{_=x})
time() => 0Time()
abs() => 0Element(Abs)()
clamp(x, 1, 2) => 0Element(Clamp)(6{_=x},9#1,12#2)
rate(x[5m]) => 0Window(Rate)(5{_=x}[300000])
sort_desc(abs(x)) => 0SortDesc(10Element(Abs)(14{_=x}))
sum(x) => 0Sum(4{_=x})
SUM(x) => 0Sum(4{_=x})
avg(x) => 0Avg(4{_=x})
min(x) => 0Min(4{_=x})
max(x) => 0Max(4{_=x})
count(x) => 0Count(6{_=x})
group(x) => 0Group(6{_=x})
stdvar(x) => 0Stdvar(7{_=x})
topk(1, x) => 0TopK(5#1,8{_=x})
bottomk(1, x) => 0BottomK(8#1,11{_=x})
quantile(1, x) => 0Quantile(9#1,12{_=x})
count_values(\"v\", x) => 0CountValues(13'v',18{_=x})
sum by (a) (x) => 0Sum by[a](12{_=x})
sum(x) by (a) => 0Sum by[a](4{_=x})
sum without (a, b) (x) => 0Sum without[a,b](20{_=x})
sum(x) without () => 0Sum without[](4{_=x})
sum by () (x) => 0Sum(11{_=x})
sum BY (a,) (x) => 0Sum by[a](13{_=x})
sum by (\"a b\", by) (x) => 0Sum by[a b,by](20{_=x})
sum(x)[5m:] => 0<0Sum(4{_=x})>[300000:60000]
x[5m] => 0{_=x}[300000]
x[300] => 0{_=x}[300000]
x[0.5] => 0{_=x}[500]
x[100y] => 0{_=x}[3153600000000]
x[3153600000] => 0{_=x}[3153600000000]
x[5m:] => 0<0{_=x}>[300000:60000]
x[5m:30s] => 0<0{_=x}>[300000:30000]
x[5m:1] => 0<0{_=x}>[300000:1000]
x{a=\"b\"}[5m] => 0{_=x,a=b}[300000]
{a=\"b\"}[5m] => 0{a=b}[300000]
(x)[5m:] => 0<0(1{_=x})>[300000:60000]
x offset 1m[5m:] => 0<0{_=x}o60000>[300000:60000]
x[5m][5m:] => 0<0{_=x}[300000]>[300000:60000]
1[5m:] => 0<0#1>[300000:60000]
\"a\"[5m:] => 0<0'a'>[300000:60000]
rate(x[5m])[5m:1m] => 0<0Window(Rate)(5{_=x}[300000])>[300000:60000]
x[5m:][5m:] => 0<0<0{_=x}>[300000:60000]>[300000:60000]
-x[5m:] => 0-1<1{_=x}>[300000:60000]
x ^ y[5m:] => 0Arith(Pow)[0{_=x},4<4{_=y}>[300000:60000]]
x[5m] offset 1m => 0{_=x}[300000]o60000
x[5m:] offset 1m => 0<0{_=x}>[300000:60000]o60000
x offset 1m[5m:] offset 2m => 0<0{_=x}o60000>[300000:60000]o120000
x ^ y offset 5m => 0Arith(Pow)[0{_=x},4{_=y}o300000]
x[5m] @ 1 => 0{_=x}[300000]@1000
x[5m:] @ end() => 0<0{_=x}>[300000:60000]@end
1 == 2 + 3 => 0Filter(Eq)[0#1,5Arith(Add)[5#2,9#3]]
1 + 2 == 3 => 0Filter(Eq)[0Arith(Add)[0#1,4#2],9#3]
1 < 2 == 3 => 0Filter(Eq)[0Filter(Lt)[0#1,4#2],9#3]
x and y == z => 0And[0{_=x},6Filter(Eq)[6{_=y},11{_=z}]]
x == y and z => 0And[0Filter(Eq)[0{_=x},5{_=y}],11{_=z}]
x or y and z => 0Or[0{_=x},5And[5{_=y},11{_=z}]]
x and y or z => 0Or[0And[0{_=x},6{_=y}],11{_=z}]
x unless y and z => 0And[0Unless[0{_=x},9{_=y}],15{_=z}]
x or y or z => 0Or[0Or[0{_=x},5{_=y}],10{_=z}]
(x or y) and z => 0And[0(1Or[1{_=x},6{_=y}]),13{_=z}]
 => !Expected(0)
x + on(a) group_right(b) y => 0Arith(Add) on[a] GroupRight[b][0{_=x},25{_=y}]
x + on(a,) group_left(b,) y => 0Arith(Add) on[a] GroupLeft[b][0{_=x},26{_=y}]
x + on(a) group_left(b,b) y => 0Arith(Add) on[a] GroupLeft[b,b][0{_=x},26{_=y}]
x + ignoring(a) group_left(a) y => 0Arith(Add) ignoring[a] GroupLeft[a][0{_=x},30{_=y}]
x + by => 0Arith(Add)[0{_=x},4{_=by}]
x + on(a) group_left (b) y => 0Arith(Add) on[a] GroupLeft[b][0{_=x},25{_=y}]
x + sum by (a) (y) => 0Arith(Add)[0{_=x},4Sum by[a](16{_=y})]";

// Each line is a text in parts, and whether it has a tree, or its refusal. The parts are a head, a number of times another
// part, a middle, and a number of times a last part. `_` is nothing, and `~` a blank.
pub const BUILT: &str = "_ 65536 ( _ 0 _ => !TooDeep(128)
_ 65537 ( _ 0 _ => !TooLong(0)
_ 65536 - _ 0 _ => !TooDeep(128)
_ 32767 1+ 1 0 _ => !TooDeep(0)
_ 13107 a~or~ a 0 _ => !TooDeep(0)
_ 0 _ x 127 [1m:] => ok
_ 0 _ x 13000 [1m:] => !TooDeep(0)
x{ 10000 a=\"b\", } 0 _ => ok
x{ 10000 a=\"b\", \"c\"} 0 _ => !NameTwice(60005)";
