//! Queries of which a script doesn't tell all: their fractions, the order of their series, and the instants at which they fail.

/// The series of a query, each with its labels, seconds between its samples and these; the instant in seconds, or start, end and
/// step; its text; and what comes of it, worked by a script that knows the rules alone.
pub const ROWS: &str = "- ; 60 ; 2 ^ 0.5 ; FAILED at 60000 irrational
- ; 60 ; 1e30 * 10 ; FAILED at 60000 overflow
- ; 60 ; 1e30 ; scalar 1000000000000000000000000000000@60000
- ; 60 ; 1/3 ; scalar 1/3@60000
- ; 60 ; time() ; scalar 60@60000
a,i=1:60:1~a,i=2:60:2~b:60:1 ; 0 ; a * on() b ; FAILED at 0 many {}
a,x=1:60:1~a,x=2:60:1~b,x=2:60:1~c,x=1:60:2 ; 0 ; c{x=\"1\"} * {__name__=~\"a|b\"} ; FAILED at 0 one side {x=\"2\"}
a:60:1~b:60:2 ; 0 ; -{__name__=~\"a|b\"} ; FAILED at 0 same {}
a:60:1~b:60:2 ; 0 ; {__name__=~\"a|b\"} ; a 1@0, b 2@0
h_bucket,le=1:60:10~h_bucket,le=2:60:20~h_bucket,le=+Inf:60:20 ; 0 ; histogram_quantile(2, h_bucket) ; {} +Inf@0, range 2
h_bucket,le=1:60:10~h_bucket,le=2:60:20~h_bucket,le=+Inf:60:20 ; 0 ; histogram_quantile(0.75, label_replace(h_bucket, \"le\", \"x\", \"le\", \"2\")) ; {} 1@0, bucket x
h_bucket,le=1:60:10~h_bucket,le=2:60:5~h_bucket,le=+Inf:60:20 ; 0 ; histogram_quantile(0.9, h_bucket) ; {} 2@0, fixed
x,i=1:60:5~x,i=2:60:5~x,i=3:60:5~x,i=4:60:nan ; 0 ; count_values(\"v\", x) ; {v=\"5\"} 3@0, {v=\"NaN\"} 1@0
x,i=1:60:5~x,i=2:60:5~x,i=3:60:5~x,i=4:60:nan ; 0 ; sort_desc(x) ; x{i=\"1\"} 5@0, x{i=\"2\"} 5@0, x{i=\"3\"} 5@0, x{i=\"4\"} NaN@0
metric,a=b,c=d:60:2~metric,a=b:60:6 ; 0 ; sum(metric{a=\"b\",c=\"d\"}) / scalar(sum(metric{a=\"b\",c=\"\"})) ; {} 1/3@0
x,i=1:60:1~y:60:1 ; 0 ; x or vector(9) ; {} 9@0, x{i=\"1\"} 1@0
x,i=1:60:1~y:60:1 ; 0 ; vector(9) or x ; {} 9@0, x{i=\"1\"} 1@0
x,i=1:60:1~x,i=2:60:2 ; 0 ; count_values(\"v\", x) ; {v=\"1\"} 1@0, {v=\"2\"} 1@0
c:60:1/1/2/1 ; 180 ; irate(c[4m]) ; {} 1/60@180000
c:60:1/1/2/1 ; 180 ; deriv(c[4m]) ; {} 1/600@180000
c:60:1/1/2/1 ; 180 ; rate(c[4m]) ; {} 1/90@180000, counter c
x:60:0/1/2/3/4/5 ; 130 ; x @ 240 ; x 4@130000
x:60:0/1/2/3/4/5 ; 130 ; time() ; scalar 130@130000
x,i=1:60:inf~x,i=2:60:-inf~x,i=3:60:nan ; 0 ; sort_desc(x) ; x{i=\"1\"} +Inf@0, x{i=\"2\"} -Inf@0, x{i=\"3\"} NaN@0
x,i=1:60:inf~x,i=2:60:-inf~x,i=3:60:nan ; 0 ; count_values(\"v\", x) ; {v=\"+Inf\"} 1@0, {v=\"-Inf\"} 1@0, {v=\"NaN\"} 1@0
- ; 0 ; 1e31 ; REFUSED at 0
- ; 0 ; 1 + ; REFUSED at 3
- ; 0 ; foo(x) ; REFUSED at 0
x:60:1/2/3 ; 0..120/60 ; x ; x 1@0 2@60000 3@120000
x:60:1/2/3 ; 0..120/60 ; time() ; scalar 0@0 60@60000 120@120000
x:60:1/stale/3 ; 0..120/60 ; x ; x 1@0 3@120000
x:60:1 ; 0..60/60 ; time() ; scalar 0@0 60@60000
b:60:1~a:60:2 ; 0..0/1 ; {__name__=~\"a|b\"} ; a 2@0, b 1@0
x,i=1:60:1~x,i=2:60:2 ; 0..0/1 ; sort_desc(x) ; x{i=\"1\"} 1@0, x{i=\"2\"} 2@0
a,i=1:60:1/1/1~a,i=2:60:1/stale~b:60:1/1/1 ; 0..120/60 ; a * on() b ; FAILED at 0 many {}
a,i=1:60:1/1/1~a,i=2:60:_/1/stale~b:60:1/1/1 ; 0..120/60 ; a * on() b ; FAILED at 60000 many {}
a,i=1:60:1/1/1~a,i=2:60:_/_/1~b:60:1/1/1 ; 0..120/60 ; a * on() b ; FAILED at 120000 many {}
a:600:1/_/3~b:600:_/2/3 ; 0..600/600 ; -{__name__=~\"a|b\"} ; {} -1@0 -2@600000
a:600:1/_/3~b:600:_/2/3 ; 0..1200/600 ; -{__name__=~\"a|b\"} ; FAILED at 1200000 same {}
x,i=1:60:1/2~x,i=2:60:_/4 ; 0..60/60 ; sum by (i) (x) ; {i=\"1\"} 1@0 2@60000, {i=\"2\"} 4@60000
x:60:1/2/3 ; 0..120/60 ; x > 1 ; x 2@60000 3@120000
x:60:1/2/0 ; 0..120/60 ; 2 ^ (x / 2) ; FAILED at 0 irrational
c:60:0/60/30/90 ; 60..180/60 ; increase(c[2m]) ; {} 60@60000 60@120000 90@180000, counter c
x,i=1:60:1/1~y,i=1:60:2/2~x,i=2:60:3/3 ; 0..60/60 ; x * on(i) group_left y or x ; x{i=\"2\"} 3@0 3@60000, {i=\"1\"} 2@0 2@60000";
