//! Rows whose answers were worked out by exact arithmetic elsewhere.
ghost use Rattle.std.specs.Prelude.{◌≡◌, ◌≤◌, IsTrue, length};
ghost use Rattle.std.specs.List.{All};
ghost use Rattle.ticks.specs.Walks.{IsTime};
ghost use Rattle.window_fn.specs.Windows.{IsFrame, IsInFrame};

use crate::fractions::{field, number, read, rows_hold};
use func_table::{Found, Func, Window, find};
use std::alloc::Global;
use std::test::Fail;
use ticks::Ms;
use window_fn::{WindowFault, WindowFrame, carried, in_seconds, layout_of, over, quantile};
use xfrac::{ArithOp, NumFault, XFrac, arith, whole};

/// A call a line: the function; the range, the moment and the instant in milliseconds; the parameter; each sample as
/// its time and value; behind the arrow the answer.
const CALLS: &str =
    "rate 300000 300000 300000 nan 60000:60/1 120000:120/1 180000:180/1 240000:240/1 300000:300/1 => 1/1
increase 300000 300000 300000 nan 60000:60/1 120000:120/1 180000:180/1 240000:240/1 300000:300/1 => 300/1
increase 240000 180000 180000 nan 0:0/1 60000:10/1 120000:5/1 180000:15/1 => 25/1
changes 240000 180000 180000 nan 0:1/1 60000:1/1 120000:2/1 180000:1/1 => 2/1
resets 240000 180000 180000 nan 0:1/1 60000:1/1 120000:2/1 180000:1/1 => 1/1
idelta 240000 180000 180000 nan 0:1/1 60000:1/1 120000:2/1 180000:1/1 => -1/1
irate 240000 180000 180000 nan 0:1/1 60000:1/1 120000:2/1 180000:1/1 => 1/60
predict_linear 180000 180000 180000 60/1 60000:60/1 120000:120/1 180000:180/1 => 240/1
quantile_over_time 180000 180000 180000 1/2 60000:60/1 120000:120/1 180000:180/1 => 120/1
rate 60000 60000 60000 1/1 60000:5/1 => none
increase 60000 60000 60000 1/1 60000:5/1 => none
delta 60000 60000 60000 1/1 60000:5/1 => none
irate 60000 60000 60000 1/1 60000:5/1 => none
idelta 60000 60000 60000 1/1 60000:5/1 => none
deriv 60000 60000 60000 1/1 60000:5/1 => none
predict_linear 60000 60000 60000 1/1 60000:5/1 => none
changes 60000 60000 60000 1/2 60000:5/1 => 0/1
resets 60000 60000 60000 1/2 60000:5/1 => 0/1
sum_over_time 60000 60000 60000 1/2 60000:5/1 => 5/1
avg_over_time 60000 60000 60000 1/2 60000:5/1 => 5/1
min_over_time 60000 60000 60000 1/2 60000:5/1 => 5/1
max_over_time 60000 60000 60000 1/2 60000:5/1 => 5/1
count_over_time 60000 60000 60000 1/2 60000:5/1 => 1/1
stdvar_over_time 60000 60000 60000 1/2 60000:5/1 => 0/1
last_over_time 60000 60000 60000 1/2 60000:5/1 => 5/1
present_over_time 60000 60000 60000 1/2 60000:5/1 => 1/1
quantile_over_time 60000 60000 60000 1/2 60000:5/1 => 5/1
rate 120000 120000 120000 nan 60000:3/1 120000:7/1 => 7/120
increase 120000 120000 120000 nan 60000:3/1 120000:7/1 => 7/1
delta 120000 120000 120000 nan 60000:3/1 120000:7/1 => 8/1
irate 120000 120000 120000 nan 60000:3/1 120000:7/1 => 1/15
idelta 120000 120000 120000 nan 60000:3/1 120000:7/1 => 4/1
deriv 120000 120000 120000 nan 60000:3/1 120000:7/1 => 1/15
changes 120000 120000 120000 nan 60000:3/1 120000:7/1 => 1/1
resets 120000 120000 120000 nan 60000:3/1 120000:7/1 => 0/1
predict_linear 120000 120000 120000 30/1 60000:3/1 120000:7/1 => 9/1
increase 180000 180000 180000 nan 0:5/1 60000:1/1 120000:2/1 180000:3/1 => 3/1
increase 180000 180000 180000 nan 0:1/1 60000:5/1 120000:2/1 180000:3/1 => 7/1
increase 180000 180000 180000 nan 0:1/1 60000:2/1 120000:5/1 180000:3/1 => 7/1
increase 180000 180000 180000 nan 0:9/1 60000:5/1 120000:2/1 180000:1/1 => 8/1
increase 180000 180000 180000 nan 0:5/1 60000:0/1 120000:5/1 180000:0/1 => 5/1
delta 180000 180000 180000 nan 0:1/1 60000:5/1 120000:2/1 180000:3/1 => 2/1
rate 180000 180000 180000 nan 0:1/1 60000:2/1 120000:5/1 180000:3/1 => 7/180
resets 180000 180000 180000 nan 0:9/1 60000:5/1 120000:2/1 180000:1/1 => 3/1
changes 180000 180000 180000 nan 0:9/1 60000:9/1 120000:2/1 180000:2/1 => 1/1
increase 31000 120000 0 nan 100000:100/1 110000:103/1 120000:104/1 => 5/1
increase 30999 120000 0 nan 100000:100/1 110000:103/1 120000:104/1 => 30999/5000
increase 31001 120000 0 nan 100000:100/1 110000:103/1 120000:104/1 => 5/1
increase 31000 131000 0 nan 100000:100/1 110000:103/1 120000:104/1 => 5/1
increase 30999 130999 0 nan 100000:100/1 110000:103/1 120000:104/1 => 30999/5000
increase 31001 131001 0 nan 100000:100/1 110000:103/1 120000:104/1 => 5/1
increase 42000 131000 0 nan 100000:100/1 110000:103/1 120000:104/1 => 6/1
increase 90000 160000 0 nan 100000:100/1 110000:103/1 120000:104/1 => 6/1
delta 31000 120000 0 nan 100000:100/1 110000:103/1 120000:104/1 => 5/1
delta 30999 120000 0 nan 100000:100/1 110000:103/1 120000:104/1 => 30999/5000
delta 31001 120000 0 nan 100000:100/1 110000:103/1 120000:104/1 => 5/1
delta 31000 131000 0 nan 100000:100/1 110000:103/1 120000:104/1 => 5/1
delta 30999 130999 0 nan 100000:100/1 110000:103/1 120000:104/1 => 30999/5000
delta 31001 131001 0 nan 100000:100/1 110000:103/1 120000:104/1 => 5/1
delta 42000 131000 0 nan 100000:100/1 110000:103/1 120000:104/1 => 6/1
delta 90000 160000 0 nan 100000:100/1 110000:103/1 120000:104/1 => 6/1
increase 20000 120000 0 nan 100000:100/1 110000:103/1 120000:104/1 => 4/1
rate 20000 120000 0 nan 100000:100/1 120000:104/1 => 1/5
increase 30000 120000 0 nan 100000:1/1 110000:2/1 120000:5/1 => 5/1
delta 30000 120000 0 nan 100000:1/1 110000:2/1 120000:5/1 => 6/1
increase 30000 120000 0 nan 100000:0/1 110000:2/1 120000:5/1 => 5/1
increase 50000 120000 0 nan 100000:1/2 110000:2/1 120000:5/1 => 5/1
increase 30000 120000 0 nan 100000:5/1 110000:5/1 120000:5/1 => 0/1
delta 30000 120000 0 nan 100000:5/1 110000:4/1 120000:1/1 => -6/1
increase 30000 120000 0 nan 100000:-5/1 110000:4/1 120000:6/1 => 33/2
rate 30000 120000 0 nan 100000:-5/1 110000:-6/1 120000:-9/1 => -3/4
delta 30000 120000 0 nan 100000:5/1 110000:9/1 120000:5/1 => 0/1
rate 1 120000 0 nan 119999:1/3 120000:2/3 => 1000/3
increase 30000 120000 0 nan 100000:inf 110000:2/1 120000:4/1 => nan
increase 30000 120000 0 nan 100000:1/1 110000:inf 120000:4/1 => inf
increase 30000 120000 0 nan 100000:1/1 110000:2/1 120000:inf => inf
increase 30000 120000 0 nan 100000:-inf 110000:2/1 120000:4/1 => inf
increase 30000 120000 0 nan 100000:1/1 110000:-inf 120000:4/1 => 5/1
increase 30000 120000 0 nan 100000:1/1 110000:2/1 120000:-inf => -inf
increase 30000 120000 0 nan 100000:nan 110000:2/1 120000:4/1 => nan
increase 30000 120000 0 nan 100000:1/1 110000:nan 120000:4/1 => 4/1
increase 30000 120000 0 nan 100000:1/1 110000:2/1 120000:nan => nan
delta 30000 120000 0 nan 100000:inf 110000:2/1 120000:4/1 => -inf
delta 30000 120000 0 nan 100000:1/1 110000:inf 120000:4/1 => 9/2
delta 30000 120000 0 nan 100000:1/1 110000:2/1 120000:inf => inf
delta 30000 120000 0 nan 100000:-inf 110000:2/1 120000:4/1 => inf
delta 30000 120000 0 nan 100000:1/1 110000:-inf 120000:4/1 => 9/2
delta 30000 120000 0 nan 100000:1/1 110000:2/1 120000:-inf => -inf
delta 30000 120000 0 nan 100000:nan 110000:2/1 120000:4/1 => nan
delta 30000 120000 0 nan 100000:1/1 110000:nan 120000:4/1 => 9/2
delta 30000 120000 0 nan 100000:1/1 110000:2/1 120000:nan => nan
irate 30000 120000 0 nan 100000:1/1 110000:inf 120000:4/1 => 2/5
irate 30000 120000 0 nan 100000:1/1 110000:-inf 120000:4/1 => inf
irate 30000 120000 0 nan 100000:nan 110000:nan 120000:4/1 => nan
irate 30000 120000 0 nan 100000:inf 110000:-inf 120000:nan => nan
irate 30000 120000 0 nan 100000:1/1 110000:4/1 120000:nan => nan
idelta 30000 120000 0 nan 100000:1/1 110000:inf 120000:4/1 => -inf
idelta 30000 120000 0 nan 100000:1/1 110000:-inf 120000:4/1 => inf
idelta 30000 120000 0 nan 100000:nan 110000:nan 120000:4/1 => nan
idelta 30000 120000 0 nan 100000:inf 110000:-inf 120000:nan => nan
idelta 30000 120000 0 nan 100000:1/1 110000:4/1 120000:nan => nan
changes 30000 120000 0 nan 100000:1/1 110000:inf 120000:4/1 => 2/1
changes 30000 120000 0 nan 100000:1/1 110000:-inf 120000:4/1 => 2/1
changes 30000 120000 0 nan 100000:nan 110000:nan 120000:4/1 => 1/1
changes 30000 120000 0 nan 100000:inf 110000:-inf 120000:nan => 2/1
changes 30000 120000 0 nan 100000:1/1 110000:4/1 120000:nan => 2/1
resets 30000 120000 0 nan 100000:1/1 110000:inf 120000:4/1 => 1/1
resets 30000 120000 0 nan 100000:1/1 110000:-inf 120000:4/1 => 1/1
resets 30000 120000 0 nan 100000:nan 110000:nan 120000:4/1 => 0/1
resets 30000 120000 0 nan 100000:inf 110000:-inf 120000:nan => 1/1
resets 30000 120000 0 nan 100000:1/1 110000:4/1 120000:nan => 0/1
deriv 30000 120000 0 nan 100000:1/1 110000:inf 120000:4/1 => nan
deriv 30000 120000 0 nan 100000:1/1 110000:-inf 120000:4/1 => nan
deriv 30000 120000 0 nan 100000:nan 110000:nan 120000:4/1 => nan
deriv 30000 120000 0 nan 100000:inf 110000:-inf 120000:nan => nan
deriv 30000 120000 0 nan 100000:1/1 110000:4/1 120000:nan => nan
sum_over_time 30000 120000 0 nan 100000:1/1 110000:inf 120000:4/1 => inf
sum_over_time 30000 120000 0 nan 100000:1/1 110000:-inf 120000:4/1 => -inf
sum_over_time 30000 120000 0 nan 100000:nan 110000:nan 120000:4/1 => nan
sum_over_time 30000 120000 0 nan 100000:inf 110000:-inf 120000:nan => nan
sum_over_time 30000 120000 0 nan 100000:1/1 110000:4/1 120000:nan => nan
avg_over_time 30000 120000 0 nan 100000:1/1 110000:inf 120000:4/1 => inf
avg_over_time 30000 120000 0 nan 100000:1/1 110000:-inf 120000:4/1 => -inf
avg_over_time 30000 120000 0 nan 100000:nan 110000:nan 120000:4/1 => nan
avg_over_time 30000 120000 0 nan 100000:inf 110000:-inf 120000:nan => nan
avg_over_time 30000 120000 0 nan 100000:1/1 110000:4/1 120000:nan => nan
min_over_time 30000 120000 0 nan 100000:1/1 110000:inf 120000:4/1 => 1/1
min_over_time 30000 120000 0 nan 100000:1/1 110000:-inf 120000:4/1 => -inf
min_over_time 30000 120000 0 nan 100000:nan 110000:nan 120000:4/1 => 4/1
min_over_time 30000 120000 0 nan 100000:inf 110000:-inf 120000:nan => -inf
min_over_time 30000 120000 0 nan 100000:1/1 110000:4/1 120000:nan => 1/1
max_over_time 30000 120000 0 nan 100000:1/1 110000:inf 120000:4/1 => inf
max_over_time 30000 120000 0 nan 100000:1/1 110000:-inf 120000:4/1 => 4/1
max_over_time 30000 120000 0 nan 100000:nan 110000:nan 120000:4/1 => 4/1
max_over_time 30000 120000 0 nan 100000:inf 110000:-inf 120000:nan => inf
max_over_time 30000 120000 0 nan 100000:1/1 110000:4/1 120000:nan => 4/1
stdvar_over_time 30000 120000 0 nan 100000:1/1 110000:inf 120000:4/1 => nan
stdvar_over_time 30000 120000 0 nan 100000:1/1 110000:-inf 120000:4/1 => nan
stdvar_over_time 30000 120000 0 nan 100000:nan 110000:nan 120000:4/1 => nan
stdvar_over_time 30000 120000 0 nan 100000:inf 110000:-inf 120000:nan => nan
stdvar_over_time 30000 120000 0 nan 100000:1/1 110000:4/1 120000:nan => nan
min_over_time 30000 120000 0 nan 100000:nan 110000:nan => nan
max_over_time 30000 120000 0 nan 100000:nan 110000:nan => nan
changes 30000 120000 0 nan 100000:nan 110000:nan => 0/1
resets 30000 120000 0 nan 100000:nan 110000:nan => 0/1
last_over_time 30000 120000 0 nan 100000:1/1 110000:nan => nan
present_over_time 30000 120000 0 nan 100000:nan 110000:nan => 1/1
count_over_time 30000 120000 0 nan 100000:nan 110000:inf 120000:1/1 => 3/1
increase 30000 120000 0 nan 100000:-1000000000000000000000000000000/1 110000:1/1 120000:1000000000000000000000000000000/1 => overflow
increase 30000 120000 0 nan 100000:1000000000000000000000000000000/1 110000:1/1 120000:2/1 => overflow
delta 30000 120000 0 nan 100000:1/1000000000000000000000000000000 110000:1/1 120000:1/3 => overflow
delta 30000 120000 0 nan 100000:0/1 110000:1/1 120000:1000000000000000000000000000000/1 => overflow
rate 30000 120000 0 nan 100000:0/1 110000:1/1 120000:1/700000000000000000000000000001 => overflow
rate 1 120000 0 nan 119999:0/1 120000:1000000000000000000000000000000/1 => overflow
irate 1 120000 0 nan 119999:0/1 120000:1000000000000000000000000000000/1 => overflow
idelta 1 120000 0 nan 119999:-1000000000000000000000000000000/1 120000:1000000000000000000000000000000/1 => overflow
idelta 1 120000 0 nan 119999:inf 120000:1/3 => -inf
increase 30000 120000 0 nan 100000:1/1 110000:-1000000000000000000000000000000/1 120000:inf => inf
sum_over_time 30000 120000 0 nan 100000:1000000000000000000000000000000/1 110000:-1000000000000000000000000000000/1 => overflow
sum_over_time 30000 120000 0 nan 100000:1000000000000000000000000000000/1 110000:nan 120000:1/1 => overflow
sum_over_time 30000 120000 0 nan 100000:1000000000000000000000000000000/1 110000:inf 120000:0/1 => inf
avg_over_time 30000 120000 0 nan 100000:600000000000000000000000000000/1 110000:-600000000000000000000000000000/1 => overflow
avg_over_time 30000 120000 0 nan 100000:1/900000000000000000000000000000 110000:0/1 => overflow
avg_over_time 30000 120000 0 nan 100000:1/1 110000:2/1 120000:1/2 => 7/6
stdvar_over_time 30000 120000 0 nan 100000:1/1 110000:2/1 120000:4/1 => 14/9
stdvar_over_time 30000 120000 0 nan 100000:1000000000000000000/1 110000:0/1 => overflow
stdvar_over_time 30000 120000 0 nan 100000:1/1000000000000000000 110000:0/1 => overflow
stdvar_over_time 30000 120000 0 nan 100000:1/3 110000:1/2 120000:1/6 => 1/54
deriv 30000 120000 0 nan 100000:1000000000000000000000000000000/1 110000:0/1 => overflow
deriv 30000 120000 0 nan 100000:0/1 110000:200000000000000000000000000/1 => overflow
deriv 30000 120000 0 nan 100000:0/1 110000:1000000000000000000000000000000/1 120000:nan => nan
deriv 30000 120000 0 nan 100000:1/1 110000:1/2 120000:5/1 => 1/5
deriv 1000000000000000000 500000000000000000 0 nan -500000000000000000:1/1 0:2/1 500000000000000000:3/1 => overflow
predict_linear 30000 120000 3000000000000000 0/1 100000:1/1 110000:2/1 => overflow
predict_linear 30000 120000 900000 -60/1 100000:1/1 110000:1/2 120000:5/1 => 889/6
predict_linear 30000 120000 120000 inf 100000:1/1 120000:5/1 => inf
predict_linear 30000 120000 120000 inf 100000:5/1 120000:5/1 => nan
predict_linear 30000 120000 120000 nan 100000:1/1 120000:5/1 => nan
predict_linear 30000 120000 120000 3/1 100000:1/1 120000:-inf => nan
predict_linear 30000 120000 120000 1000000000000000000000000000000/1 100000:1/1 120000:5/1 => 200000000000000000000000000005/1
predict_linear 30000 120000 120000 1/3 100000:1/1 120000:5/1 => 76/15
increase 30000 120000 0 nan 100000:1/1 110000:2/1 120000:100000000000000000000000000000/1 => overflow
increase 30000 120000 0 nan 100000:30000000000000000/1 120000:300000000000000000000000000001/10000000000000 => overflow
rate 30000 120000 0 nan 100000:1/3 110000:1/2 120000:1/6 => 1/60
quantile_over_time 4000 4000 4000 -1/2 1000:5/1 2000:1/1 3000:4/1 4000:2/1 => -inf
quantile_over_time 4000 4000 4000 -1/1000000000000 1000:5/1 2000:1/1 3000:4/1 4000:2/1 => -inf
quantile_over_time 4000 4000 4000 0/1 1000:5/1 2000:1/1 3000:4/1 4000:2/1 => 1/1
quantile_over_time 4000 4000 4000 1/4 1000:5/1 2000:1/1 3000:4/1 4000:2/1 => 7/4
quantile_over_time 4000 4000 4000 1/3 1000:5/1 2000:1/1 3000:4/1 4000:2/1 => 2/1
quantile_over_time 4000 4000 4000 1/2 1000:5/1 2000:1/1 3000:4/1 4000:2/1 => 3/1
quantile_over_time 4000 4000 4000 3/4 1000:5/1 2000:1/1 3000:4/1 4000:2/1 => 17/4
quantile_over_time 4000 4000 4000 99/100 1000:5/1 2000:1/1 3000:4/1 4000:2/1 => 497/100
quantile_over_time 4000 4000 4000 1/1 1000:5/1 2000:1/1 3000:4/1 4000:2/1 => 5/1
quantile_over_time 4000 4000 4000 2/1 1000:5/1 2000:1/1 3000:4/1 4000:2/1 => inf
quantile_over_time 4000 4000 4000 nan 1000:5/1 2000:1/1 3000:4/1 4000:2/1 => nan
quantile_over_time 4000 4000 4000 inf 1000:5/1 2000:1/1 3000:4/1 4000:2/1 => inf
quantile_over_time 4000 4000 4000 -inf 1000:5/1 2000:1/1 3000:4/1 4000:2/1 => -inf
quantile_over_time 4000 4000 4000 1/3 1000:7/1 => 7/1
quantile_over_time 4000 4000 4000 0/1 1000:7/1 => 7/1
quantile_over_time 4000 4000 4000 1/1 1000:7/1 => 7/1
quantile_over_time 4000 4000 4000 0/1 1000:2/1 2000:nan 3000:2/1 4000:1/1 => nan
quantile_over_time 4000 4000 4000 1/2 1000:2/1 2000:nan 3000:2/1 4000:1/1 => 3/2
quantile_over_time 4000 4000 4000 1/1 1000:2/1 2000:nan 3000:2/1 4000:1/1 => 2/1
quantile_over_time 4000 4000 4000 2/3 1000:2/1 2000:nan 3000:2/1 4000:1/1 => 2/1
quantile_over_time 4000 4000 4000 0/1 1000:inf 2000:3/1 3000:-inf 4000:nan => nan
quantile_over_time 4000 4000 4000 1/3 1000:inf 2000:3/1 3000:-inf 4000:nan => -inf
quantile_over_time 4000 4000 4000 1/2 1000:inf 2000:3/1 3000:-inf 4000:nan => -inf
quantile_over_time 4000 4000 4000 1/1 1000:inf 2000:3/1 3000:-inf 4000:nan => nan
quantile_over_time 4000 4000 4000 1/2 1000:nan 2000:nan => nan
quantile_over_time 4000 4000 4000 1/2 1000:1000000000000000000000000000000/1 2000:-1000000000000000000000000000000/1 3000:0/1 => 0/1
quantile_over_time 4000 4000 4000 1/2 1000:1000000000000000000000000000000/1 2000:1000000000000000000000000000000/1 => 1000000000000000000000000000000/1
quantile_over_time 4000 4000 4000 1/2 1000:1000000000000000000000000000000/1 2000:999999999999999999999999999999/1 => overflow
quantile_over_time 4000 4000 4000 400000000000000000000000000001/1000000000000000000000000000000 1000:1/1 2000:2/1 3000:3/1 4000:4/1 => overflow
quantile_over_time 4000 4000 4000 1/11 1000:1/3 2000:1/7 => 37/231
rate 60000 -60000 -60000 nan -110000:1/1 -90000:4/1 -65000:2/1 => 59/540
deriv 60000 -60000 -60000 nan -110000:1/1 -90000:4/1 -65000:2/1 => 11/610";

fn function(name: &str) -> Result<Window, Fail> {
    match find(name) {
        Found::Known(Func::Window(window)) => Ok(window),
        _ => Err("no window function")?,
    }
}

fn answer(text: &str) -> Result<Result<Option<XFrac>, WindowFault>, Fail> {
    match text {
        "overflow" => Ok(Err(WindowFault::Overflow)),
        "none" => Ok(Ok(None)),
        _ => Ok(Ok(Some(read(text)?))),
    }
}

fn is_time(t: &Ms) -> bool
    ensures { IsTrue result → IsTime t.now.0 }
{
    -1_152_921_504_606_846_976 <= t.0 && t.0 <= 1_152_921_504_606_846_976
}

fn is_frame(frame: &WindowFrame) -> bool
    ensures { IsTrue result → IsFrame frame.now }
{
    if !is_time(&frame.eval) || !is_time(&frame.moment) || !is_time(&frame.range) {
        return false;
    }
    is_time(&Ms(frame.moment.0 - frame.range.0))
}

fn is_in(t: &Ms, frame: &WindowFrame) -> bool
    requires { IsFrame frame.now }
    ensures { IsTrue result → IsInFrame frame.now t.now }
{
    frame.moment.0 - frame.range.0 <= t.0 && t.0 <= frame.moment.0
}

fn are_in(times: &[Ms], frame: &WindowFrame) -> bool
    requires { IsFrame frame.now }
    ensures { IsTrue result → All (IsInFrame frame.now) times.now }
{
    for t in times {
        if !is_in(t, frame) {
            return false;
        }
    }
    true
}

fn milliseconds(word: &str) -> Result<Ms, Fail> {
    let n: i64 = word.parse()?;
    Ok(Ms(n))
}

/// The change from the first value to the last, carried on to the edges of the window as one of no counter.
fn change_carried(times: &[Ms], values: &[XFrac], frame: &WindowFrame) -> Result<XFrac, NumFault>
    requires same { length times.now ≡ length values.now }
    requires two { 2 ≤ length values.now }
    requires frame { IsFrame frame.now }
    requires times { All (IsInFrame frame.now) times.now }
{
    let change = arith(ArithOp::Sub, &values[values.len() - 1], &values[0])?;
    let layout = layout_of(times, frame)?;
    carried(false, &layout, &values[0], &change)
}

/// Whether both are one value, or both overflow.
fn is_same(found: &Result<Option<XFrac>, WindowFault>, carried: &Result<XFrac, NumFault>) -> bool {
    match (found, carried) {
        (Ok(Some(value)), Ok(other)) => value == other,
        (Err(_), Err(_)) => true,
        _ => false,
    }
}

/// The answer of a call whose conditions hold; of a quantile and of a change of no counter, that of both ways to it.
fn answered(
    alloc: Global,
    f: Window,
    times: &[Ms],
    values: &[XFrac],
    frame: &WindowFrame,
    arg: &XFrac,
) -> Result<Result<Option<XFrac>, WindowFault>, Fail> {
    if times.len() != values.len() || values.is_empty() || !is_frame(frame) {
        return Err("no window")?;
    }
    if !are_in(times, frame) {
        return Err("no window")?;
    }
    let found = over(alloc, f, times, values, frame, arg);
    if f == Window::QuantileOver && found != quantile(alloc, arg, values).map(|v| Some(v)) {
        return Err("two answers")?;
    }
    if f == Window::Delta && values.len() >= 2 {
        if !is_same(&found, &change_carried(times, values, frame)) {
            return Err("two answers")?;
        }
    }
    Ok(found)
}

fn frame_of(call: &str) -> Result<WindowFrame, Fail> {
    let range = milliseconds(field(call, 1)?)?;
    let moment = milliseconds(field(call, 2)?)?;
    let eval = milliseconds(field(call, 3)?)?;
    Ok(WindowFrame {
        eval,
        moment,
        range,
    })
}

fn times_of(alloc: Global, call: &str) -> Result<Vec<Ms>, Fail> {
    let mut times = Vec::new(alloc);
    for sample in call.split(' ').skip(5) {
        let (time, _) = sample.split_once(':').ok_or("no sample")?;
        times.push(milliseconds(time)?)?;
    }
    Ok(times)
}

fn values_of(alloc: Global, call: &str) -> Result<Vec<XFrac>, Fail> {
    let mut values = Vec::new(alloc);
    for sample in call.split(' ').skip(5) {
        let (_, value) = sample.split_once(':').ok_or("no sample")?;
        values.push(read(value)?)?;
    }
    Ok(values)
}

fn call_holds(alloc: Global, row: &str) -> Result<bool, Fail> {
    let (call, wanted) = row.split_once(" => ").ok_or("no answer")?;
    let f = function(field(call, 0)?)?;
    let frame = frame_of(call)?;
    let arg = number(call, 4)?;
    let times = times_of(alloc, call)?;
    let values = values_of(alloc, call)?;
    let found = answered(alloc, f, times.as_slice(), values.as_slice(), &frame, &arg)?;
    Ok(found == answer(wanted)?)
}

#[test]
fn windows(rt: HostRuntime) -> Result<(), Fail> {
    let alloc = rt.alloc();
    rows_hold(CALLS, 216, |row| call_holds(alloc, row))
}

#[test]
fn seconds(_rt: HostRuntime) -> Result<(), Fail> {
    if in_seconds(&whole(90_000)) != Ok(whole(90)) {
        return Err("90,000 milliseconds")?;
    }
    Ok(())
}
