//! Queries of all kinds over a few series. Drawn at random.

/// A series a line: its labels, seconds between its samples, and these.
pub const SERIES: &str = "m,i=1,j=1:60:0/10/1/7/_/0/-1/7
m,i=1,j=2:60:_/1/-2/3/3/1/stale/4
m,i=2,j=1:60:4/2/stale/7/nan/2/5/1
m,i=3:60:3/3/2/2/5/5/inf/-inf
n,i=1,k=a:60:1/5/5/_/3/4/0/2
n,i=2,k=b:60:1/-2/0/2/0/7/2/2
n,i=4,k=a:60:_/_/6/6/stale/5/-1/1
b,i=1:60:2/10/2/1/10/10/1/3
b,i=2:60:10/stale/0/5/-3/2/2/2
b,i=3:60:7/7/4/1/7/4/2/2
c_total,i=1,j=1:60:0/6/9/9/12/2/10/15
c_total,i=2,j=1:60:2/5/2/5/10/14/15/21
c_total,i=3,j=3:60:6/8/_/3/4/_/9/9
h_bucket,i=1,le=1:60:1/2/3/4/5/6/7/8
h_bucket,i=1,le=2:60:2/4/6/8/10/12/14/16
h_bucket,i=1,le=+Inf:60:3/6/9/12/15/18/21/24
h_bucket,i=2,le=1:60:0/1/2/3/4/5/6/7
h_bucket,i=2,le=+Inf:60:1/4/7/10/13/16/19/22";

/// A query a line. None is refused; over the walk four fail, and all others but two have rows.
pub const QUERIES: &str = "last_over_time(b{j=\"\"}[2m])
topk by (i, j) (scalar(sum(b)) / 5, absent(m{i!=\"\",j=\"1\"} @ end() offset 30s))
b * on (i) group_right clamp(max_over_time(b{i=~\".+\"}[2m] @ end()), 0, time())
((1 / 3) / (m{j=\"\"} @ 120)) and on (i) sort(count_over_time(n[3m] offset -1m))
m < on (i) b
label_replace(quantile_over_time(0.9, (m{i=~\".+\"} @ start())[2m:1m]), \"j\", \"x$1\", \"j\", \"(.*)\")
bottomk by (i) (1, avg without (i, k) (changes(m{j!~\"2|3\"}[5m] offset 1m @ 180)))
sum by (i) (increase(c_total{i=~\"1|2\"}[2m] @ 120)) * on (i) max by (i) (m == 2)
rate(c_total{j!~\"2|3\"}[5m])
clamp(rate(c_total[5m]) or on (i) max_over_time(m[90s] @ start()), 0, 2)
sum by () (-({__name__=~\"m|n\"}) unless rate(c_total{i=~\"1|2\"}[5m] offset -1m))
m != bool on (i) b
max_over_time((sort(n{j=\"\"} @ start()))[3m:1m] offset 1m)
min without (i, k) ((m @ start()) < 2)
n - on (i) max by (i) (n{i!=\"2\"} @ end())
count_values by () (\"v\", m{j=\"\"} offset -1m) or on (i) -(last_over_time(m{i=\"1\"}[90s] @ 120))
last_over_time((b{j=\"\"} offset 1m @ 180)[2m:30s] @ end()) < bool 2
clamp(clamp(c_total @ start(), 0, 2), 0, 2)
bottomk(scalar(sum(b)) / 5, avg without (i, k) (rate(c_total[2m])))
sum by (i) (m{i!=\"\",j=\"1\"} offset 1m @ 180) / on (i) group_right irate(c_total{j!~\"2|3\"}[90s] @ 120) + on (i) group_left n
delta(m{i=\"1\"}[3m])
vector((1 / 3))
count(vector((1 / 3)))
bottomk by (j) (2, m{i=\"1\"})
last_over_time(n{j!~\"2|3\"}[2m] offset 1m @ 180)
avg(clamp(b{i=~\".+\"} offset 1m @ 180, 0, 2))
n % on (i) max by (i) (count without (j) (c_total{i=~\"1|2\"} @ end() offset 30s))
({__name__=~\"m|n\"} offset 1m @ 180) unless on (i) b{j!~\"2|3\"}
vector(time() / 60) >= bool 3
abs(rate(c_total{i=~\".+\"}[3m] @ end() offset 30s))
bottomk without (i, k) (1, b >= bool m offset 1m)
b % on (i) b
rate(timestamp(m{i!=\"\",j=\"1\"})[2m:1m] offset 1m)
abs(stdvar_over_time(m{j=\"\"}[2m] @ start()))
group without (i, k) (group by () (max_over_time((delta(n{i=~\"1|2\"}[2m] @ 120))[3m:45s])))
label_replace(count_over_time(m[3m]) == bool 2, \"i\", \"y\", \"j\", \"([12])\") or max_over_time(c_total{i=~\".+\"}[3m] @ start())
count_over_time(m{j!~\"2|3\"}[2m])
count by () (delta(b{i=\"1\"}[3m] @ 120) + on (i) group_left max by (i) (delta(m[90s] @ start())))
c_total + ignoring (k) c_total{i!=\"\",j=\"1\"}
(b offset 1m @ 180) and on (i) timestamp(increase(c_total{i=~\"1|2\"}[90s] offset -1m))
vector((1 / 3)) < bool 2
clamp(m{i!=\"2\"} - ignoring (k) m{i=\"1\"}, 0, 2)
avg by () (quantile without (j) (0.25, changes(b{i=~\"1|2\"}[5m] @ 120)))
b{i=~\".+\"} % ignoring (k) b
rate(c_total[90s])
absent(n{k=\"a\"} > 5)
stdvar(histogram_quantile(0.5, rate(h_bucket[3m])))
bottomk by (i, j) (2, increase(c_total[2m] @ end() offset 30s) % on (i) group_left (k) max by (i) (sum_over_time(m[2m:30s])))
present_over_time((b == b)[3m:1m] @ 150)
sum without (i, k) (quantile_over_time(0.5, n{i!=\"2\"}[2m] offset -1m) == bool 3)
n - ignoring (j, k) max by (i) (topk without (i, k) (2, quantile_over_time(0.5, m[2m])))
count_over_time(b{i=~\".+\"}[90s]) or (group by (i, j) (m{i=~\".+\"} @ 120))
m >= bool on (i) b
sort_desc(m == on (i) b)
count without (i, k) (sort_desc({__name__=~\"m|n\",i!=\"2\"} offset 1m))
n % ignoring (j, k) b
count_over_time(m{i!=\"2\"}[5m] @ 120)
label_replace(quantile_over_time(1.5, (count_over_time(m{i=\"1\"}[3m] offset 1m))[3m:45s] @ 150), \"l\", \"y\", \"i\", \"([12])\")
bottomk by (i, j) (1, b)
vector(time() / 60)";
