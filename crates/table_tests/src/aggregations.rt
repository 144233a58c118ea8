use crate::written::{is_wanted, names, value, vector};
use func_table::{Aggregate, Element, Found, Func, find};
use label_set::Grouping;
use promql_meaning::*;
use std::alloc::Global;
use std::test::Fail;
use step_table::Step;
use xfrac::{XFrac, whole};

// Each line is a vector, an aggregation with its parameter and grouping, and the rows and the marks that come, worked by hand. A
// row is its metric's name and its labels, and a value behind a colon; `#N` is N labels from `l0` on, and `big` is 10^30. A mark
// is the letter of its kind and its labels, `Q` the note of a quantile; one of the vector stands behind `!`.
const GROUPS: &str = "x,i=1:1;x,i=2:2 avg :3/2 -
x,i=1:1;x,i=2:2 quantile=1/4 :5/4 -
x,i=1:1;x,i=2:2 stdvar :1/4 -
x,i=1:1;x,i=2:2 count_values=v ,v=1:1;,v=2:1 -
,i=1:0;,i=2:0 count_values=i;by=i ,i=0:2 -
x,i=1:1;x,i=2:2 count_values=i;wo=i :2 -
x,i=1:1;x,i=2:2 topk=1;by=i x,i=1:1;x,i=2:2 -
x,i=1:1;x,i=2:2 topk=nan - O
x,i=1:1;x,i=2:2 topk=inf - O
x,i=1:5;x,i=2:5;x,i=3:5;x,i=4:nan topk=2 x,i=1:5;x,i=2:5 -
x,r=eu:600000000000000000000000000000;x,r=us:-600000000000000000000000000000 sum - O
x,r=eu:600000000000000000000000000000;x,r=us:-600000000000000000000000000000 avg - O
a,i=1:1;a,i=2:2 sum :3 -
a,i=1,j=1:1;a,i=1,j=2:2;a,i=2,j=1:4 sum;by=i ,i=1:3;,i=2:4 -
a,i=1,j=1:1;a,i=1,j=2:2;a,i=2,j=1:4 sum;wo=i ,j=1:5;,j=2:2 -
a,i=1,j=1:1;a,i=1,j=2:2;a,i=2,j=1:4 sum;wo= ,i=1,j=1:1;,i=1,j=2:2;,i=2,j=1:4 -
a,i=1,j=1:1;a,i=1,j=2:2;a,i=2,j=1:4 sum;by=j,i ,i=1,j=1:1;,i=1,j=2:2;,i=2,j=1:4 -
a,i=1,j=1:1;a,i=1,j=2:2 sum;by=k :3 -
a,i=1:1;b,i=1:2 sum;by=__name__ a:1;b:2 -
a,i=1:1;b,i=1:2 sum;wo=i :3 -
a,i=1:1;b,i=1:2 sum;by=i ,i=1:3 -
- sum - -
- count - -
- group;by=i - -
- quantile=2 - -
- count_values=v - -
- topk=1 - -
- topk=nan - O
- bottomk=inf - O
a,i=1:inf;a,i=2:-inf sum :nan -
a,i=1:inf;a,i=2:1 sum :inf -
a,i=1:nan;a,i=2:1 sum :nan -
a,i=1:nan;a,i=2:1 min :1 -
a,i=1:nan;a,i=2:1 max :1 -
a,i=1:nan;a,i=2:nan max :nan -
a,i=1:nan min :nan -
a,i=1:3;a,i=2:-1;a,i=3:2 min :-1 -
a,i=1:3;a,i=2:-1;a,i=3:2 max :3 -
a,i=1:-inf;a,i=2:inf max :inf -
a,i=1:nan;a,i=2:1 count :2 -
a,i=1,j=1:5;a,i=1,j=2:6;a,i=2,j=1:7 count;by=i ,i=1:2;,i=2:1 -
a,i=1:nan;a,i=2:1 group :1 -
a,i=1:big;a,i=2:1 sum - O
a,i=1,j=1:big;a,i=1,j=2:1;a,i=2,j=1:5 sum;by=i ,i=2:5 O
a,i=1,j=1:big;a,i=1,j=2:1;a,i=2,j=1:5 max;by=i ,i=1:big;,i=2:5 -
a,i=1:1/3;a,i=2:1/6 avg :1/4 -
a,i=1:2;a,i=2:4;a,i=3:4;a,i=4:4;a,i=5:5;a,i=6:5;a,i=7:7;a,i=8:9 stdvar :4 -
a,i=1:7 stdvar :0 -
a,i=1:inf;a,i=2:1 stdvar :nan -
a,i=1:4;a,i=2:1;a,i=3:3;a,i=4:2 quantile=1/2 :5/2 -
a,i=1:4;a,i=2:1;a,i=3:3;a,i=4:2 quantile=0 :1 -
a,i=1:4;a,i=2:1;a,i=3:3;a,i=4:2 quantile=1 :4 -
a,i=1:4;a,i=2:1;a,i=3:3;a,i=4:2 quantile=1/3 :2 -
a,i=1:7 quantile=1/2 :7 -
a,i=1:nan;a,i=2:1 quantile=1 :1 -
a,i=1:nan;a,i=2:1 quantile=0 :nan -
a,i=1:1;a,i=2:2 quantile=2;by=i ,i=1:inf;,i=2:inf Q2
a,i=1:1;a,i=2:2 quantile=-1 :-inf Q-1
a,i=1:1;a,i=2:2 quantile=nan :nan Qnan
a,i=1:1;a,i=2:3;a,i=3:2 topk=2 a,i=2:3;a,i=3:2 -
a,i=1:1;a,i=2:3;a,i=3:2 bottomk=2 a,i=1:1;a,i=3:2 -
a,i=1:1;a,i=2:3 topk=0 - -
a,i=1:1;a,i=2:3 topk=-1 - -
a,i=1:1;a,i=2:3 topk=-inf - -
a,i=1:1;a,i=2:3 topk=1/2 - -
a,i=1:1;a,i=2:3 topk=3/2 a,i=2:3 -
a,i=1:1;a,i=2:3 topk=9 a,i=1:1;a,i=2:3 -
a,i=1:1;a,i=2:3 topk=big - O
a,i=1:1;a,i=2:3 topk=9223372036854775807 a,i=1:1;a,i=2:3 -
a,i=1:1;a,i=2:3 topk=9223372036854775808 - O
a,i=1:nan;a,i=2:5 bottomk=1 a,i=2:5 -
a,i=1:nan;a,i=2:5 topk=1 a,i=2:5 -
a,i=1:nan;a,i=2:5 topk=2 a,i=1:nan;a,i=2:5 -
a,i=1:inf;a,i=2:1 topk=1 a,i=1:inf -
a,i=1:-inf;a,i=2:1 bottomk=1 a,i=1:-inf -
a,i=1:5;b,i=1:5 topk=1 a,i=1:5 -
a,i=1:5;b,i=1:5 bottomk=1 a,i=1:5 -
a,i=1,j=1:1;a,i=1,j=2:2;a,i=2,j=1:4;a,i=2,j=2:3 topk=1;by=i a,i=1,j=2:2;a,i=2,j=1:4 -
a,i=1,j=1:1;a,i=1,j=2:2;a,i=2,j=1:4;a,i=2,j=2:3 bottomk=1;wo=j a,i=1,j=1:1;a,i=2,j=2:3 -
a,i=1:1;a,i=2:1;a,i=3:nan;a,i=4:nan count_values=v ,v=1:2;,v=NaN:2 -
a,i=1:1/3;a,i=2:-1/2;a,i=3:inf count_values=v ,v=+Inf:1;,v=-0.5:1;,v=1/3:1 -
a,i=1:1;a,i=2:1 count_values=__name__ 1:2 -
x,i=1:1;x,i=2:2 count_values=__name__;wo= ,i=1:1;,i=2:1 -
x,i=1,j=1:5 count_values=i;wo=j ,i=5:1 -
x,i=1,j=1:5;x,i=2,j=1:5 count_values=v;by=j ,j=1,v=5:2 -
,#64:1 count_values=v;wo= - O
,#64:1 count_values=l0;wo= ,#64,l0=1:1 -
a:1;!I sum :1 I
a:1;!O;!S,a=1 topk=1 a:1 O;S,a=1
a:1;!I topk=nan - O;I
a:1;!I count_values=v ,v=1:1 I
a:5 sum :5 -
a,i=1:3;a,i=2:-3 sum :0 -
a,i=1:1/2;a,i=2:1/3;a,i=3:1/6 sum :1 -
a,i=1:-inf;a,i=2:5 sum :-inf -
a,i=1:nan;a,i=2:inf sum :nan -
a,i=1:big;a,i=2:0 sum :big -
a,i=1:big;a,i=2:inf sum :inf -
a,i=1:big;a,i=2:1;a,i=3:nan sum - O
a,i=1:1/1000000000000000;a,i=2:1/1000000000000001 sum - O
a,i=1,j=1:1;a,i=2,j=1:4;b,i=1,j=2:2 sum;by=__name__,i a,i=1:1;a,i=2:4;b,i=1:2 -
a,i=1,j=1:1;a,i=2,j=1:4;b,i=1,j=2:2 sum;wo=j ,i=1:3;,i=2:4 -
a,i=1,j=1:1;a,i=2,j=1:4;b,i=1,j=2:2 sum;wo=i,j :7 -
a,i=1,j=1:1;a,i=2,j=1:4;b,i=1,j=2:2 sum;by= :7 -
a,i=1,j=1:1;a,i=2,j=1:4;b,i=1,j=2:2 count;by=j ,j=1:2;,j=2:1 -
a,i=1,j=1:1;a,i=2,j=1:4;b,i=1,j=2:2 count;wo= ,i=1,j=1:1;,i=1,j=2:1;,i=2,j=1:1 -
a,i=1:1;b,i=1:2 count;wo= ,i=1:2 -
a,i=1:1;b,i=1:2 group;wo= ,i=1:1 -
a,i=1:1;b,i=1:2 max;wo= ,i=1:2 -
a,i=1:1;b,i=1:2 min;by=i,__name__ a,i=1:1;b,i=1:2 -
a:1;!Q2 sum :1 Q2
a,i=1:1;a,i=2:2;a,i=3:4 avg :7/3 -
a,i=1:inf;a,i=2:5 avg :inf -
a,i=1:inf;a,i=2:-inf avg :nan -
a,i=1:nan;a,i=2:5 avg :nan -
a,i=1:big;a,i=2:big avg - O
a:big avg :big -
a,i=1:0;a,i=2:1/1000000000000000000000000000000 avg - O
a,i=1,j=1:1;a,i=1,j=2:2;a,i=2,j=1:4 avg;by=i ,i=1:3/2;,i=2:4 -
- avg;by=i - -
a,i=1:nan;a,i=2:inf min :inf -
a,i=1:nan;a,i=2:-inf max :-inf -
a,i=1:1/3;a,i=2:1/2 min :1/3 -
a,i=1:1/3;a,i=2:1/2 max :1/2 -
a,i=1:-1/3;a,i=2:-1/2 max :-1/3 -
a,i=1:inf;a,i=2:-inf min :-inf -
a,i=1:5;a,i=2:5 min :5 -
a,i=1,j=1:nan;a,i=1,j=2:2;a,i=2,j=1:nan min;by=i ,i=1:2;,i=2:nan -
a:5 group :1 -
a,i=1:inf;a,i=2:-inf count :2 -
a,i=1,j=1:5;a,i=1,j=2:6;a,i=2,j=1:7 group;by=i ,i=1:1;,i=2:1 -
a,i=1:1;a,i=2:2;a,i=3:3 stdvar :2/3 -
a,i=1:nan;a,i=2:1 stdvar :nan -
a,i=1:1/2;a,i=2:-1/2 stdvar :1/4 -
a,i=1:1000000000000000;a,i=2:-1000000000000000 stdvar - O
a,i=1:3000000000000000;a,i=2:0 stdvar - O
a:1000000000000000000 stdvar :0 -
a,i=1,j=1:1;a,i=1,j=2:3;a,i=2,j=1:inf stdvar;by=i ,i=1:1;,i=2:nan -
a,i=1:1;a,i=2:2;a,i=3:3 quantile=1/2 :2 -
a,i=1:1;a,i=2:2;a,i=3:3 quantile=1/4 :3/2 -
a,i=1:1;a,i=2:2;a,i=3:3;a,i=4:4;a,i=5:5 quantile=9/10 :23/5 -
a,i=1:10;a,i=2:20 quantile=1/3 :40/3 -
a,i=1:nan;a,i=2:1;a,i=3:3 quantile=1/2 :1 -
a,i=1:nan;a,i=2:1;a,i=3:3 quantile=1/4 :nan -
a,i=1:inf;a,i=2:1 quantile=0 :nan -
a,i=1:inf;a,i=2:1 quantile=1 :nan -
a,i=1:inf;a,i=2:1 quantile=1/2 :inf -
a,i=1:-inf;a,i=2:inf quantile=1/2 :nan -
a,i=1:600000000000000000000000000000;a,i=2:-600000000000000000000000000000 quantile=1/2 :0 -
a,i=1:0;a,i=2:big quantile=1/3 :1000000000000000000000000000000/3 -
a,i=1:0;a,i=2:big quantile=2/3 - O
a,i=1:1;a,i=2:2 quantile=inf :inf Qinf
a,i=1:1;a,i=2:2 quantile=-inf :-inf Q-inf
a:nan quantile=2 :inf Q2
a,i=1,j=1:1;a,i=1,j=2:3;a,i=2,j=1:7 quantile=1/2;by=i ,i=1:2;,i=2:7 -
a,i=1,j=1:1;a,i=1,j=2:3;a,i=2,j=1:7 quantile=-1/2;by=j ,j=1:-inf;,j=2:-inf Q-1/2
a:1;!Q3 quantile=2 :inf Q2;Q3
a:1;!Q2 quantile=2 :inf Q2
a:1;!O;!Q3 quantile=1/2 :1 O;Q3
-;!Q3 quantile=2 - Q3
a,i=1:1;a,i=2:nan;a,i=3:3 topk=1 a,i=3:3 -
a,i=1:1;a,i=2:nan;a,i=3:3 bottomk=3 a,i=1:1;a,i=2:nan;a,i=3:3 -
a,i=1:nan;a,i=2:nan topk=1 a,i=1:nan -
a,i=1:nan;a,i=2:nan bottomk=1 a,i=1:nan -
a,i=1:nan;a,i=2:-inf topk=1 a,i=2:-inf -
a,i=1:2;a,i=2:1;a,i=3:2 topk=1 a,i=1:2 -
a,i=1:2;a,i=2:1;a,i=3:1 bottomk=1 a,i=2:1 -
a,i=1:2;a,i=2:2;a,i=3:1 bottomk=2 a,i=1:2;a,i=3:1 -
a,i=1:inf;a,i=2:-inf;a,i=3:0 topk=2 a,i=1:inf;a,i=3:0 -
a,i=1:inf;a,i=2:-inf;a,i=3:0 bottomk=2 a,i=2:-inf;a,i=3:0 -
a,i=1:1/3;a,i=2:1/2;a,i=3:2/5 topk=2 a,i=2:1/2;a,i=3:2/5 -
a,i=1,j=1:1;b,i=1,j=1:2;b,i=2,j=1:3 topk=1;by=i b,i=1,j=1:2;b,i=2,j=1:3 -
a,i=1:1;b,i=1:2 topk=1;wo= b,i=1:2 -
a,i=1:1;b,i=1:2 topk=1;by=__name__ a,i=1:1;b,i=1:2 -
a,i=1,j=1:nan;a,i=1,j=2:nan;a,i=2,j=1:4;a,i=2,j=2:4 bottomk=1;by=i a,i=1,j=1:nan;a,i=2,j=1:4 -
a,i=1:1;a,i=2:3 topk=18446744073709551615/2 a,i=1:1;a,i=2:3 -
a,i=1:1;a,i=2:3 bottomk=19/10 a,i=1:1 -
a,i=1:1;a,i=2:3 bottomk=-1/2 - -
a,i=1:1;a,i=2:3 bottomk=nan - O
a:5;!S,x=1 bottomk=inf - O;S,x=1
a:1;!I;!Q2 topk=nan - O;I;Q2
a,i=1:1;a,i=2:1;b,i=1:1 count_values=v;by=i ,i=1,v=1:2;,i=2,v=1:1 -
a,i=1:1;b,i=1:1 count_values=v;wo= ,i=1,v=1:2 -
a,i=1:1;b,i=1:2 count_values=v;by=__name__ a,v=1:1;b,v=2:1 -
a,i=1:1;b,i=1:1 count_values=__name__;by=__name__ 1:2 -
a,v=7:1 count_values=v;by=v ,v=1:1 -
a,v=7:1 count_values=v;wo=v :1 -
a,v=7:1 count_values=v;wo= ,v=1:1 -
a,i=1:-inf;a,i=2:-1;a,i=3:1/8 count_values=v ,v=-1:1;,v=-Inf:1;,v=0.125:1 -
a,i=1:1;a,i=2:10;a,i=3:2 count_values=v ,v=1:1;,v=10:1;,v=2:1 -
a,i=1:2/3;a,i=2:2/3 count_values=v ,v=2/3:2 -
a:big count_values=v ,v=1000000000000000000000000000000:1 -
a,i=1:5;a,i=2:5 count_values=i ,i=5:2 -
a,i=1:2;a,i=2:1 count_values=i;by=i ,i=1:1;,i=2:1 -
,#64:1 count_values=v ,v=1:1 -
b:1;,#64:1 count_values=v;wo= ,v=1:1 O
a:1;!Q2 count_values=v ,v=1:1 Q2";

// The same for element functions with what they take.
const ROWS: &str = "a:1 neg :-1 -
a:1;b:2 neg - S
a:-3/2 abs :3/2 -
a:-3/2 ceil :-1 -
a:-3/2 floor :-2 -
a:-3/2 sgn :-1 -
a:0 sgn :0 -
a:nan sgn :nan -
a:-inf abs :inf -
a:-3/2 round=1 :-1 -
a:7 round=5 :5 -
a:8 round=5 :10 -
a:5 round=0 :nan -
a:inf round=1 :inf -
a:big round=1 - O
a:big;b:2 round=1 :2 O
a:3 clamp=1,2 :2 -
a:0 clamp=1,2 :1 -
a:3/2 clamp=1,2 :3/2 -
a:3/2 clamp=2,1 - -
a:nan clamp=2,1 - -
a:nan clamp=1,2 :nan -
a:1 clamp=nan,2 :nan -
a:1 clamp_min=2 :2 -
a:3 clamp_min=2 :3 -
a:3 clamp_max=2 :2 -
a:3 clamp_max=nan :nan -
a,i=1:1;a,i=2:-2 abs ,i=1:1;,i=2:2 -
a,x=1:1;b,x=1:2;c,x=2:3 abs ,x=2:3 S,x=1
a,x=2:1;b,x=1:2 abs ,x=1:2;,x=2:1 -
- abs - -
a:1;!I neg :-1 I
a:1;b:2;!O;!S,z=1 neg - O;S;S,z=1
a:inf neg :-inf -
a:nan neg :nan -
a:1/3 ceil :1 -
a:nan ceil :nan -
a:1/3 floor :0 -
a:-inf floor :-inf -
a:-5 sgn :-1 -
a:inf sgn :1 -
a:5/2 round=1 :3 -
a:-5/2 round=1 :-2 -
a:7/10 round=1/5 :4/5 -
a:1 round=nan :nan -
a:1 round=inf :nan -
a:5 clamp=3,3 :3 -
a:inf clamp=0,3 :3 -
a:-inf clamp=0,3 :0 -
a:1 clamp=1,nan :nan -
a:1 clamp=inf,-inf - -
a:-1 clamp_min=0 :0 -
a:nan clamp_min=0 :nan -
a:5 clamp_min=nan :nan -
a:inf clamp_max=5 :5 -
a:-1/2 clamp_max=5 :-1/2 -
a,i=1:1/2;a,i=2:-1/2;a,i=3:nan ceil ,i=1:1;,i=2:0;,i=3:nan -
a,i=1:1;b,i=1:2;b,i=2:3 clamp_max=2 ,i=2:2 S,i=1
a:1;b:2;c:3 abs - S
a,x=1:1;a,x=2:2;b,x=1:3;b,x=2:4 abs - S,x=1;S,x=2
a:1;b:2 clamp=2,1 - -
,i=1:-4;b,i=2:5 abs ,i=1:4;,i=2:5 -
,i=1:1;b,i=1:2 sgn - S,i=1
-;!O abs - O
a:1;!Q2 abs :1 Q2
a:1;b:1;!Q2;!Q3 abs - S;Q2;Q3";

fn grouping(alloc: Global, word: &str) -> Result<Grouping, Fail> {
    let (kind, list) = word.split_once('=').unwrap_or(("by", ""));
    let names = names(alloc, list)?;
    let without = kind == "wo";
    Ok(Grouping { without, names })
}

fn aggregation(name: &str) -> Result<Aggregate, Fail> {
    match name {
        "sum" => Ok(Aggregate::Sum),
        "avg" => Ok(Aggregate::Avg),
        "min" => Ok(Aggregate::Min),
        "max" => Ok(Aggregate::Max),
        "count" => Ok(Aggregate::Count),
        "group" => Ok(Aggregate::Group),
        "stdvar" => Ok(Aggregate::Stdvar),
        "topk" => Ok(Aggregate::TopK),
        "bottomk" => Ok(Aggregate::BottomK),
        "quantile" => Ok(Aggregate::Quantile),
        "count_values" => Ok(Aggregate::CountValues),
        _ => Err("no aggregation")?,
    }
}

fn element_function(name: &str) -> Result<Element, Fail> {
    match (name, find(name)) {
        ("neg", _) => Ok(Element::Neg),
        (_, Found::Known(Func::Element(f))) => Ok(f),
        _ => Err("no function")?,
    }
}

fn argument(f: Aggregate, parameter: &str) -> Result<XFrac, Fail> {
    match f {
        Aggregate::CountValues => Ok(whole(0)),
        _ => value(parameter),
    }
}

/// An aggregation with its parameter, and its grouping behind a semicolon.
fn grouped(alloc: Global, step: &Step, call: &str) -> Result<Step, Fail> {
    let (call, by) = call.split_once(';').unwrap_or((call, ""));
    let (name, parameter) = call.split_once('=').unwrap_or((call, "0"));
    let f = aggregation(name)?;
    let arg = argument(f, parameter)?;
    let by = grouping(alloc, by)?;
    Ok(group(alloc, step, f, &by, &arg, parameter)?)
}

/// An element function with the numbers that it takes.
fn mapped(alloc: Global, step: &Step, call: &str) -> Result<Step, Fail> {
    let (name, numbers) = call.split_once('=').unwrap_or((call, "0"));
    let (first, second) = numbers.split_once(',').unwrap_or((numbers, "0"));
    let f = element_function(name)?;
    Ok(map_rows(alloc, step, f, &value(first)?, &value(second)?)?)
}

/// Whether an aggregation or an element function of a vector gives rows and marks.
fn line_holds(alloc: Global, line: &str, groups: bool) -> Result<bool, Fail> {
    let (operand, rest) = line.split_once(' ').ok_or("no call")?;
    let (call, texts) = rest.split_once(' ').ok_or("no rows")?;
    let step = vector(alloc, operand)?;
    let answer = if groups {
        grouped(alloc, &step, call)?
    } else {
        mapped(alloc, &step, call)?
    };
    is_wanted(alloc, &answer, texts)
}

/// The first line that doesn't hold.
fn first_wrong(alloc: Global, lines: &'static str, groups: bool) -> Result<&'static str, Fail> {
    for line in lines.lines() {
        if !line_holds(alloc, line, groups)? {
            return Ok(line);
        }
    }
    Ok("none")
}

#[test]
fn groups_of_rows(rt: HostRuntime) -> Result<(), Fail> {
    let wrong = first_wrong(rt.alloc(), GROUPS, true)?;
    assert_eq!(rt; wrong, "none");
    assert_eq!(rt; GROUPS.lines().count(), 197);
    Ok(())
}

#[test]
fn functions_of_rows(rt: HostRuntime) -> Result<(), Fail> {
    let wrong = first_wrong(rt.alloc(), ROWS, false)?;
    assert_eq!(rt; wrong, "none");
    assert_eq!(rt; ROWS.lines().count(), 66);
    Ok(())
}
