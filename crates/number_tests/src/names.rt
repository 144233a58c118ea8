//! Each name of the documentation's lists, and neighbours of them.
use crate::fractions::rows_hold;
use func_table::{Aggregate, SetOp, find};
use std::alloc::Global;
use std::test::Fail;

/// A name a line, and what it stands for.
const NAMES: &str = "abs Known(Element(Abs))
absent Known(Absent)
absent_over_time Known(AbsentOver)
avg_over_time Known(Window(AvgOver))
ceil Known(Element(Ceil))
changes Known(Window(Changes))
clamp Known(Element(Clamp))
clamp_max Known(Element(ClampMax))
clamp_min Known(Element(ClampMin))
count_over_time Known(Window(CountOver))
day_of_month Known(Element(Calendar(DayOfMonth)))
day_of_week Known(Element(Calendar(DayOfWeek)))
day_of_year Known(Element(Calendar(DayOfYear)))
days_in_month Known(Element(Calendar(DaysInMonth)))
delta Known(Window(Delta))
deriv Known(Window(Deriv))
floor Known(Element(Floor))
histogram_quantile Known(HistogramQuantile)
hour Known(Element(Calendar(Hour)))
idelta Known(Window(Idelta))
increase Known(Window(Increase))
irate Known(Window(Irate))
label_join Known(LabelJoin)
label_replace Known(LabelReplace)
last_over_time Known(Window(LastOver))
max_over_time Known(Window(MaxOver))
min_over_time Known(Window(MinOver))
minute Known(Element(Calendar(Minute)))
month Known(Element(Calendar(Month)))
predict_linear Known(Window(PredictLinear))
present_over_time Known(Window(PresentOver))
quantile_over_time Known(Window(QuantileOver))
rate Known(Window(Rate))
resets Known(Window(Resets))
round Known(Element(Round))
scalar Known(Scalar)
sgn Known(Element(Sgn))
sort Known(Sort)
sort_desc Known(SortDesc)
stdvar_over_time Known(Window(StdvarOver))
sum_over_time Known(Window(SumOver))
time Known(Time)
timestamp Known(Timestamp)
vector Known(Vector)
year Known(Element(Calendar(Year)))
exp Refused
ln Refused
log2 Refused
log10 Refused
sqrt Refused
sin Refused
cos Refused
tan Refused
asin Refused
acos Refused
atan Refused
sinh Refused
cosh Refused
tanh Refused
asinh Refused
acosh Refused
atanh Refused
deg Refused
rad Refused
pi Refused
stddev Refused
stddev_over_time Refused
histogram_avg Refused
histogram_count Refused
histogram_sum Refused
histogram_fraction Refused
histogram_stddev Refused
histogram_stdvar Refused
limitk Refused
limit_ratio Refused
info Refused
sort_by_label Refused
sort_by_label_desc Refused
double_exponential_smoothing Refused
mad_over_time Refused
first_over_time Refused
ts_of_first_over_time Refused
ts_of_last_over_time Refused
ts_of_max_over_time Refused
ts_of_min_over_time Refused
 Unknown
Sum Unknown
rates Unknown
ABS Unknown
Rate Unknown
Exp Unknown
sum Unknown
count Unknown
topk Unknown
stdvar Unknown
quantile Unknown
count_values Unknown
abss Unknown
ab Unknown
neg Unknown
Neg Unknown
- Unknown
atan2 Unknown
sum_over Unknown
over_time Unknown
rate_ Unknown
histogram_quantiles Unknown
day_of Unknown
offset Unknown
clamp_ Unknown
sort_desc_ Unknown
limit Unknown
τ Unknown";

fn name_holds(alloc: Global, line: &str) -> Result<bool, Fail> {
    let (name, wanted) = line.split_once(' ').ok_or("no answer")?;
    let found = format!(in alloc; "{:?}", find(name))?;
    Ok(found.as_str() == wanted)
}

#[test]
fn names(rt: HostRuntime) -> Result<(), Fail> {
    assert!(rt; Aggregate::TopK != Aggregate::BottomK && SetOp::And != SetOp::Unless);
    let alloc = rt.alloc();
    rows_hold(NAMES, 113, |line| name_holds(alloc, line))
}
