//! The name of each function and aggregation, by the Prometheus querying documentation.
ghost use Rattle.func_table.specs.Naming.{FoundNamesAreTheirs, NamesAreFound, aggregate_name, calendar_name, element_name, function_name, window_name};
ghost use Rattle.std.specs.Prelude.{◌≡◌};

use crate::table::{Aggregate, CalendarPart, Element, Func, Window};

const fn calendar_name(part: CalendarPart) -> &'static str
    ensures { result.now ≡ calendar_name part }
{
    match part {
        CalendarPart::DayOfMonth => "day_of_month",
        CalendarPart::DayOfWeek => "day_of_week",
        CalendarPart::DayOfYear => "day_of_year",
        CalendarPart::DaysInMonth => "days_in_month",
        CalendarPart::Hour => "hour",
        CalendarPart::Minute => "minute",
        CalendarPart::Month => "month",
        CalendarPart::Year => "year",
    }
}

const fn element_name(f: Element) -> &'static str
    ensures { result.now ≡ element_name f }
{
    match f {
        Element::Abs => "abs",
        Element::Ceil => "ceil",
        Element::Floor => "floor",
        Element::Round => "round",
        Element::Sgn => "sgn",
        Element::Neg => "neg",
        Element::Clamp => "clamp",
        Element::ClampMin => "clamp_min",
        Element::ClampMax => "clamp_max",
        Element::Calendar(part) => calendar_name(part),
    }
}

const fn window_name(f: Window) -> &'static str
    ensures { result.now ≡ window_name f }
{
    match f {
        Window::Rate => "rate",
        Window::Increase => "increase",
        Window::Delta => "delta",
        Window::Irate => "irate",
        Window::Idelta => "idelta",
        Window::Deriv => "deriv",
        Window::PredictLinear => "predict_linear",
        Window::Changes => "changes",
        Window::Resets => "resets",
        Window::AvgOver => "avg_over_time",
        Window::MinOver => "min_over_time",
        Window::MaxOver => "max_over_time",
        Window::SumOver => "sum_over_time",
        Window::CountOver => "count_over_time",
        Window::StdvarOver => "stdvar_over_time",
        Window::QuantileOver => "quantile_over_time",
        Window::LastOver => "last_over_time",
        Window::PresentOver => "present_over_time",
    }
}

/// The one name that a function is found by, or `neg` for the sign minus. It takes no memory.
pub fn name(f: &Func) -> &'static str
    ensures { result.now ≡ function_name f.now }
{
    match f {
        Func::Element(f) => element_name(*f),
        Func::Window(f) => window_name(*f),
        Func::Absent => "absent",
        Func::AbsentOver => "absent_over_time",
        Func::HistogramQuantile => "histogram_quantile",
        Func::LabelJoin => "label_join",
        Func::LabelReplace => "label_replace",
        Func::Scalar => "scalar",
        Func::Sort => "sort",
        Func::SortDesc => "sort_desc",
        Func::Time => "time",
        Func::Timestamp => "timestamp",
        Func::Vector => "vector",
    }
}

/// The word of an aggregation, in small letters. It takes no memory.
pub fn aggregate_name(a: &Aggregate) -> &'static str
    ensures { result.now ≡ aggregate_name a.now }
{
    match a {
        Aggregate::Sum => "sum",
        Aggregate::Avg => "avg",
        Aggregate::Min => "min",
        Aggregate::Max => "max",
        Aggregate::Count => "count",
        Aggregate::Group => "group",
        Aggregate::Stdvar => "stdvar",
        Aggregate::TopK => "topk",
        Aggregate::BottomK => "bottomk",
        Aggregate::Quantile => "quantile",
        Aggregate::CountValues => "count_values",
    }
}

/// A law, with nothing to run: each function but the sign minus is found by its name, and by no other.
pub fn functions_have_their_names()
    ensures found { NamesAreFound }
    ensures alone { FoundNamesAreTheirs }
{}
