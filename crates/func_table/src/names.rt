//! The names of functions, by the Prometheus querying documentation.
ghost use Rattle.std.specs.Prelude.{◌≡◌, bytes_eq};
ghost use Rattle.std.specs.List.{list_any};
ghost use Rattle.std.specs.Map.{lookup};
ghost use Rattle.func_table.specs.Names.{found_of, ListedNamesAreFound};

use crate::table::{CalendarPart, Element, Found, Func, Window};

/// Each function's name beside it.
const FUNCTIONS: [(&str, Func); 45] = [
    ("abs", Func::Element(Element::Abs)),
    ("absent", Func::Absent),
    ("absent_over_time", Func::AbsentOver),
    ("avg_over_time", Func::Window(Window::AvgOver)),
    ("ceil", Func::Element(Element::Ceil)),
    ("changes", Func::Window(Window::Changes)),
    ("clamp", Func::Element(Element::Clamp)),
    ("clamp_max", Func::Element(Element::ClampMax)),
    ("clamp_min", Func::Element(Element::ClampMin)),
    ("count_over_time", Func::Window(Window::CountOver)),
    (
        "day_of_month",
        Func::Element(Element::Calendar(CalendarPart::DayOfMonth)),
    ),
    (
        "day_of_week",
        Func::Element(Element::Calendar(CalendarPart::DayOfWeek)),
    ),
    (
        "day_of_year",
        Func::Element(Element::Calendar(CalendarPart::DayOfYear)),
    ),
    (
        "days_in_month",
        Func::Element(Element::Calendar(CalendarPart::DaysInMonth)),
    ),
    ("delta", Func::Window(Window::Delta)),
    ("deriv", Func::Window(Window::Deriv)),
    ("floor", Func::Element(Element::Floor)),
    ("histogram_quantile", Func::HistogramQuantile),
    ("hour", Func::Element(Element::Calendar(CalendarPart::Hour))),
    ("idelta", Func::Window(Window::Idelta)),
    ("increase", Func::Window(Window::Increase)),
    ("irate", Func::Window(Window::Irate)),
    ("label_join", Func::LabelJoin),
    ("label_replace", Func::LabelReplace),
    ("last_over_time", Func::Window(Window::LastOver)),
    ("max_over_time", Func::Window(Window::MaxOver)),
    ("min_over_time", Func::Window(Window::MinOver)),
    (
        "minute",
        Func::Element(Element::Calendar(CalendarPart::Minute)),
    ),
    (
        "month",
        Func::Element(Element::Calendar(CalendarPart::Month)),
    ),
    ("predict_linear", Func::Window(Window::PredictLinear)),
    ("present_over_time", Func::Window(Window::PresentOver)),
    ("quantile_over_time", Func::Window(Window::QuantileOver)),
    ("rate", Func::Window(Window::Rate)),
    ("resets", Func::Window(Window::Resets)),
    ("round", Func::Element(Element::Round)),
    ("scalar", Func::Scalar),
    ("sgn", Func::Element(Element::Sgn)),
    ("sort", Func::Sort),
    ("sort_desc", Func::SortDesc),
    ("stdvar_over_time", Func::Window(Window::StdvarOver)),
    ("sum_over_time", Func::Window(Window::SumOver)),
    ("time", Func::Time),
    ("timestamp", Func::Timestamp),
    ("vector", Func::Vector),
    ("year", Func::Element(Element::Calendar(CalendarPart::Year))),
];

/// The names of functions that PromQL has and this engine refuses.
const REFUSED: [&str; 40] = [
    "exp",
    "ln",
    "log2",
    "log10",
    "sqrt",
    "sin",
    "cos",
    "tan",
    "asin",
    "acos",
    "atan",
    "sinh",
    "cosh",
    "tanh",
    "asinh",
    "acosh",
    "atanh",
    "deg",
    "rad",
    "pi",
    "stddev",
    "stddev_over_time",
    "histogram_avg",
    "histogram_count",
    "histogram_sum",
    "histogram_fraction",
    "histogram_stddev",
    "histogram_stdvar",
    "limitk",
    "limit_ratio",
    "info",
    "sort_by_label",
    "sort_by_label_desc",
    "double_exponential_smoothing",
    "mad_over_time",
    "first_over_time",
    "ts_of_first_over_time",
    "ts_of_last_over_time",
    "ts_of_max_over_time",
    "ts_of_min_over_time",
];

/// What a function's name stands for, in its exact case. It takes no memory.
pub fn find(name: &str) -> Found
    ensures { result ≡ found_of name.now }
{
    match function_in(&FUNCTIONS, name) {
        Some(function) => Found::Known(function),
        None if is_among(&REFUSED, name) => Found::Refused,
        None => Found::Unknown,
    }
}

/// The function that stands beside a name.
fn function_in(table: &[(&str, Func)], name: &str) -> Option<Func>
    ensures { result ≡ lookup (λ other. bytes_eq other.now name.now) table.now }
{
    for (other, function) in table {
        if *other == name {
            return Some(*function);
        }
    }
    None
}

/// Whether a name stands in a list.
fn is_among(names: &[&str], name: &str) -> bool
    ensures { result ≡ list_any (λ other. bytes_eq other.now name.now) names.now }
{
    names.iter().any(|other| *other == name)
}

/// Each listed name is found as what stands beside it, so no name stands twice. The function does nothing: it stands for
/// what its contract says.
pub fn listed_names_are_found()
    ensures { ListedNamesAreFound }
{}
