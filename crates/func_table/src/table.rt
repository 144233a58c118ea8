//! The set operators, the functions and the aggregations of PromQL.

/// The set operators: `and`, `unless`, `or`.
#[derive(Clone, Copy, Debug, PartialEq, Eq)]
pub enum SetOp {
    And,
    Unless,
    Or,
}

/// What a time is on a clock and a calendar of UTC. Days of the week count from 0 for Sunday, days of a year from 1.
#[derive(Clone, Copy, Debug, PartialEq, Eq)]
pub enum CalendarPart {
    DayOfMonth,
    DayOfWeek,
    DayOfYear,
    DaysInMonth,
    Hour,
    Minute,
    Month,
    Year,
}

/// A function of one value at a time. `Neg` is the sign minus, which has no name; `Calendar` takes its value as seconds
/// since 1970.
#[derive(Clone, Copy, Debug, PartialEq, Eq)]
pub enum Element {
    Abs,
    Ceil,
    Floor,
    Round,
    Sgn,
    Neg,
    Clamp,
    ClampMin,
    ClampMax,
    Calendar(CalendarPart),
}

/// A function of the samples in a window.
#[derive(Clone, Copy, Debug, PartialEq, Eq)]
pub enum Window {
    Rate,
    Increase,
    Delta,
    Irate,
    Idelta,
    Deriv,
    PredictLinear,
    Changes,
    Resets,
    AvgOver,
    MinOver,
    MaxOver,
    SumOver,
    CountOver,
    StdvarOver,
    QuantileOver,
    LastOver,
    PresentOver,
}

/// An aggregation over rows.
#[derive(Clone, Copy, Debug, PartialEq, Eq)]
pub enum Aggregate {
    Sum,
    Avg,
    Min,
    Max,
    Count,
    Group,
    Stdvar,
    TopK,
    BottomK,
    Quantile,
    CountValues,
}

/// A function that this engine has.
#[derive(Clone, Copy, Debug, PartialEq, Eq)]
pub enum Func {
    Element(Element),
    Window(Window),
    Absent,
    AbsentOver,
    HistogramQuantile,
    LabelJoin,
    LabelReplace,
    Scalar,
    Sort,
    SortDesc,
    Time,
    Timestamp,
    Vector,
}

/// What a name stands for: a function, one that PromQL has and this engine refuses, or nothing.
#[derive(Clone, Copy, Debug, PartialEq, Eq)]
pub enum Found {
    Known(Func),
    Refused,
    Unknown,
}
