//! What functions and aggregations take and give.
ghost use Rattle.promql_type.specs.declared.signature.More.TheVariants.{Nothing};
ghost use Rattle.promql_type.specs.Signatures.{aggregation_row, argument, element_row, function_row, is_count, signature, window_row};
ghost use Rattle.std.specs.Prelude.{◌≡◌};

use crate::kind::Kind;
use func_table::{Aggregate, Element, Func, Window};

/// What is called: a function or an aggregation.
#[derive(Clone, Copy, Debug, PartialEq, Eq)]
pub enum Callee {
    Function(Func),
    Aggregation(Aggregate),
}

/// Which arguments may follow those that must be there: none, one, or any number.
#[derive(Clone, Copy, Debug, PartialEq, Eq)]
pub enum More {
    Nothing,
    Once(Kind),
    Often(Kind),
}

/// What must be given, what may follow, and what the call gives.
#[derive(Clone, Copy, Debug)]
pub struct Row {
    pub takes: &'static [Kind],
    pub more: More,
    pub gives: Kind,
}

/// The row of a function or an aggregation.
pub fn signature(callee: Callee) -> Row
    ensures takes { result.takes.now ≡ (signature callee).takes }
    ensures more { result.more ≡ (signature callee).more }
    ensures gives { result.gives ≡ (signature callee).gives }
{
    match callee {
        Callee::Function(Func::Element(function)) => element(function),
        Callee::Function(Func::Window(function)) => window(function),
        Callee::Function(function) => special(function),
        Callee::Aggregation(aggregate) => aggregation(aggregate),
    }
}

/// A row of these arguments and no others.
const fn from(takes: &'static [Kind], gives: Kind) -> Row
    ensures { (result.takes.now ≡ takes.now) × (result.more ≡ Nothing) × (result.gives ≡ gives) }
{
    Row {
        takes,
        more: More::Nothing,
        gives,
    }
}

fn element(function: Element) -> Row
    ensures takes { result.takes.now ≡ (element_row function).takes }
    ensures more { result.more ≡ (element_row function).more }
    ensures gives { result.gives ≡ (element_row function).gives }
{
    match function {
        Element::Abs | Element::Ceil | Element::Floor | Element::Sgn | Element::Neg => {
            from(&[Kind::Vector], Kind::Vector)
        }
        Element::Round => Row {
            takes: &[Kind::Vector],
            more: More::Once(Kind::Scalar),
            gives: Kind::Vector,
        },
        Element::Clamp => from(&[Kind::Vector, Kind::Scalar, Kind::Scalar], Kind::Vector),
        Element::ClampMin | Element::ClampMax => from(&[Kind::Vector, Kind::Scalar], Kind::Vector),
        Element::Calendar(_) => Row {
            takes: &[],
            more: More::Once(Kind::Vector),
            gives: Kind::Vector,
        },
    }
}

fn window(function: Window) -> Row
    ensures takes { result.takes.now ≡ (window_row function).takes }
    ensures more { result.more ≡ (window_row function).more }
    ensures gives { result.gives ≡ (window_row function).gives }
{
    match function {
        Window::PredictLinear => from(&[Kind::Windows, Kind::Scalar], Kind::Vector),
        Window::QuantileOver => from(&[Kind::Scalar, Kind::Windows], Kind::Vector),
        Window::Rate
        | Window::Increase
        | Window::Delta
        | Window::Irate
        | Window::Idelta
        | Window::Deriv
        | Window::Changes
        | Window::Resets
        | Window::AvgOver
        | Window::MinOver
        | Window::MaxOver
        | Window::SumOver
        | Window::CountOver
        | Window::StdvarOver
        | Window::LastOver
        | Window::PresentOver => from(&[Kind::Windows], Kind::Vector),
    }
}

fn special(function: Func) -> Row
    ensures takes { result.takes.now ≡ (function_row function).takes }
    ensures more { result.more ≡ (function_row function).more }
    ensures gives { result.gives ≡ (function_row function).gives }
{
    match function {
        Func::Element(function) => element(function),
        Func::Window(function) => window(function),
        Func::Absent | Func::Sort | Func::SortDesc | Func::Timestamp => {
            from(&[Kind::Vector], Kind::Vector)
        }
        Func::AbsentOver => from(&[Kind::Windows], Kind::Vector),
        Func::HistogramQuantile => from(&[Kind::Scalar, Kind::Vector], Kind::Vector),
        Func::LabelJoin => Row {
            takes: &[Kind::Vector, Kind::Words, Kind::Words],
            more: More::Often(Kind::Words),
            gives: Kind::Vector,
        },
        Func::LabelReplace => from(
            &[
                Kind::Vector,
                Kind::Words,
                Kind::Words,
                Kind::Words,
                Kind::Words,
            ],
            Kind::Vector,
        ),
        Func::Scalar => from(&[Kind::Vector], Kind::Scalar),
        Func::Time => from(&[], Kind::Scalar),
        Func::Vector => from(&[Kind::Scalar], Kind::Vector),
    }
}

fn aggregation(aggregate: Aggregate) -> Row
    ensures takes { result.takes.now ≡ (aggregation_row aggregate).takes }
    ensures more { result.more ≡ (aggregation_row aggregate).more }
    ensures gives { result.gives ≡ (aggregation_row aggregate).gives }
{
    match aggregate {
        Aggregate::Sum
        | Aggregate::Avg
        | Aggregate::Min
        | Aggregate::Max
        | Aggregate::Count
        | Aggregate::Group
        | Aggregate::Stdvar => from(&[Kind::Vector], Kind::Vector),
        Aggregate::TopK | Aggregate::BottomK | Aggregate::Quantile => {
            from(&[Kind::Scalar, Kind::Vector], Kind::Vector)
        }
        Aggregate::CountValues => from(&[Kind::Words, Kind::Vector], Kind::Vector),
    }
}

/// Whether so many arguments are taken.
pub fn is_count(callee: Callee, count: usize) -> bool
    ensures { result ≡ is_count (signature callee) count }
{
    let row = signature(callee);
    match row.more {
        More::Nothing => count == row.takes.len(),
        More::Once(_) => count == row.takes.len() || count == row.takes.len() + 1,
        More::Often(_) => row.takes.len() <= count,
    }
}

/// What the argument of a number, counted from 0, has to be, if there may be one.
pub fn argument(callee: Callee, number: usize) -> Option<Kind>
    ensures { result ≡ argument (signature callee) number }
{
    let row = signature(callee);
    if let Some(kind) = row.takes.get(number) {
        return Some(*kind);
    }
    match row.more {
        More::Nothing => None,
        More::Once(kind) | More::Often(kind) => Some(kind),
    }
}
