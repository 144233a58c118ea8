//! What a duration and a name stand for in an operand's place.
ghost use Rattle.promql_parse.specs.Reading.{function_at, is_refused_aggregation, seconds_of};
ghost use Rattle.promql_parts.specs.Reads.{Gives};
ghost use Rattle.std.specs.List.{list_any};
ghost use Rattle.std.specs.Prelude.{◌≡◌, bytes_eq, string_bytes};

use func_table::{Found, Func, find};
use holders::Text;
use promql_ast::QueryRefusal;
use promql_lex::LexFault;
use ticks::Ms;
use xfrac::XFrac;

/// Aggregations that PromQL has and this engine refuses.
const REFUSED: [&str; 3] = ["stddev", "limitk", "limit_ratio"];

/// A duration as a number of seconds.
pub fn seconds_of(at: u32, duration: Ms) -> Result<XFrac, LexFault>
    ensures { Gives (λ value. value) result (seconds_of at duration) }
{
    match xfrac::of(i128::from(duration.0), 1000) {
        Ok(value) => Ok(value),
        Err(_) => Err(LexFault::Refused(QueryRefusal::NumberRange(at))),
    }
}

/// The function that a call's name stands for.
pub fn function_at(at: u32, name: &Text) -> Result<Func, LexFault>
    ensures { Gives (λ f. f) result (function_at at name.now) }
{
    match find(name.as_str()) {
        Found::Known(function) => Ok(function),
        Found::Refused => Err(LexFault::Refused(QueryRefusal::RefusedFunction(at, name.copy()?))),
        Found::Unknown => Err(LexFault::Refused(QueryRefusal::UnknownFunction(at, name.copy()?))),
    }
}

fn is_among(names: &[&str], name: &str) -> bool
    ensures { result ≡ list_any (λ other. bytes_eq other.now name.now) names.now }
{
    names.iter().any(|other| *other == name)
}

/// Whether the name is that of an aggregation that is refused.
pub fn is_refused_aggregation(name: &Text) -> bool
    ensures { result ≡ is_refused_aggregation name.now }
{
    is_among(&REFUSED, name.as_str())
}
