ghost use Rattle.promql_ast.specs.Refusals.{name_of, number_of, place_of};
ghost use Rattle.std.specs.Prelude.{◌≡◌, IfOk};

use holders::Text;
use std::alloc::AllocError;
use thiserror::Error;

/// Why the text of a query is refused, by the grammar and the types of the Prometheus querying documentation and by this
/// project's own limits. The number is the place that decided it: a byte of the text, counted from 0.
#[derive(Debug, Drop, PartialEq, Eq, Error)]
pub enum QueryRefusal {
    /// The text has more than 65,536 bytes. The place is 0.
    #[error("too long")]
    TooLong(u32),
    /// A spelling that is no token, at the token.
    #[error("bad token")]
    BadToken(u32),
    /// A string without its end, at its first byte.
    #[error("unterminated string")]
    Unterminated(u32),
    /// A bad escape in a string, at its backslash.
    #[error("bad escape")]
    BadEscape(u32),
    /// A digit run that is no number, at its first byte.
    #[error("bad number")]
    BadNumber(u32),
    /// A number outside the limits, at its first byte.
    #[error("number out of range")]
    NumberRange(u32),
    /// More than one digit alone, of which the first is 0, at its first byte.
    #[error("leading zero")]
    LeadingZero(u32),
    /// A digit run with units that is no duration, or a duration that isn't positive where one has to be, at the token.
    #[error("bad duration")]
    BadDuration(u32),
    /// A duration of more than 100 years, or a time beyond the limit, at the token.
    #[error("duration out of range")]
    DurationRange(u32),
    /// A token that fits no rule of the grammar, at the token, or at the text's length where the text ends.
    #[error("unexpected token")]
    Expected(u32),
    /// The token that opens one nesting too many, or 0 where the tree is too deep.
    #[error("too deep")]
    TooDeep(u32),
    /// A name of no function, with the name, at the name.
    #[error("unknown function")]
    UnknownFunction(u32, Text),
    /// A function that PromQL has and this engine refuses, with the name, at the name.
    #[error("refused function")]
    RefusedFunction(u32, Text),
    /// A selector whose rules all pass the empty text, at the closing brace.
    #[error("empty selector")]
    EmptySelector(u32),
    /// A regular expression that isn't one, at its string.
    #[error("bad pattern")]
    BadPattern(u32),
    /// One pattern too many, at its string.
    #[error("too many patterns")]
    TooManyPatterns(u32),
    /// A label in `on` and in the group list, at the second one.
    #[error("label twice")]
    LabelTwice(u32),
    /// A selector with two names, at the closing brace.
    #[error("name twice")]
    NameTwice(u32),
    /// A replacement of `label_replace` with a named reference, at its string.
    #[error("bad template")]
    BadTemplate(u32),
    /// An empty label name, at the token or string.
    #[error("bad label name")]
    BadLabelName(u32),
    /// An argument or operand of a wrong type, at its first byte.
    #[error("wrong type")]
    WrongType(u32),
    /// A wrong number of arguments, at the call or aggregation.
    #[error("wrong number of arguments")]
    WrongArity(u32),
    /// A comparison of scalars without `bool`, at the node.
    #[error("comparison of scalars without bool")]
    NeedsBool(u32),
    /// A set operation with a scalar, at the node.
    #[error("set operation on a scalar")]
    SetOnScalar(u32),
    /// A range vector as the result. The place is 0.
    #[error("range vector as result")]
    RangeResult(u32),
    /// A string as the result. The place is 0.
    #[error("string as result")]
    StringResult(u32),
    /// A subquery with too many points, at the subquery.
    #[error("too many points")]
    TooManyPoints(u32),
}

impl QueryRefusal {
    /// The place: a byte of the text, counted from 0. It takes no memory.
    pub fn place(&self) -> u32
        ensures { result ≡ place_of self.now }
    {
        match self {
            QueryRefusal::TooLong(at) => *at,
            QueryRefusal::BadToken(at) => *at,
            QueryRefusal::Unterminated(at) => *at,
            QueryRefusal::BadEscape(at) => *at,
            QueryRefusal::BadNumber(at) => *at,
            QueryRefusal::NumberRange(at) => *at,
            QueryRefusal::LeadingZero(at) => *at,
            QueryRefusal::BadDuration(at) => *at,
            QueryRefusal::DurationRange(at) => *at,
            QueryRefusal::Expected(at) => *at,
            QueryRefusal::TooDeep(at) => *at,
            QueryRefusal::UnknownFunction(at, _) => *at,
            QueryRefusal::RefusedFunction(at, _) => *at,
            QueryRefusal::EmptySelector(at) => *at,
            QueryRefusal::BadPattern(at) => *at,
            QueryRefusal::TooManyPatterns(at) => *at,
            QueryRefusal::LabelTwice(at) => *at,
            QueryRefusal::NameTwice(at) => *at,
            QueryRefusal::BadTemplate(at) => *at,
            QueryRefusal::BadLabelName(at) => *at,
            QueryRefusal::WrongType(at) => *at,
            QueryRefusal::WrongArity(at) => *at,
            QueryRefusal::NeedsBool(at) => *at,
            QueryRefusal::SetOnScalar(at) => *at,
            QueryRefusal::RangeResult(at) => *at,
            QueryRefusal::StringResult(at) => *at,
            QueryRefusal::TooManyPoints(at) => *at,
        }
    }

    /// The number of the kind, from 1 to 27 in the order of the kinds, which decides between refusals at one place. It
    /// takes no memory.
    pub fn number(&self) -> u32
        ensures { result ≡ number_of self.now }
    {
        match self {
            QueryRefusal::TooLong(_) => 1,
            QueryRefusal::BadToken(_) => 2,
            QueryRefusal::Unterminated(_) => 3,
            QueryRefusal::BadEscape(_) => 4,
            QueryRefusal::BadNumber(_) => 5,
            QueryRefusal::NumberRange(_) => 6,
            QueryRefusal::LeadingZero(_) => 7,
            QueryRefusal::BadDuration(_) => 8,
            QueryRefusal::DurationRange(_) => 9,
            QueryRefusal::Expected(_) => 10,
            QueryRefusal::TooDeep(_) => 11,
            QueryRefusal::UnknownFunction(_, _) => 12,
            QueryRefusal::RefusedFunction(_, _) => 13,
            QueryRefusal::EmptySelector(_) => 14,
            QueryRefusal::BadPattern(_) => 15,
            QueryRefusal::TooManyPatterns(_) => 16,
            QueryRefusal::LabelTwice(_) => 17,
            QueryRefusal::NameTwice(_) => 18,
            QueryRefusal::BadTemplate(_) => 19,
            QueryRefusal::BadLabelName(_) => 20,
            QueryRefusal::WrongType(_) => 21,
            QueryRefusal::WrongArity(_) => 22,
            QueryRefusal::NeedsBool(_) => 23,
            QueryRefusal::SetOnScalar(_) => 24,
            QueryRefusal::RangeResult(_) => 25,
            QueryRefusal::StringResult(_) => 26,
            QueryRefusal::TooManyPoints(_) => 27,
        }
    }

    /// The name of the kind. It takes no memory.
    pub fn name(&self) -> &'static str
        ensures { result.now ≡ name_of self.now }
    {
        match self {
            QueryRefusal::TooLong(_) => "TooLong",
            QueryRefusal::BadToken(_) => "BadToken",
            QueryRefusal::Unterminated(_) => "Unterminated",
            QueryRefusal::BadEscape(_) => "BadEscape",
            QueryRefusal::BadNumber(_) => "BadNumber",
            QueryRefusal::NumberRange(_) => "NumberRange",
            QueryRefusal::LeadingZero(_) => "LeadingZero",
            QueryRefusal::BadDuration(_) => "BadDuration",
            QueryRefusal::DurationRange(_) => "DurationRange",
            QueryRefusal::Expected(_) => "Expected",
            QueryRefusal::TooDeep(_) => "TooDeep",
            QueryRefusal::UnknownFunction(_, _) => "UnknownFunction",
            QueryRefusal::RefusedFunction(_, _) => "RefusedFunction",
            QueryRefusal::EmptySelector(_) => "EmptySelector",
            QueryRefusal::BadPattern(_) => "BadPattern",
            QueryRefusal::TooManyPatterns(_) => "TooManyPatterns",
            QueryRefusal::LabelTwice(_) => "LabelTwice",
            QueryRefusal::NameTwice(_) => "NameTwice",
            QueryRefusal::BadTemplate(_) => "BadTemplate",
            QueryRefusal::BadLabelName(_) => "BadLabelName",
            QueryRefusal::WrongType(_) => "WrongType",
            QueryRefusal::WrongArity(_) => "WrongArity",
            QueryRefusal::NeedsBool(_) => "NeedsBool",
            QueryRefusal::SetOnScalar(_) => "SetOnScalar",
            QueryRefusal::RangeResult(_) => "RangeResult",
            QueryRefusal::StringResult(_) => "StringResult",
            QueryRefusal::TooManyPoints(_) => "TooManyPoints",
        }
    }

    /// An equal refusal, on the allocator of this one. The only error is want of memory.
    pub fn copy(&self) -> Result<QueryRefusal, AllocError>
        ensures { IfOk result (λ r. r ≡ self.now) }
    {
        Ok(match self {
            QueryRefusal::TooLong(at) => QueryRefusal::TooLong(*at),
            QueryRefusal::BadToken(at) => QueryRefusal::BadToken(*at),
            QueryRefusal::Unterminated(at) => QueryRefusal::Unterminated(*at),
            QueryRefusal::BadEscape(at) => QueryRefusal::BadEscape(*at),
            QueryRefusal::BadNumber(at) => QueryRefusal::BadNumber(*at),
            QueryRefusal::NumberRange(at) => QueryRefusal::NumberRange(*at),
            QueryRefusal::LeadingZero(at) => QueryRefusal::LeadingZero(*at),
            QueryRefusal::BadDuration(at) => QueryRefusal::BadDuration(*at),
            QueryRefusal::DurationRange(at) => QueryRefusal::DurationRange(*at),
            QueryRefusal::Expected(at) => QueryRefusal::Expected(*at),
            QueryRefusal::TooDeep(at) => QueryRefusal::TooDeep(*at),
            QueryRefusal::UnknownFunction(at, name) => QueryRefusal::UnknownFunction(
                *at,
                name.copy()?,
            ),
            QueryRefusal::RefusedFunction(at, name) => QueryRefusal::RefusedFunction(
                *at,
                name.copy()?,
            ),
            QueryRefusal::EmptySelector(at) => QueryRefusal::EmptySelector(*at),
            QueryRefusal::BadPattern(at) => QueryRefusal::BadPattern(*at),
            QueryRefusal::TooManyPatterns(at) => QueryRefusal::TooManyPatterns(*at),
            QueryRefusal::LabelTwice(at) => QueryRefusal::LabelTwice(*at),
            QueryRefusal::NameTwice(at) => QueryRefusal::NameTwice(*at),
            QueryRefusal::BadTemplate(at) => QueryRefusal::BadTemplate(*at),
            QueryRefusal::BadLabelName(at) => QueryRefusal::BadLabelName(*at),
            QueryRefusal::WrongType(at) => QueryRefusal::WrongType(*at),
            QueryRefusal::WrongArity(at) => QueryRefusal::WrongArity(*at),
            QueryRefusal::NeedsBool(at) => QueryRefusal::NeedsBool(*at),
            QueryRefusal::SetOnScalar(at) => QueryRefusal::SetOnScalar(*at),
            QueryRefusal::RangeResult(at) => QueryRefusal::RangeResult(*at),
            QueryRefusal::StringResult(at) => QueryRefusal::StringResult(*at),
            QueryRefusal::TooManyPoints(at) => QueryRefusal::TooManyPoints(*at),
        })
    }
}

impl Clone for QueryRefusal {
    ghost is_clone = { λ s t. t ≡ s };

    fn clone(&self) -> Result<QueryRefusal, AllocError> {
        self.copy()
    }
}
