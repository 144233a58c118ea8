//! Which of several refusals is answered.
ghost use Rattle.promql_type.specs.Refusals.{comes_first, lesser};
ghost use Rattle.std.specs.Prelude.{◌≡◌, Some};

use promql_ast::QueryRefusal;

/// Whether a refusal comes before another: at a lesser place, or at the same place with a lesser number.
fn comes_first(a: &QueryRefusal, b: &QueryRefusal) -> bool
    ensures { result ≡ comes_first a.now b.now }
{
    a.place() < b.place() || a.place() == b.place() && a.number() < b.number()
}

/// The one of two refusals that is answered, where there is one.
pub fn lesser(a: Option<QueryRefusal>, b: Option<QueryRefusal>) -> Option<QueryRefusal>
    ensures { result ≡ lesser a b }
{
    match (a, b) {
        (None, b) => b,
        (a, None) => a,
        (Some(a), Some(b)) => Some(first_of(a, b)),
    }
}

/// The one of two refusals that is answered.
pub fn first_of(a: QueryRefusal, b: QueryRefusal) -> QueryRefusal
    ensures { Some result ≡ lesser (Some a) (Some b) }
{
    if comes_first(&b, &a) { b } else { a }
}
