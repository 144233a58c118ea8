//! What an expression gives.
ghost use Rattle.promql_type.specs.Kinds.{both, is_number};
ghost use Rattle.std.specs.Prelude.{◌≡◌};

/// What an expression gives, by the expression language data types of the Prometheus querying documentation.
#[derive(Clone, Copy, Debug, PartialEq, Eq)]
pub enum Kind {
    /// A number at each instant.
    Scalar,
    /// An instant vector.
    Vector,
    /// A range vector.
    Windows,
    /// A string.
    Words,
}

/// An argument or operand: the place of its first byte, counted from 0, and what it gives.
#[derive(Clone, Copy, Debug, PartialEq, Eq)]
pub struct Operand {
    pub at: u32,
    pub gives: Kind,
}

/// Whether an operator or a sign takes it.
pub const fn is_number(kind: Kind) -> bool
    ensures { result ≡ is_number kind }
{
    match kind {
        Kind::Scalar | Kind::Vector => true,
        Kind::Windows | Kind::Words => false,
    }
}

/// What an operator between the two gives.
pub const fn both(left: Kind, right: Kind) -> Kind
    ensures { result ≡ both left right }
{
    match (left, right) {
        (Kind::Scalar, Kind::Scalar) => Kind::Scalar,
        _ => Kind::Vector,
    }
}
