ghost use Rattle.op_small.specs.Rules.{left_by as left_by_rule};
ghost use Rattle.std.specs.Prelude.{◌≡◌};

use label_set::Labels;
use step_put::Left;
use xfrac::XFrac;

/// What a small kernel makes of each step.
#[derive(Debug, Drop)]
pub enum SmallRule {
    /// This number, as a scalar.
    Number(XFrac),
    /// The instant in seconds, as a scalar.
    Time,
    /// Each row without its name; with `own` its value stays, which is then its sample's own time in seconds, and else it is
    /// the instant in seconds.
    Stamp { own: bool },
    /// The value of the one row, else NaN, as a scalar.
    Scalar,
    /// The rows as they are, of a scalar as of a vector.
    Vector,
    /// One row 1 where there is none, under these labels; none where they would pass the limits of labels, which is an overflow.
    Absent(Option<Labels>),
}

/// What a rule leaves of the labels of the rows that it reads.
pub(crate) fn left_by(rule: &SmallRule) -> Left
    ensures { result ≡ left_by_rule rule.now }
{
    match rule {
        SmallRule::Stamp { .. } => Left::Nameless,
        SmallRule::Number(_)
        | SmallRule::Time
        | SmallRule::Scalar
        | SmallRule::Vector
        | SmallRule::Absent(_) => Left::All,
    }
}
