//! Laws of meanings that users rely on. The functions do nothing: each stands for what its contract says.
ghost use Rattle.meaning_laws.specs.ValueLaws.{MeaningGivesValues, MeaningHasLowestTerms, MeaningHasValues, ValueWithinIsNumber};

use window_fn::laws::{values_are_lowest, windows_give_numbers_or_wholes};
use xfrac::laws::{
    arithmetic_gives_numbers, rounding_gives_numbers, small_terms_are_formed, sums_are_numbers,
};

/// Over samples that are numbers each value of a meaning is a number, or a whole number of any size, as a count is; such a value
/// within the limit of numbers is a number.
pub fn values_are_numbers()
    ensures given { MeaningGivesValues }
    ensures step { MeaningHasValues }
    ensures within { ValueWithinIsNumber }
{
    arithmetic_gives_numbers();
    sums_are_numbers();
    rounding_gives_numbers();
    small_terms_are_formed();
    windows_give_numbers_or_wholes();
}

/// Over samples that are numbers each value of a meaning is a fraction in lowest terms, of any size: what is asked of values that
/// several engines give the sums, counts and extremes of.
pub fn values_have_lowest_terms()
    ensures { MeaningHasLowestTerms }
{
    values_are_numbers();
    values_are_lowest();
}
