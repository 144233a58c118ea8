//! Laws of element functions that users rely on. The functions do nothing: each stands for what its contract says.
ghost use Rattle.value_fn.specs.Elements.{ClampIsBothHalves, RoundingIsNearest};
ghost use Rattle.value_fn.specs.NumberLaws.{ElementIsNumber};

use calendar_fn::parts_are_within;
use xfrac::laws::{
    arithmetic_gives_numbers, floor_is_greatest, lowest_terms_are_lowest, rounding_gives_numbers,
    sum_is_exact, sums_are_numbers,
};

/// A clamp whose bounds are in order is `ClampMin` and then `ClampMax`.
pub fn clamp_is_both_halves()
    ensures { ClampIsBothHalves }
{}

/// What a fraction is rounded to is the nearest multiple, the upper one of two that are as near.
pub fn rounding_is_nearest()
    ensures { RoundingIsNearest }
{
    lowest_terms_are_lowest();
    sum_is_exact();
    floor_is_greatest();
}

/// The value of an element function of numbers is a number.
pub fn elements_are_numbers()
    ensures { ElementIsNumber }
{
    arithmetic_gives_numbers();
    sums_are_numbers();
    rounding_gives_numbers();
    parts_are_within();
}
