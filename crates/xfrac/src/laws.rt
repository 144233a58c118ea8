//! Laws of numbers that users rely on. The functions do nothing: each stands for what its contract says.
ghost use Rattle.xfrac.specs.AnySize.{AloneStandsForAny, AnyPartOverflowsWhole, AnySumIgnoresOrder, AnyTotalsNeverFall, EqualLowestIsSame, LessOfAnyIsTransitive, LowestHasDenominator, NumberIsLowest, WholeIsLowest};
ghost use Rattle.xfrac.specs.Laws.{IsNumber, SumIsExact, SumIgnoresOrder, JoinedStandsForBoth, AloneStandsForOne, TotalsNeverFall, PartOverflowsWhole, NearIsSymmetric, EqualIsSame, OrderIsReflexive, OrderIsReversed, LessIsTransitive, LowestIsEqual, LowestIsReduced, LcmIsMultiple, LcmIsLeast, FloorIsWhole, FloorIsNotAbove, FloorIsGreatest, CeilingIsWhole, CeilingIsNotBelow, CeilingIsLeast};
ghost use Rattle.xfrac.specs.NumberLaws.{NumberHasDenominator, ArithmeticIsNumber, FormedIsNumber, SumIsNumber, MeanIsNumber, CommonDenominatorIsPositive, NegatedIsNumber, MagnitudeIsNumber, FloorIsNumber, CeilingIsNumber, FractionIsFormed, WholeIsNumber, WholeIsFormed};

use crate::value::XFrac;

/// A number of the type keeps its limits: its fraction is in lowest terms, and neither part is above the limit. A loop
/// over a slice calls it at each item, since nothing else tells it of them.
pub fn is_number(v: &XFrac)
    ensures { IsNumber v.now }
{
    if let XFrac::Fin(fraction) = v {
        fraction.is_reduced();
    }
}

/// The sum of two fractions is their exact sum, in lowest terms.
pub fn sum_is_exact()
    ensures { SumIsExact }
{}

/// A sum doesn't depend on the order of its list.
pub fn sum_ignores_order()
    ensures { SumIgnoresOrder }
{}

/// What `SumAcc::merge` and `SumAcc::add` make stands for the longer list, where what they were given stands for a list.
pub fn joined_sums_stand_for_both()
    ensures joined { JoinedStandsForBoth }
    ensures alone { AloneStandsForOne }
{}

/// Totals never fall when a list grows, so a part that overflows makes the whole overflow.
pub fn part_overflows_whole()
    ensures totals { TotalsNeverFall }
    ensures overflow { PartOverflowsWhole }
{}

/// Nearness is symmetric.
pub fn near_is_symmetric()
    ensures { NearIsSymmetric }
{}

/// The order of `cmp_total` is total.
pub fn order_is_total()
    ensures equal { EqualIsSame }
    ensures reflexive { OrderIsReflexive }
    ensures reversed { OrderIsReversed }
    ensures transitive { LessIsTransitive }
{}

/// Lowest terms are equal to what they are of, and have no common divisor above 1.
pub fn lowest_terms_are_lowest()
    ensures value { LowestIsEqual }
    ensures reduced { LowestIsReduced }
{}

/// The least common multiple is a multiple of both numbers, and divides each number that is.
pub fn lcm_is_least()
    ensures multiple { LcmIsMultiple }
    ensures least { LcmIsLeast }
{}

/// A floor is the greatest whole number that isn't above.
pub fn floor_is_greatest()
    ensures whole { FloorIsWhole }
    ensures not_above { FloorIsNotAbove }
    ensures greatest { FloorIsGreatest }
{}

/// A ceiling is the least whole number that isn't below.
pub fn ceiling_is_least()
    ensures whole { CeilingIsWhole }
    ensures not_below { CeilingIsNotBelow }
    ensures least { CeilingIsLeast }
{}

/// What an operator answers of numbers is a number; all but the remainder form it anew, whatever both sides' terms are.
pub fn arithmetic_gives_numbers()
    ensures numbers { ArithmeticIsNumber }
    ensures formed { FormedIsNumber }
{}

/// The sum and the mean of a list are numbers, and the common denominator of its totals is above 0.
pub fn sums_are_numbers()
    ensures sum { SumIsNumber }
    ensures mean { MeanIsNumber }
    ensures denominator { NumberHasDenominator }
    ensures common { CommonDenominatorIsPositive }
{}

/// A number with the other sign, without its sign, rounded down or up is a number.
pub fn rounding_gives_numbers()
    ensures negated { NegatedIsNumber }
    ensures magnitude { MagnitudeIsNumber }
    ensures floor { FloorIsNumber }
    ensures ceiling { CeilingIsNumber }
{}

/// A fraction whose terms are within the limit is formed; a whole number, as each count below 2^96 is, as it stands.
pub fn small_terms_are_formed()
    ensures fraction { FractionIsFormed }
    ensures whole { WholeIsFormed }
    ensures number { WholeIsNumber }
{}

/// Numbers and whole numbers of any size are in lowest terms, and what is in lowest terms has a denominator above 0.
pub fn numbers_are_lowest()
    ensures number { NumberIsLowest }
    ensures whole { WholeIsLowest }
    ensures denominator { LowestHasDenominator }
{}

/// The laws of sums hold of fractions of any size: a sum doesn't depend on the order of its list, one value's totals
/// stand for it, and a part that overflows makes the whole overflow.
pub fn sums_of_any_size()
    ensures order { AnySumIgnoresOrder }
    ensures alone { AloneStandsForAny }
    ensures totals { AnyTotalsNeverFall }
    ensures overflow { AnyPartOverflowsWhole }
{}

/// The order of `cmp_total` is total on fractions of any size that are in lowest terms.
pub fn order_of_any_size()
    ensures equal { EqualLowestIsSame }
    ensures transitive { LessOfAnyIsTransitive }
{}
