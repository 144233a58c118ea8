//! Laws of functions over windows that users rely on. The functions do nothing: each stands for what its contract says.
ghost use Rattle.window_fn.specs.Laws.{AscendingIsRanked, GreatestIsGreatest, IncreaseWithoutResets, LeastIsLeast, OneValueStays, OrderDoesntMatter, OrderOfAnyDoesntMatter, TimesDontMatter};
ghost use Rattle.window_fn.specs.NumberLaws.{AggregateIsAlike, AggregateIsNumber, SecondsAreNumbers, ValueIsLowest, WindowIsAlike, WindowIsNumber};

use xfrac::laws::{
    arithmetic_gives_numbers, numbers_are_lowest, order_is_total, order_of_any_size,
    rounding_gives_numbers, small_terms_are_formed, sum_ignores_order, sums_are_numbers,
    sums_of_any_size,
};

/// Without a reset a counter's increase is the plain difference, carried on to the window's edges.
pub fn increase_without_resets()
    ensures { IncreaseWithoutResets }
{}

/// One value neither changes nor is reset.
pub fn one_value_stays()
    ensures { OneValueStays }
{}

/// The aggregations over time are those of the values, whatever their times are.
pub fn times_dont_matter()
    ensures { TimesDontMatter }
{}

/// The sum, the mean, the count, the greatest and the least value and the quantiles don't depend on the order of the
/// values.
pub fn order_doesnt_matter()
    ensures { OrderDoesntMatter }
{
    order_is_total();
    sum_ignores_order();
}

/// Nor do they where the values are fractions of any size in lowest terms.
pub fn order_of_any_size_doesnt_matter()
    ensures { OrderOfAnyDoesntMatter }
{
    order_is_total();
    order_of_any_size();
    numbers_are_lowest();
    sums_of_any_size();
}

/// The greatest value is one of the values that none comes after, the least one that none is below.
pub fn extremes_are_values()
    ensures greatest { GreatestIsGreatest }
    ensures least { LeastIsLeast }
{
    order_is_total();
}

/// A quantile ranks the values themselves, in rising order with NaN first.
pub fn ranks_are_of_values()
    ensures { AscendingIsRanked }
{
    order_is_total();
}

/// The aggregations, the quantiles and the functions over windows give numbers where the values are numbers.
pub fn windows_give_numbers()
    ensures aggregates { AggregateIsNumber }
    ensures windows { WindowIsNumber }
{
    arithmetic_gives_numbers();
    sums_are_numbers();
    rounding_gives_numbers();
}

/// The same of values that are numbers or whole numbers of any size, however many they are: they give such values.
pub fn windows_give_numbers_or_wholes()
    ensures aggregates { AggregateIsAlike }
    ensures windows { WindowIsAlike }
{
    arithmetic_gives_numbers();
    sums_are_numbers();
    rounding_gives_numbers();
}

/// Numbers and whole numbers of any size are in lowest terms.
pub fn values_are_lowest()
    ensures { ValueIsLowest }
{
    numbers_are_lowest();
}

/// A time in milliseconds, within 10^30, has a number of seconds.
pub fn seconds_are_numbers()
    ensures { SecondsAreNumbers }
{
    small_terms_are_formed();
    arithmetic_gives_numbers();
}
