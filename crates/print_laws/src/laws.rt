//! How canonical texts are read.
ghost use Rattle.print_laws.specs.Laws.{CanonicalTextsAreRead, CanonicalTextsAreReadAnew};

use frac_text::{decimals_end_by_the_hundredth, numbers_are_told, spellings_are_numbers};
use func_table::functions_have_their_names;
use promql_lex::kinds_are_of_spellings;
use promql_parse::{each_query_is_read, what_is_read_is_a_query};
use promql_parts::parts_lie_within_limits;
use ticks::{durations_are_found, spellings_are_durations};

/// A law, with nothing to run: the canonical text of a tree that a text gives, with the patterns that are kept then, is read as the
/// same tree but for the places, unless it is longer than a query may be. Over the patterns that are kept then it keeps no more;
/// over those that were kept before the text it keeps the same, under the same numbers.
pub fn canonical_texts_are_read()
    ensures kept { CanonicalTextsAreRead }
    ensures anew { CanonicalTextsAreReadAnew }
{
    decimals_end_by_the_hundredth();
    numbers_are_told();
    spellings_are_numbers();
    functions_have_their_names();
    kinds_are_of_spellings();
    each_query_is_read();
    what_is_read_is_a_query();
    parts_lie_within_limits();
    durations_are_found();
    spellings_are_durations();
}
