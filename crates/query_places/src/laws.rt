//! Laws of the places of calls. The functions do nothing: each stands for what its contract says.
ghost use Rattle.query_places.specs.Apart.{CallsStandApart};

use promql_lex::spans_lie_in_order;
use promql_parse::what_is_read_is_a_query;
use promql_type::edges_are_typed_alike;

/// No two `label_replace` calls of a query begin at one byte of its text.
pub fn calls_stand_apart()
    ensures { CallsStandApart }
{
    spans_lie_in_order();
    what_is_read_is_a_query();
    edges_are_typed_alike();
}
