//! Laws of the reader and the grammar.
ghost use Rattle.promql_parse.specs.Laws.{DeepIsRefused, DepthsAreTold, InGrammarIsRead, NoQueryBeginsSo, OneTree, QueriesAreOpen, QueriesAreWithin, ReadIsInGrammar, RefusalStands, RefusedBehind, UnexpectedIsFirst};

use promql_ast::edged_trees_stay;
use promql_parts::{
    each_part_is_read, parts_lie_within_limits, parts_stop_where_they_can_go_on,
    refusals_of_parts_stand, what_is_read_is_a_part,
};

/// A tree that is read is a query's by the grammar, with at most 128 nodes on its longest path.
pub fn what_is_read_is_a_query()
    ensures { ReadIsInGrammar }
{
    what_is_read_is_a_part();
}

/// Each query of the grammar is read, unless its tree has more than 128 nodes on its longest path; and one that is read has no
/// other tree, however deep.
pub fn each_query_is_read()
    ensures read { InGrammarIsRead }
    ensures deep { DeepIsRefused }
    ensures one { OneTree }
{
    what_is_read_is_a_part();
    each_part_is_read();
}

/// A refusal stands whatever follows the lexemes that are refused, and no query begins so; unless more was expected where the
/// text ends, or the tree of all of it is too deep.
pub fn refusals_stand()
    ensures stands { RefusalStands }
    ensures out { NoQueryBeginsSo }
{
    what_is_read_is_a_part();
    each_part_is_read();
    refusals_of_parts_stand();
}

/// A query behind which a lexeme stands that doesn't go on with it is refused at that lexeme, whatever follows: `atan2` by its name,
/// and any other one by its own refusal or as one where something else was expected.
pub fn what_no_query_goes_on_with_is_refused()
    ensures { RefusedBehind }
{
    what_is_read_is_a_part();
    each_part_is_read();
}

/// The lexeme that is refused as unexpected is the first that fits no query: a query begins with the lexemes before it, unless they
/// end in braces that have two names already, which are refused where they close; or in a name without a letter, which no text has.
pub fn unexpected_is_first()
    ensures { UnexpectedIsFirst }
{
    what_is_read_is_a_part();
    parts_stop_where_they_can_go_on();
}

/// The parts of each query of the grammar lie within the limits, and the nodes on its longest path are as many as the grammar
/// tells.
pub fn queries_lie_within_limits()
    ensures within { QueriesAreWithin }
    ensures depths { DepthsAreTold }
{
    parts_lie_within_limits();
}

/// The moments of each query of the grammar are open on the left: setting that edge leaves its tree as it is.
pub fn queries_are_open()
    ensures { QueriesAreOpen }
{
    parts_lie_within_limits();
    edged_trees_stay();
}
