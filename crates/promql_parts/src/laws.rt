//! Laws of the readers of parts and their grammar.
ghost use Rattle.promql_parts.specs.Laws.{BracedIsRead, BracesAreMatchers, BracketsAreRead, BracketsAreSpans, GroupedIsRead, GroupingsAreGrouped, MatchingsAreModifiers, ModifierIsRead, OffsetIsRead, OffsetsAreSigned, RefusedAsTokens, TimeIsRead, TimesStandBehind};
ghost use Rattle.promql_parts.specs.Limits.{OffsetsAreWithin, RangesAreWithin, RulesHaveTheirs, StepsAreWithin, TimesAreWithin};
ghost use Rattle.promql_parts.specs.Stops.{BracesStop, BracketsStop, GroupingsStop, MatchingsStop, OffsetsStop, TimesStop};
ghost use Rattle.promql_parts.specs.Stands.{BracesStand, BracketsStand, GroupingBehindStands, GroupingStands, MatchingStands, OffsetStands, TimeStands};

use promql_lex::kinds_are_of_spellings;

/// A lexeme of a text is refused exactly where its token is, with the same refusal.
pub fn lexemes_are_refused_as_their_tokens()
    ensures { RefusedAsTokens }
{
    kinds_are_of_spellings();
}

/// Each part that is read is that part by its productions.
pub fn what_is_read_is_a_part()
    ensures groupings { GroupingsAreGrouped }
    ensures braces { BracesAreMatchers }
    ensures brackets { BracketsAreSpans }
    ensures offsets { OffsetsAreSigned }
    ensures times { TimesStandBehind }
    ensures matchings { MatchingsAreModifiers }
{}

/// Each part is read, where nothing stands behind it that goes on with it.
pub fn each_part_is_read()
    ensures groupings { GroupedIsRead }
    ensures braces { BracedIsRead }
    ensures brackets { BracketsAreRead }
    ensures offsets { OffsetIsRead }
    ensures times { TimeIsRead }
    ensures modifiers { ModifierIsRead }
{}

/// A refusal of a part stands whatever follows its lexeme.
pub fn refusals_of_parts_stand()
    ensures grouping { GroupingStands }
    ensures grouping_behind { GroupingBehindStands }
    ensures braces { BracesStand }
    ensures brackets { BracketsStand }
    ensures offset { OffsetStands }
    ensures time { TimeStands }
    ensures matching { MatchingStands }
{}

/// Where a part stops since something else was expected, the lexemes before begin such a part: some lexemes go on with them. But
/// for braces with two names, which are refused where they close, and a name without a letter, which no text has.
pub fn parts_stop_where_they_can_go_on()
    ensures groupings { GroupingsStop }
    ensures braces { BracesStop }
    ensures brackets { BracketsStop }
    ensures offsets { OffsetsStop }
    ensures times { TimesStop }
    ensures matchings { MatchingsStop }
{}

/// Each part lies within the limits: lengths are positive and at most 100 years, offsets are at most 100 years of either sign,
/// fixed times are at most 10^14 ms from 0, and each rule with a pattern has it kept where the lexemes have theirs.
pub fn parts_lie_within_limits()
    ensures ranges { RangesAreWithin }
    ensures steps { StepsAreWithin }
    ensures offsets { OffsetsAreWithin }
    ensures times { TimesAreWithin }
    ensures rules { RulesHaveTheirs }
{}
