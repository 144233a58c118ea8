//! The tree of a query's text.
ghost use Rattle.frac_text.specs.Times.{time_limit};
ghost use Rattle.match_rule.specs.Gains.{Gains};
ghost use Rattle.match_rule.specs.Patterns.{HaveTheirPatterns};
ghost use Rattle.promql_ast.specs.Depth.{depth};
ghost use Rattle.promql_ast.specs.Parts.{AreWithin, parts_of};
ghost use Rattle.promql_parse.specs.Parsing.{Parses, Refuses, most_bytes};
ghost use Rattle.promql_parse.specs.Reading.{reading};
ghost use Rattle.promql_parts.specs.Reads.{Gives};
ghost use Rattle.std.specs.Prelude.{◌≡◌, ◌<◌, ◌≤◌, Err, Ok, length, IfOk, IfErr};
ghost use Rattle.ticks.specs.Durations.{hundred_years};

use crate::build::Built;
use crate::laws::{queries_lie_within_limits, what_is_read_is_a_query};
use crate::reader::{LOOSEST, Source, level_at};
use match_rule::Patterns;
use promql_ast::{Expr, QueryRefusal};
use promql_lex::{LexFault, tokens};
use promql_parts::{Lexeme, lexemes_of, refused};
use std::alloc::Global;

/// The most bytes of a query's text.
const MOST_BYTES: usize = 65_536;

/// The most levels of nesting.
const MOST_NESTED: u32 = 128;

/// The tree of all of the lexemes.
#[tactic(auto, unfolding(crate::specs::Reading::reading))]
fn read(source: Source, lexemes: &[Lexeme]) -> Result<Expr, LexFault>
    ensures { Gives (λ e. e) result (reading source.end lexemes.now) }
{
    let (built, rest) = level_at(source, MOST_NESTED, LOOSEST, lexemes)?;
    match rest {
        [] => match built {
            Built::Whole(e, _) => Ok(e),
            Built::Deep => Err(LexFault::Refused(QueryRefusal::TooDeep(0))),
        },
        [lexeme, ..] => Err(refused(lexeme)),
    }
}

/// The tree of a query's text, or its one refusal with its place. The only other error is want of memory, of which the refusal
/// of more than 65536 bytes takes none. The patterns of its rules are kept in `patterns`: those that were there, and those that
/// are kept before the end, stay under their numbers, after each error too. A tree has at most 128 nodes on a path, its ranges
/// and steps are positive and at most 100 years, its offsets are at most 100 years of either sign, its fixed times are at most
/// 10^14 ms from 0, and each of its rules with a pattern has it kept.
pub fn parse(alloc: Global, text: &str, patterns: &mut Patterns) -> Result<Expr, LexFault>
    ensures tree { IfOk result (λ e. Parses text.now patterns.old patterns.new (Ok e)) }
    ensures refusal { IfErr result (Refuses text.now patterns.old patterns.new) }
    ensures gains { Gains patterns.old patterns.new }
    ensures within { IfOk result (λ e. AreWithin (HaveTheirPatterns patterns.new) hundred_years time_limit (parts_of e)) }
    ensures shallow { IfOk result (λ e. depth e ≤ 128) }
    ensures too_long { most_bytes < length text.now → result ≡ Err (LexFault.Refused (QueryRefusal.TooLong 0)) }
{
    if text.len() > MOST_BYTES {
        return Err(LexFault::Refused(QueryRefusal::TooLong(0)));
    }
    let end = text.len() as u32;
    let tokens = tokens(alloc, text)?;
    let lexemes = lexemes_of(alloc, text.as_bytes(), tokens.as_slice(), patterns)?;
    what_is_read_is_a_query();
    queries_lie_within_limits();
    read(Source { alloc, end }, lexemes.as_slice())
}
