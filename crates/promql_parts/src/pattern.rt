//! Patterns in place of the strings behind `=~` and `!~`.
ghost use Rattle.match_rule.specs.Gains.{Gains};
ghost use Rattle.promql_parts.specs.Lexemes.{lexemes_of};
ghost use Rattle.promql_parts.specs.Patterned.{Becomes, HasPattern, HavePatterns, IsPattern, Patterned, is_bad, takes_pattern};
ghost use Rattle.std.specs.Prelude.{◌≡◌, false, IfOk};

use crate::cut::lexeme_of;
use crate::lexeme::{Lexeme, LexemeKind, Sign};
use holders::{Items, Text};
use match_rule::{PatternRefusal, Patterns};
use promql_ast::QueryRefusal;
use promql_lex::Token;
use std::alloc::{AllocError, Global};

fn takes_pattern(kind: &LexemeKind) -> bool
    ensures { result ≡ takes_pattern kind.now }
{
    match kind {
        LexemeKind::Sign(Sign::Matches) => true,
        LexemeKind::Sign(Sign::Unmatched) => true,
        _ => false,
    }
}

/// What a string at this place is as a pattern. It is kept where it isn't refused. The only error is want of memory; the
/// patterns that were there keep their numbers.
fn pattern_of(at: u32, text: &Text, patterns: &mut Patterns) -> Result<LexemeKind, AllocError>
    ensures pattern { IfOk result (λ kind. IsPattern at text.now patterns.old patterns.new kind) }
    ensures kept { IfOk result (λ kind. HasPattern patterns.new kind) }
    ensures gains { Gains patterns.old patterns.new }
{
    match patterns.whole(text.as_str()) {
        Ok(id) => {
            let passes_empty = patterns.matches(id, "")?;
            Ok(LexemeKind::Pattern(id, passes_empty))
        }
        Err(PatternRefusal::BadPattern) => Ok(LexemeKind::Bad(QueryRefusal::BadPattern(at))),
        Err(PatternRefusal::TooManyPatterns) => {
            Ok(LexemeKind::Bad(QueryRefusal::TooManyPatterns(at)))
        }
        Err(PatternRefusal::Memory) => Err(AllocError),
    }
}

fn is_bad(kind: &LexemeKind) -> bool
    ensures { result ≡ is_bad kind.now }
{
    match kind {
        LexemeKind::Bad(_) => true,
        _ => false,
    }
}

/// A lexeme with its pattern, where it is a string behind `=~` or `!~`. The only error is want of memory; the patterns
/// that were there keep their numbers.
fn with_pattern(behind: bool, lexeme: Lexeme, patterns: &mut Patterns) -> Result<Lexeme, AllocError>
    ensures becomes { IfOk result (λ l. Becomes behind patterns.old lexeme patterns.new l) }
    ensures kept { IfOk result (λ l. HasPattern patterns.old lexeme.kind → HasPattern patterns.new l.kind) }
    ensures gains { Gains patterns.old patterns.new }
{
    if !behind {
        return Ok(lexeme);
    }
    let Lexeme { at, kind } = lexeme;
    match kind {
        LexemeKind::Quoted(text) => {
            let kind = pattern_of(at, &text, patterns)?;
            Ok(Lexeme { at, kind })
        }
        other => Ok(Lexeme { at, kind: other }),
    }
}

/// The lexemes of a text's tokens, with the patterns of the strings right behind `=~` and `!~`, which are kept, up to the
/// first that is refused. The only error is want of memory. The patterns that were there and those that were kept before
/// the end stay under their numbers, after an error too; each lexeme that is a pattern has it kept.
pub fn lexemes_of(
    alloc: Global,
    text: &[u8],
    tokens: &[Token],
    patterns: &mut Patterns,
) -> Result<Items<Lexeme>, AllocError>
    ensures lexemes { IfOk result (λ found. Patterned false patterns.old (lexemes_of text.now tokens.now) patterns.new found) }
    ensures kept { IfOk result (λ found. HavePatterns patterns.new found) }
    ensures gains { Gains patterns.old patterns.new }
{
    let mut found = Items::new(alloc);
    let mut behind = false;
    for token in tokens {
        let lexeme = lexeme_of(alloc, text, token)?;
        let next = takes_pattern(&lexeme.kind);
        let lexeme = with_pattern(behind, lexeme, patterns)?;
        let bad = is_bad(&lexeme.kind);
        found.push(lexeme)?;
        if bad {
            return Ok(found);
        }
        behind = next;
    }
    Ok(found)
}
