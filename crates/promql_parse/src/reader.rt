//! The readers of expressions. Each reads at the front of the lexemes and answers what is read and what stands behind it.
//! Nesting is bounded by `budget`, the levels that are left, and chains are read by loops.
ghost use Rattle.promql_parse.specs.Reading.{aggregate_at, aggregation_at, arguments_at, arguments_turn, begins_grouping, body_at, braced_at, bracket_turn, call_arguments, call_at, chain_turn, duration_at, exponent_at, grouped, grouped_before, grouped_behind, level_at, metric_at, minus_at, named_at, offset_turn, operand_at, paren_at, plus_at, postfix_kind, postfix_turn, power_at, power_behind, primary_at, raised_at, refused_at_name, side_at, time_turn, unary_at, within, word_at};
ghost use Rattle.promql_parse.specs.Build.{no_arguments};
ghost use Rattle.promql_parts.specs.Labels.{grouping_begun};
ghost use Rattle.promql_parts.specs.Reads.{Gives, all_turns};
ghost use Rattle.std.specs.Option.{option_map};
ghost use Rattle.std.specs.Prelude.{◌≡◌, ◌<◌, ◌≤◌, ◌-◌, ℕ, length, IfOk, IsTrue};

use crate::build::{
    Arguments, Built, Operand, add, aggregate, binary, bracketed, call, is_plain, leaf, may_fix,
    may_offset, negate, no_arguments, operand_built, other, paren, selected, with_offset,
    with_time,
};
use crate::number::{function_at, is_refused_aggregation, seconds_of};
use func_table::Aggregate;
use holders::Text;
use promql_ast::{Node, QueryRefusal};
use promql_lex::LexFault;
use promql_parts::{
    BinaryOp, Lexeme, LexemeKind, Read, Sign, Word, after, begins, braces_at, brackets_at,
    grouping_at, grouping_begun, grouping_behind, item_behind, matching_at, named_rules, offset_at,
    op_at, refused, refused_at, when_at,
};
use std::alloc::Global;
use ticks::Ms;
use xfrac::ArithOp;

/// The level of the loosest operator, `or`.
pub const LOOSEST: u32 = 5;

/// What every reader is given: where trees are made, and the text's length.
#[derive(Clone, Copy)]
pub struct Source {
    pub alloc: Global,
    pub end: u32,
}

/// The levels of nesting that are left inside of what a lexeme opens.
fn opened(budget: u32, at: u32) -> Result<u32, LexFault>
    ensures fits { IfOk result (λ inside. inside < budget) }
    ensures is { (end : ℕ) → Gives (λ inside. level_at end (within end inside)) result (within end budget at) }
{
    if budget == 0 {
        Err(LexFault::Refused(QueryRefusal::TooDeep(at)))
    } else {
        Ok(budget - 1)
    }
}

/// A selector with braces, from behind the opening one.
#[tactic(auto, unfolding(crate::specs::Reading::braced_at))]
fn braced_at<'a>(
    source: Source,
    at: u32,
    name: Option<&Text>,
    lexemes: &'a [Lexeme],
) -> Read<'a, Operand>
    ensures is { Gives (λ read. (read.0, read.1.now)) result (braced_at source.end at (option_map (λ t. t.now) name.entry) lexemes.now) }
    ensures shorter { IfOk result (λ read. length read.1.now ≤ length lexemes.now) }
{
    let (rules, rest) = braces_at(source.alloc, source.end, name, lexemes)?;
    Ok((selected(at, rules), rest))
}

/// A selector that begins with a metric's name.
#[tactic(auto, unfolding(crate::specs::Reading::metric_at))]
fn metric_at<'a>(source: Source, at: u32, name: &Text, lexemes: &'a [Lexeme]) -> Read<'a, Operand>
    ensures is { Gives (λ read. (read.0, read.1.now)) result (metric_at source.end at name.now lexemes.now) }
    ensures shorter { IfOk result (λ read. length read.1.now ≤ length lexemes.now) }
{
    if begins(Sign::LeftBrace, lexemes) {
        return braced_at(source, at, Some(name), lexemes.split_at(1).1);
    }
    let rules = named_rules(source.alloc, Some(name))?;
    Ok((selected(at, rules), lexemes))
}

/// A duration in a number's place.
#[tactic(auto, unfolding(crate::specs::Reading::duration_at))]
fn duration_at<'a>(at: u32, duration: Ms, lexemes: &'a [Lexeme]) -> Read<'a, Operand>
    ensures is { (end : ℕ) → Gives (λ read. (read.0, read.1.now)) result (duration_at end at duration lexemes.now) }
    ensures shorter { IfOk result (λ read. length read.1.now ≤ length lexemes.now) }
{
    let value = seconds_of(at, duration)?;
    Ok((other(at, leaf(at, Node::Number(value))), lexemes))
}

/// One more argument, and whether another one follows.
#[cycle(reader)]
#[tactic(auto, unfolding(crate::specs::Reading::arguments_turn))]
fn arguments_turn<'a>(
    source: Source,
    budget: u32,
    sofar: Arguments,
    lexemes: &'a [Lexeme],
) -> Result<(bool, Arguments, &'a [Lexeme]), LexFault>
    ensures is { Gives (λ next. (next.0, next.1, next.2.now)) result (arguments_turn source.end (level_at source.end (within source.end budget) 5) sofar lexemes.now) }
    ensures shorter { IfOk result (λ next. (length next.2.now ≤ length lexemes.now) × (IsTrue next.0 → length next.2.now < length lexemes.now)) }
{
    let (argument, behind) = level_at(source, budget, LOOSEST, lexemes)?;
    let (more, rest) = item_behind(source.end, Sign::RightParen, behind)?;
    Ok((more, add(sofar, argument)?, rest))
}

/// The arguments up to the closing parenthesis.
#[cycle(reader)]
fn listed_arguments<'a>(source: Source, budget: u32, lexemes: &'a [Lexeme]) -> Read<'a, Arguments>
    ensures is { Gives (λ read. (read.0, read.1.now)) result (all_turns (arguments_turn source.end (level_at source.end (within source.end budget) 5)) no_arguments lexemes.now) }
    ensures shorter { IfOk result (λ read. length read.1.now ≤ length lexemes.now) }
{
    let mut sofar = no_arguments(source.alloc);
    let mut rest = lexemes;
    loop {
        let (more, next, behind) = arguments_turn(source, budget, sofar, rest)?;
        if !more {
            return Ok((next, behind));
        }
        sofar = next;
        rest = behind;
    }
}

/// One argument or more, from behind the opening parenthesis.
#[cycle(reader)]
#[tactic(auto, unfolding(crate::specs::Reading::arguments_at))]
fn arguments_at<'a>(source: Source, budget: u32, lexemes: &'a [Lexeme]) -> Read<'a, Arguments>
    ensures is { Gives (λ read. (read.0, read.1.now)) result (arguments_at source.end (level_at source.end (within source.end budget) 5) lexemes.now) }
    ensures shorter { IfOk result (λ read. length read.1.now ≤ length lexemes.now) }
{
    let (arguments, behind) = listed_arguments(source, budget, lexemes)?;
    let rest = after(source.end, Sign::RightParen, behind)?;
    Ok((arguments, rest))
}

#[cycle(reader)]
fn call_arguments<'a>(source: Source, budget: u32, lexemes: &'a [Lexeme]) -> Read<'a, Arguments>
    ensures is { Gives (λ read. (read.0, read.1.now)) result (call_arguments source.end (level_at source.end (within source.end budget) 5) lexemes.now) }
    ensures shorter { IfOk result (λ read. length read.1.now ≤ length lexemes.now) }
{
    if begins(Sign::RightParen, lexemes) {
        return Ok((no_arguments(source.alloc), lexemes.split_at(1).1));
    }
    arguments_at(source, budget, lexemes)
}

/// The arguments of an aggregation, with their parentheses.
#[cycle(reader)]
#[tactic(auto, unfolding(crate::specs::Reading::body_at))]
fn body_at<'a>(source: Source, budget: u32, lexemes: &'a [Lexeme]) -> Read<'a, Arguments>
    ensures is { Gives (λ read. (read.0, read.1.now)) result (body_at source.end (level_at source.end (within source.end budget) 5) lexemes.now) }
    ensures shorter { IfOk result (λ read. length read.1.now ≤ length lexemes.now) }
{
    let inside = after(source.end, Sign::LeftParen, lexemes)?;
    arguments_at(source, budget, inside)
}

#[cycle(reader)]
#[tactic(auto, unfolding(crate::specs::Reading::grouped_behind))]
fn grouped_behind<'a>(
    source: Source,
    budget: u32,
    at: u32,
    function: Aggregate,
    lexemes: &'a [Lexeme],
) -> Read<'a, Built>
    ensures is { Gives (λ read. (read.0, read.1.now)) result (grouped_behind source.end (level_at source.end (within source.end budget) 5) at function lexemes.now) }
    ensures shorter { IfOk result (λ read. length read.1.now ≤ length lexemes.now) }
{
    let (arguments, behind) = body_at(source, budget, lexemes)?;
    let (grouping, rest) = grouping_behind(source.alloc, source.end, behind)?;
    Ok((aggregate(at, function, grouping, arguments), rest))
}

#[cycle(reader)]
#[tactic(auto, unfolding(crate::specs::Reading::grouped_before))]
fn grouped_before<'a>(
    source: Source,
    budget: u32,
    at: u32,
    function: Aggregate,
    without: bool,
    lexemes: &'a [Lexeme],
) -> Read<'a, Built>
    requires { 0 < length lexemes.now }
    ensures is { Gives (λ read. (read.0, read.1.now)) result (grouped_before source.end (level_at source.end (within source.end budget) 5) at function without lexemes.now) }
    ensures shorter { IfOk result (λ read. length read.1.now ≤ length lexemes.now) }
{
    let (grouping, behind) = grouping_at(source.alloc, without, source.end, lexemes)?;
    let (arguments, rest) = body_at(source, budget, behind)?;
    Ok((aggregate(at, function, grouping, arguments), rest))
}

/// An aggregation from behind its word: its grouping stands before the arguments or behind them.
#[cycle(reader)]
fn grouped<'a>(
    source: Source,
    budget: u32,
    at: u32,
    function: Aggregate,
    lexemes: &'a [Lexeme],
) -> Read<'a, Built>
    ensures is { Gives (λ read. (read.0, read.1.now)) result (grouped source.end (level_at source.end (within source.end budget) 5) at function (grouping_begun lexemes.now) lexemes.now) }
    ensures shorter { IfOk result (λ read. length read.1.now ≤ length lexemes.now) }
{
    match grouping_begun(lexemes) {
        None => grouped_behind(source, budget, at, function, lexemes),
        Some(without) => grouped_before(source, budget, at, function, without, lexemes),
    }
}

#[cycle(reader)]
#[tactic(auto, unfolding(crate::specs::Reading::call_at))]
fn call_at<'a>(
    source: Source,
    budget: u32,
    at: u32,
    name: &Text,
    lexemes: &'a [Lexeme],
) -> Read<'a, Operand>
    ensures is { Gives (λ read. (read.0, read.1.now)) result (call_at source.end (within source.end budget) at name.now lexemes.now) }
    ensures shorter { IfOk result (λ read. length read.1.now ≤ length lexemes.now) }
{
    let inside = opened(budget, at)?;
    let function = function_at(at, name)?;
    let (arguments, rest) = call_arguments(source, inside, lexemes)?;
    Ok((other(at, call(at, function, arguments)), rest))
}

/// The refusal of an aggregation that this engine doesn't have.
#[tactic(auto, unfolding(crate::specs::Reading::refused_at_name))]
fn refused_at_name<'a>(budget: u32, at: u32, name: &Text) -> Read<'a, Operand>
    ensures is { (end : ℕ) → Gives (λ read. (read.0, read.1.now)) result (refused_at_name end (within end budget) at name.now) }
    ensures none { IfOk result (λ read. ⊥) }
{
    opened(budget, at)?;
    Err(LexFault::Refused(QueryRefusal::RefusedFunction(at, name.copy()?)))
}

/// A name: a call's, a refused aggregation's or a metric's.
#[cycle(reader)]
#[tactic(auto, unfolding(crate::specs::Reading::named_at))]
fn named_at<'a>(
    source: Source,
    budget: u32,
    at: u32,
    name: &Text,
    lexemes: &'a [Lexeme],
) -> Read<'a, Operand>
    ensures is { Gives (λ read. (read.0, read.1.now)) result (named_at source.end (within source.end budget) at name.now lexemes.now) }
    ensures shorter { IfOk result (λ read. length read.1.now ≤ length lexemes.now) }
{
    if begins(Sign::LeftParen, lexemes) {
        return call_at(source, budget, at, name, lexemes.split_at(1).1);
    }
    if begins_grouping(lexemes) && is_refused_aggregation(name) {
        return refused_at_name(budget, at, name);
    }
    metric_at(source, at, name, lexemes)
}

fn begins_grouping(lexemes: &[Lexeme]) -> bool
    ensures { result ≡ begins_grouping lexemes.now }
{
    grouping_begun(lexemes).is_some()
}

#[cycle(reader)]
#[tactic(auto, unfolding(crate::specs::Reading::aggregate_at))]
fn aggregate_at<'a>(
    source: Source,
    budget: u32,
    at: u32,
    function: Aggregate,
    lexemes: &'a [Lexeme],
) -> Read<'a, Operand>
    ensures is { Gives (λ read. (read.0, read.1.now)) result (aggregate_at source.end (within source.end budget) at function lexemes.now) }
    ensures shorter { IfOk result (λ read. length read.1.now ≤ length lexemes.now) }
{
    let inside = opened(budget, at)?;
    let (built, rest) = grouped(source, inside, at, function, lexemes)?;
    Ok((other(at, built), rest))
}

/// An aggregation, or a metric that is named so.
#[cycle(reader)]
fn aggregation_at<'a>(
    source: Source,
    budget: u32,
    at: u32,
    function: Aggregate,
    spelling: &Text,
    lexemes: &'a [Lexeme],
) -> Read<'a, Operand>
    ensures is { Gives (λ read. (read.0, read.1.now)) result (aggregation_at source.end (within source.end budget) at function spelling.now lexemes.now) }
    ensures shorter { IfOk result (λ read. length read.1.now ≤ length lexemes.now) }
{
    if begins(Sign::LeftParen, lexemes) || begins_grouping(lexemes) {
        return aggregate_at(source, budget, at, function, lexemes);
    }
    metric_at(source, at, spelling, lexemes)
}

/// A word in an operand's place.
#[cycle(reader)]
fn word_at<'a>(
    source: Source,
    budget: u32,
    at: u32,
    word: Word,
    spelling: &Text,
    lexemes: &'a [Lexeme],
) -> Read<'a, Operand>
    ensures is { Gives (λ read. (read.0, read.1.now)) result (word_at source.end (within source.end budget) at word spelling.now lexemes.now) }
    ensures shorter { IfOk result (λ read. length read.1.now ≤ length lexemes.now) }
{
    match word {
        Word::Over(function) => aggregation_at(source, budget, at, function, spelling, lexemes),
        Word::Bool | Word::On | Word::Ignoring | Word::GroupLeft | Word::GroupRight | Word::Atan2 =>
            Err(LexFault::Refused(QueryRefusal::Expected(at))),
        _ => metric_at(source, at, spelling, lexemes),
    }
}

#[cycle(reader)]
#[tactic(auto, unfolding(crate::specs::Reading::paren_at))]
fn paren_at<'a>(source: Source, budget: u32, at: u32, lexemes: &'a [Lexeme]) -> Read<'a, Operand>
    ensures is { Gives (λ read. (read.0, read.1.now)) result (paren_at source.end (within source.end budget) at lexemes.now) }
    ensures shorter { IfOk result (λ read. length read.1.now ≤ length lexemes.now) }
{
    let inside = opened(budget, at)?;
    let (inner, behind) = level_at(source, inside, LOOSEST, lexemes)?;
    let rest = after(source.end, Sign::RightParen, behind)?;
    Ok((other(at, paren(source.alloc, at, inner)?), rest))
}

/// A number, a duration, a string, parentheses, an aggregation, a call or a selector, from behind its first lexeme.
#[cycle(reader)]
fn primary_at<'a>(
    source: Source,
    budget: u32,
    lexeme: &Lexeme,
    lexemes: &'a [Lexeme],
) -> Read<'a, Operand>
    ensures is { Gives (λ read. (read.0, read.1.now)) result (primary_at source.end (within source.end budget) lexeme.now lexemes.now) }
    ensures shorter { IfOk result (λ read. length read.1.now ≤ length lexemes.now) }
{
    let at = lexeme.at;
    match &lexeme.kind {
        LexemeKind::Number(value) => Ok((other(at, leaf(at, Node::Number(*value))), lexemes)),
        LexemeKind::Duration(duration) => duration_at(at, *duration, lexemes),
        LexemeKind::Quoted(text) => Ok((other(at, leaf(at, Node::Words(text.copy()?))), lexemes)),
        LexemeKind::Sign(Sign::LeftParen) => paren_at(source, budget, at, lexemes),
        LexemeKind::Sign(Sign::LeftBrace) => braced_at(source, at, None, lexemes),
        LexemeKind::Name(name) => named_at(source, budget, at, name, lexemes),
        LexemeKind::Word(word, spelling) => word_at(source, budget, at, *word, spelling, lexemes),
        _ => Err(refused(lexeme)),
    }
}

/// Brackets behind an operand, from behind the opening one.
#[tactic(auto, unfolding(crate::specs::Reading::bracket_turn))]
fn bracket_turn<'a>(
    source: Source,
    operand: Operand,
    lexemes: &'a [Lexeme],
) -> Result<(bool, Operand, &'a [Lexeme]), LexFault>
    ensures is { Gives (λ next. (next.0, next.1, next.2.now)) result (bracket_turn source.end operand lexemes.now) }
    ensures shorter { IfOk result (λ next. length next.2.now < length lexemes.now) }
{
    let (brackets, rest) = brackets_at(is_plain(&operand), source.end, lexemes)?;
    Ok((true, bracketed(source.alloc, operand, brackets)?, rest))
}

#[tactic(auto, unfolding(crate::specs::Reading::offset_turn))]
fn offset_turn<'a>(
    source: Source,
    operand: Operand,
    lexemes: &'a [Lexeme],
) -> Result<(bool, Operand, &'a [Lexeme]), LexFault>
    ensures is { Gives (λ next. (next.0, next.1, next.2.now)) result (offset_turn source.end operand lexemes.now) }
    ensures shorter { IfOk result (λ next. length next.2.now < length lexemes.now) }
{
    let (offset, rest) = offset_at(source.end, lexemes)?;
    Ok((true, with_offset(operand, offset), rest))
}

#[tactic(auto, unfolding(crate::specs::Reading::time_turn))]
fn time_turn<'a>(
    source: Source,
    operand: Operand,
    lexemes: &'a [Lexeme],
) -> Result<(bool, Operand, &'a [Lexeme]), LexFault>
    ensures is { Gives (λ next. (next.0, next.1, next.2.now)) result (time_turn source.end operand lexemes.now) }
    ensures shorter { IfOk result (λ next. length next.2.now < length lexemes.now) }
{
    let (time, rest) = when_at(source.end, lexemes)?;
    Ok((true, with_time(operand, time), rest))
}

/// What may stand behind an operand: brackets, an offset, a fixed time.
fn postfix_turn<'a>(
    source: Source,
    operand: Operand,
    lexemes: &'a [Lexeme],
) -> Result<(bool, Operand, &'a [Lexeme]), LexFault>
    ensures is { Gives (λ next. (next.0, next.1, next.2.now)) result (postfix_turn source.end operand lexemes.now) }
    ensures shorter { IfOk result (λ next. (length next.2.now ≤ length lexemes.now) × (IsTrue next.0 → length next.2.now < length lexemes.now)) }
{
    let [lexeme, ..] = lexemes else {
        return Ok((false, operand, lexemes));
    };
    match &lexeme.kind {
        LexemeKind::Sign(Sign::LeftBracket) => {
            bracket_turn(source, operand, lexemes.split_at(1).1)
        }
        LexemeKind::Word(Word::Offset, _) if may_offset(&operand) => {
            offset_turn(source, operand, lexemes.split_at(1).1)
        }
        LexemeKind::Sign(Sign::AtSign) if may_fix(&operand) => {
            time_turn(source, operand, lexemes.split_at(1).1)
        }
        _ => Ok((false, operand, lexemes)),
    }
}

/// All that stands behind an operand's first part.
fn postfixes<'a>(source: Source, first: Operand, lexemes: &'a [Lexeme]) -> Read<'a, Operand>
    ensures is { Gives (λ read. (read.0, read.1.now)) result (all_turns (postfix_turn source.end) first lexemes.now) }
    ensures shorter { IfOk result (λ read. length read.1.now ≤ length lexemes.now) }
{
    let mut operand = first;
    let mut rest = lexemes;
    loop {
        let (more, next, behind) = postfix_turn(source, operand, rest)?;
        if !more {
            return Ok((next, behind));
        }
        operand = next;
        rest = behind;
    }
}

#[cycle(reader)]
#[tactic(auto, unfolding(crate::specs::Reading::operand_at))]
fn operand_at<'a>(
    source: Source,
    budget: u32,
    lexeme: &Lexeme,
    lexemes: &'a [Lexeme],
) -> Read<'a, Operand>
    ensures is { Gives (λ read. (read.0, read.1.now)) result (operand_at source.end (within source.end budget) lexeme.now lexemes.now) }
    ensures shorter { IfOk result (λ read. length read.1.now ≤ length lexemes.now) }
{
    let (first, behind) = primary_at(source, budget, lexeme, lexemes)?;
    postfixes(source, first, behind)
}

/// How the sides of `^` are matched, and its right side, from behind it.
#[cycle(reader)]
#[tactic(auto, unfolding(crate::specs::Reading::raised_at))]
fn raised_at<'a>(source: Source, budget: u32, base: Built, lexemes: &'a [Lexeme]) -> Read<'a, Built>
    ensures is { Gives (λ read. (read.0, read.1.now)) result (raised_at source.end (level_at source.end (within source.end budget) 0) base lexemes.now) }
    ensures shorter { IfOk result (λ read. length read.1.now ≤ length lexemes.now) }
{
    let power = BinaryOp::Arith(ArithOp::Pow);
    let (matching, behind) = matching_at(source.alloc, power, source.end, lexemes)?;
    let (right, rest) = level_at(source, budget, 0, behind)?;
    Ok((binary(source.alloc, power, matching, base, right)?, rest))
}

/// The right side of `^`, from behind it, one level further inside.
#[cycle(reader)]
#[tactic(auto, unfolding(crate::specs::Reading::exponent_at))]
fn exponent_at<'a>(
    source: Source,
    budget: u32,
    at: u32,
    base: Built,
    lexemes: &'a [Lexeme],
) -> Read<'a, Built>
    ensures is { Gives (λ read. (read.0, read.1.now)) result (exponent_at source.end (within source.end budget) at base lexemes.now) }
    ensures shorter { IfOk result (λ read. length read.1.now ≤ length lexemes.now) }
{
    let inside = opened(budget, at)?;
    raised_at(source, inside, base, lexemes)
}

/// A power, or its base alone. `atan2` in an operator's place is refused.
#[cycle(reader)]
fn power_behind<'a>(
    source: Source,
    budget: u32,
    base: Built,
    lexemes: &'a [Lexeme],
) -> Read<'a, Built>
    ensures is { Gives (λ read. (read.0, read.1.now)) result (power_behind source.end (within source.end budget) base lexemes.now) }
    ensures shorter { IfOk result (λ read. length read.1.now ≤ length lexemes.now) }
{
    let [lexeme, ..] = lexemes else {
        return Ok((base, lexemes));
    };
    match &lexeme.kind {
        LexemeKind::Sign(Sign::Caret) => {
            exponent_at(source, budget, lexeme.at, base, lexemes.split_at(1).1)
        }
        LexemeKind::Word(Word::Atan2, spelling) => Err(LexFault::Refused(
            QueryRefusal::RefusedFunction(lexeme.at, spelling.copy()?),
        )),
        _ => Ok((base, lexemes)),
    }
}

#[cycle(reader)]
#[tactic(auto, unfolding(crate::specs::Reading::power_at))]
fn power_at<'a>(
    source: Source,
    budget: u32,
    lexeme: &Lexeme,
    lexemes: &'a [Lexeme],
) -> Read<'a, Built>
    ensures is { Gives (λ read. (read.0, read.1.now)) result (power_at source.end (within source.end budget) lexeme.now lexemes.now) }
    ensures shorter { IfOk result (λ read. length read.1.now ≤ length lexemes.now) }
{
    let (base, behind) = operand_at(source, budget, lexeme, lexemes)?;
    let built = operand_built(source.alloc, base)?;
    power_behind(source, budget, built, behind)
}

#[cycle(reader)]
#[tactic(auto, unfolding(crate::specs::Reading::minus_at))]
fn minus_at<'a>(source: Source, budget: u32, at: u32, lexemes: &'a [Lexeme]) -> Read<'a, Built>
    ensures is { Gives (λ read. (read.0, read.1.now)) result (minus_at source.end (within source.end budget) at lexemes.now) }
    ensures shorter { IfOk result (λ read. length read.1.now ≤ length lexemes.now) }
{
    let inside = opened(budget, at)?;
    let (inner, rest) = level_at(source, inside, 0, lexemes)?;
    Ok((negate(source.alloc, at, inner)?, rest))
}

/// What stands behind a plus sign, which is kept as parentheses.
#[cycle(reader)]
#[tactic(auto, unfolding(crate::specs::Reading::plus_at))]
fn plus_at<'a>(source: Source, budget: u32, at: u32, lexemes: &'a [Lexeme]) -> Read<'a, Built>
    ensures is { Gives (λ read. (read.0, read.1.now)) result (plus_at source.end (within source.end budget) at lexemes.now) }
    ensures shorter { IfOk result (λ read. length read.1.now ≤ length lexemes.now) }
{
    let inside = opened(budget, at)?;
    let (shown, rest) = level_at(source, inside, 0, lexemes)?;
    Ok((paren(source.alloc, at, shown)?, rest))
}

#[cycle(reader)]
fn unary_at<'a>(source: Source, budget: u32, lexemes: &'a [Lexeme]) -> Read<'a, Built>
    ensures is { Gives (λ read. (read.0, read.1.now)) result (unary_at source.end (within source.end budget) lexemes.now) }
    ensures shorter { IfOk result (λ read. length read.1.now ≤ length lexemes.now) }
{
    let [lexeme, ..] = lexemes else {
        return Err(refused_at(source.end, lexemes));
    };
    let rest = lexemes.split_at(1).1;
    match &lexeme.kind {
        LexemeKind::Sign(Sign::Minus) => minus_at(source, budget, lexeme.at, rest),
        LexemeKind::Sign(Sign::Plus) => plus_at(source, budget, lexeme.at, rest),
        _ => power_at(source, budget, lexeme, rest),
    }
}

/// The right side of an operator of a level, from behind it.
#[cycle(reader)]
#[tactic(auto, unfolding(crate::specs::Reading::side_at))]
fn side_at<'a>(
    source: Source,
    budget: u32,
    level: u32,
    op: BinaryOp,
    left: Built,
    lexemes: &'a [Lexeme],
) -> Result<(bool, Built, &'a [Lexeme]), LexFault>
    requires { (0 < level) × (level ≤ 5) }
    ensures is { Gives (λ next. (next.0, next.1, next.2.now)) result (side_at source.end op (level_at source.end (within source.end budget) (level - 1)) left lexemes.now) }
    ensures shorter { IfOk result (λ next. length next.2.now ≤ length lexemes.now) }
{
    let (matching, behind) = matching_at(source.alloc, op, source.end, lexemes)?;
    let (right, rest) = level_at(source, budget, level - 1, behind)?;
    Ok((true, binary(source.alloc, op, matching, left, right)?, rest))
}

#[cycle(reader)]
fn chain_turn<'a>(
    source: Source,
    budget: u32,
    level: u32,
    left: Built,
    lexemes: &'a [Lexeme],
) -> Result<(bool, Built, &'a [Lexeme]), LexFault>
    requires { (0 < level) × (level ≤ 5) }
    ensures is { Gives (λ next. (next.0, next.1, next.2.now)) result (chain_turn source.end level (level_at source.end (within source.end budget) (level - 1)) left lexemes.now) }
    ensures shorter { IfOk result (λ next. (length next.2.now ≤ length lexemes.now) × (IsTrue next.0 → length next.2.now < length lexemes.now)) }
{
    match op_at(level, lexemes) {
        None => Ok((false, left, lexemes)),
        Some(op) => side_at(source, budget, level, op, left, lexemes.split_at(1).1),
    }
}

/// An expression whose operators are at most of this level: 0 is an operand with its signs and powers.
#[cycle(reader)]
pub fn level_at<'a>(
    source: Source,
    budget: u32,
    level: u32,
    lexemes: &'a [Lexeme],
) -> Read<'a, Built>
    requires { level ≤ 5 }
    ensures is { Gives (λ read. (read.0, read.1.now)) result (level_at source.end (within source.end budget) level lexemes.now) }
    ensures shorter { IfOk result (λ read. length read.1.now ≤ length lexemes.now) }
{
    if level == 0 {
        return unary_at(source, budget, lexemes);
    }
    let (mut left, mut rest) = level_at(source, budget, level - 1, lexemes)?;
    loop {
        let (more, next, behind) = chain_turn(source, budget, level, left, rest)?;
        if !more {
            return Ok((next, behind));
        }
        left = next;
        rest = behind;
    }
}
