//! Durations, ranges, offsets and `@` times.
ghost use Rattle.frac_text.specs.Times.{exact_quotient, milliseconds_of, time_limit};
ghost use Rattle.promql_parts.specs.Reads.{Gives};
ghost use Rattle.promql_parts.specs.Spans.{amount_at, amount_kind, brackets_at, called_at, instant_at, length_at, ms, offset_at, positive, preprocessor, preprocessor_at, range_behind, signed_at, step_at, unsigned, up_to, when_at};
ghost use Rattle.std.specs.Prelude.{◌≡◌, ◌<◌, ◌≤◌, length, unsigned_abs, IfOk, IsOk, OnSome};
ghost use Rattle.ticks.specs.Durations.{hundred_years};

use crate::lexeme::{Lexeme, LexemeKind, Sign};
use crate::reads::{Read, after, begins, refused, refused_at};
use promql_ast::{Fixed, QueryRefusal};
use promql_lex::{LexFault, Word};
use ticks::Ms;
use xfrac::laws::is_number;
use xfrac::{XFrac, parts};

/// The longest duration, 100 years of 365 days in milliseconds.
const HUNDRED_YEARS: u128 = 3_153_600_000_000;

/// The latest time that a number of seconds behind `@` may stand for, in milliseconds: 10^14.
const TIME_LIMIT: u128 = 100_000_000_000_000;

/// What stands in brackets behind an expression: the range of a range selector, or the range and the step of a subquery.
#[derive(Clone, Copy, Debug, PartialEq, Eq)]
pub enum Brackets {
    Range(Ms),
    Steps(Ms, Ms),
}

fn exact_quotient(m: u128, d: u128) -> Option<u128>
    requires { 0 < d }
    ensures { result ≡ exact_quotient m d }
{
    if m % d == 0 { Some(m / d) } else { None }
}

/// The milliseconds in a number of seconds, where they are a whole number.
fn milliseconds_of(seconds: &XFrac) -> Option<u128>
    ensures { result ≡ milliseconds_of seconds.now }
{
    is_number(seconds);
    match seconds {
        XFrac::Fin(fraction) => {
            let (n, d) = parts(fraction);
            exact_quotient(n.unsigned_abs() * 1000, d.unsigned_abs())
        }
        _ => None,
    }
}

fn up_to(at: u32, most: u128, n: u128) -> Result<u64, LexFault>
    requires { most ≤ time_limit }
    ensures is { Gives (λ n. n) result (up_to at most n) }
    ensures always { IsOk (up_to at most n) → IsOk result }
    ensures within { IfOk result (λ n. n ≤ most) }
{
    if most < n {
        Err(LexFault::Refused(QueryRefusal::DurationRange(at)))
    } else {
        Ok(n as u64)
    }
}

/// The milliseconds of a duration, or of a number of seconds, which are at most `most`.
fn amount_of(most: u128, lexeme: &Lexeme) -> Result<u64, LexFault>
    requires { (hundred_years ≤ most) × (most ≤ time_limit) }
    ensures is { Gives (λ n. n) result (amount_kind most lexeme.now lexeme.now.kind) }
    ensures always { IsOk (amount_kind most lexeme.now lexeme.now.kind) → IsOk result }
    ensures within { IfOk result (λ n. n ≤ most) }
{
    match &lexeme.kind {
        LexemeKind::Duration(duration) => up_to(
            lexeme.at,
            HUNDRED_YEARS,
            u128::from(duration.0.unsigned_abs()),
        ),
        LexemeKind::Number(value) => match milliseconds_of(value) {
            None => Err(LexFault::Refused(QueryRefusal::BadDuration(lexeme.at))),
            Some(n) => up_to(lexeme.at, most, n),
        },
        _ => Err(refused(lexeme)),
    }
}

fn amount_at<'a>(most: u128, end: u32, lexemes: &'a [Lexeme]) -> Read<'a, u64>
    requires { (hundred_years ≤ most) × (most ≤ time_limit) }
    ensures is { Gives (λ read. (read.0, read.1.now)) result (amount_at most end lexemes.now) }
    ensures always { IsOk (amount_at most end lexemes.now) → IsOk result }
    ensures within { IfOk result (λ read. read.0 ≤ most) }
    ensures shorter { IfOk result (λ read. length read.1.now < length lexemes.now) }
{
    match lexemes {
        [] => Err(refused_at(end, lexemes)),
        [lexeme, ..] => Ok((amount_of(most, lexeme)?, lexemes.split_at(1).1)),
    }
}

fn positive(at: u32, n: u64) -> Result<Ms, LexFault>
    requires { n ≤ hundred_years }
    ensures is { Gives (λ length. length) result (positive at n) }
    ensures always { IsOk (positive at n) → IsOk result }
{
    if n == 0 {
        Err(LexFault::Refused(QueryRefusal::BadDuration(at)))
    } else {
        Ok(Ms(n as i64))
    }
}

/// A range or a step, which is positive.
fn length_at<'a>(end: u32, lexemes: &'a [Lexeme]) -> Read<'a, Ms>
    ensures is { Gives (λ read. (read.0, read.1.now)) result (length_at end lexemes.now) }
    ensures always { IsOk (length_at end lexemes.now) → IsOk result }
    ensures shorter { IfOk result (λ read. length read.1.now < length lexemes.now) }
{
    match lexemes {
        [] => Err(refused_at(end, lexemes)),
        [lexeme, ..] => {
            let n = amount_of(HUNDRED_YEARS, lexeme)?;
            Ok((positive(lexeme.at, n)?, lexemes.split_at(1).1))
        }
    }
}

/// The step of a subquery, from behind its colon.
#[tactic(auto, unfolding(crate::specs::Spans::step_at))]
fn step_at<'a>(end: u32, range: Ms, lexemes: &'a [Lexeme]) -> Read<'a, Brackets>
    ensures is { Gives (λ read. (read.0, read.1.now)) result (step_at end range lexemes.now) }
    ensures always { IsOk (step_at end range lexemes.now) → IsOk result }
    ensures shorter { IfOk result (λ read. length read.1.now < length lexemes.now) }
{
    if begins(Sign::RightBracket, lexemes) {
        return Ok((Brackets::Steps(range, Ms(60_000)), lexemes.split_at(1).1));
    }
    let (step, behind) = length_at(end, lexemes)?;
    let rest = after(end, Sign::RightBracket, behind)?;
    Ok((Brackets::Steps(range, step), rest))
}

fn range_behind<'a>(plain: bool, end: u32, range: Ms, lexemes: &'a [Lexeme]) -> Read<'a, Brackets>
    ensures is { Gives (λ read. (read.0, read.1.now)) result (range_behind plain end range lexemes.now) }
    ensures always { IsOk (range_behind plain end range lexemes.now) → IsOk result }
    ensures shorter { IfOk result (λ read. length read.1.now < length lexemes.now) }
{
    if plain && begins(Sign::RightBracket, lexemes) {
        return Ok((Brackets::Range(range), lexemes.split_at(1).1));
    }
    let rest = after(end, Sign::Colon, lexemes)?;
    step_at(end, range, rest)
}

/// The brackets of a range selector, where `plain` tells that one may stand there, or of a subquery, from behind the
/// opening one. Memory may run out over a refusal alone.
#[tactic(auto, unfolding(crate::specs::Spans::brackets_at))]
pub fn brackets_at<'a>(plain: bool, end: u32, lexemes: &'a [Lexeme]) -> Read<'a, Brackets>
    ensures is { Gives (λ read. (read.0, read.1.now)) result (brackets_at plain end lexemes.now) }
    ensures always { IsOk (brackets_at plain end lexemes.now) → IsOk result }
    ensures shorter { IfOk result (λ read. length read.1.now < length lexemes.now) }
{
    let (range, rest) = length_at(end, lexemes)?;
    range_behind(plain, end, range, rest)
}

/// What stands behind a sign, if there is one.
fn unsigned(lexemes: &[Lexeme]) -> &[Lexeme]
    ensures is { result.now ≡ unsigned lexemes.now }
    ensures shorter { length result.now ≤ length lexemes.now }
{
    if begins(Sign::Minus, lexemes) {
        lexemes.split_at(1).1
    } else if begins(Sign::Plus, lexemes) {
        lexemes.split_at(1).1
    } else {
        lexemes
    }
}

fn turned(negative: bool, n: u64) -> Ms
    requires { n ≤ time_limit }
    ensures { result ≡ ms negative n }
{
    let time = n as i64;
    Ms(if negative { -time } else { time })
}

#[tactic(auto, unfolding(crate::specs::Spans::signed_at))]
fn signed_at<'a>(most: u128, end: u32, lexemes: &'a [Lexeme]) -> Read<'a, Ms>
    requires { (hundred_years ≤ most) × (most ≤ time_limit) }
    ensures is { Gives (λ read. (read.0, read.1.now)) result (signed_at most end lexemes.now) }
    ensures always { IsOk (signed_at most end lexemes.now) → IsOk result }
    ensures shorter { IfOk result (λ read. length read.1.now < length lexemes.now) }
{
    let (n, rest) = amount_at(most, end, unsigned(lexemes))?;
    Ok((turned(begins(Sign::Minus, lexemes), n), rest))
}

/// The offset behind `offset`: a duration with an optional sign. Memory may run out over a refusal alone.
pub fn offset_at<'a>(end: u32, lexemes: &'a [Lexeme]) -> Read<'a, Ms>
    ensures is { Gives (λ read. (read.0, read.1.now)) result (offset_at end lexemes.now) }
    ensures always { IsOk (offset_at end lexemes.now) → IsOk result }
    ensures shorter { IfOk result (λ read. length read.1.now < length lexemes.now) }
{
    signed_at(HUNDRED_YEARS, end, lexemes)
}

fn preprocessor(kind: &LexemeKind) -> Option<Fixed>
    ensures { result ≡ preprocessor kind.now }
{
    match kind {
        LexemeKind::Word(Word::Start, _) => Some(Fixed::Start),
        LexemeKind::Word(Word::End, _) => Some(Fixed::End),
        _ => None,
    }
}

fn preprocessor_at(lexemes: &[Lexeme]) -> Option<Fixed>
    ensures is { result ≡ preprocessor_at lexemes.now }
    ensures some { OnSome result (0 < length lexemes.now) }
{
    match lexemes {
        [] => None,
        [lexeme, ..] => preprocessor(&lexeme.kind),
    }
}

#[tactic(auto, unfolding(crate::specs::Spans::called_at))]
fn called_at<'a>(end: u32, time: Fixed, lexemes: &'a [Lexeme]) -> Read<'a, Fixed>
    ensures is { Gives (λ read. (read.0, read.1.now)) result (called_at end time lexemes.now) }
    ensures always { IsOk (called_at end time lexemes.now) → IsOk result }
    ensures shorter { IfOk result (λ read. length read.1.now < length lexemes.now) }
{
    let inside = after(end, Sign::LeftParen, lexemes)?;
    let rest = after(end, Sign::RightParen, inside)?;
    Ok((time, rest))
}

#[tactic(auto, unfolding(crate::specs::Spans::instant_at))]
fn instant_at<'a>(end: u32, lexemes: &'a [Lexeme]) -> Read<'a, Fixed>
    ensures is { Gives (λ read. (read.0, read.1.now)) result (instant_at end lexemes.now) }
    ensures always { IsOk (instant_at end lexemes.now) → IsOk result }
    ensures shorter { IfOk result (λ read. length read.1.now < length lexemes.now) }
{
    let (time, rest) = signed_at(TIME_LIMIT, end, lexemes)?;
    Ok((Fixed::At(time), rest))
}

/// The time behind `@`. Memory may run out over a refusal alone.
pub fn when_at<'a>(end: u32, lexemes: &'a [Lexeme]) -> Read<'a, Fixed>
    ensures is { Gives (λ read. (read.0, read.1.now)) result (when_at end lexemes.now) }
    ensures always { IsOk (when_at end lexemes.now) → IsOk result }
    ensures shorter { IfOk result (λ read. length read.1.now < length lexemes.now) }
{
    match preprocessor_at(lexemes) {
        None => instant_at(end, lexemes),
        Some(time) => called_at(end, time, lexemes.split_at(1).1),
    }
}
