//! Reading from left to right, up to the first lexeme that fits no rule.
ghost use Rattle.promql_parts.specs.Labels.{item_behind};
ghost use Rattle.promql_parts.specs.Patterned.{is_bad};
ghost use Rattle.promql_parts.specs.Reads.{Gives, IsRefusal, after, begins, refused, refused_at};
ghost use Rattle.promql_parts.specs.Signs.{is_sign, number};
ghost use Rattle.std.specs.Prelude.{◌≡◌, ◌<◌, ◌≤◌, [], false, length, IfOk, IsOk, IsTrue};

use crate::lexeme::{Lexeme, LexemeKind, Sign};
use promql_ast::QueryRefusal;
use promql_lex::LexFault;

/// What reading gives: a value and the lexemes behind it, or a fault. The only fault beside a refusal is want of memory.
pub type Read<'a, T> = Result<(T, &'a [Lexeme]), LexFault>;

fn number(sign: Sign) -> u8
    ensures { result ≡ number sign }
{
    match sign {
        Sign::LeftParen => 1,
        Sign::RightParen => 2,
        Sign::LeftBrace => 3,
        Sign::RightBrace => 4,
        Sign::LeftBracket => 5,
        Sign::RightBracket => 6,
        Sign::Comma => 7,
        Sign::Colon => 8,
        Sign::Plus => 9,
        Sign::Minus => 10,
        Sign::Star => 11,
        Sign::Slash => 12,
        Sign::Percent => 13,
        Sign::Caret => 14,
        Sign::Equal => 15,
        Sign::EqualTwice => 16,
        Sign::Unequal => 17,
        Sign::Matches => 18,
        Sign::Unmatched => 19,
        Sign::Less => 20,
        Sign::LessEqual => 21,
        Sign::Greater => 22,
        Sign::GreaterEqual => 23,
        Sign::AtSign => 24,
    }
}

/// Whether the lexeme is this sign.
pub fn is_sign(sign: Sign, kind: &LexemeKind) -> bool
    ensures { result ≡ is_sign sign kind.now }
{
    match kind {
        LexemeKind::Sign(other) => number(sign) == number(*other),
        _ => false,
    }
}

/// The refusal of a lexeme that fits no rule. Memory may run out over one with a bad spelling or pattern alone.
pub fn refused(lexeme: &Lexeme) -> LexFault
    ensures is { IsRefusal result (refused lexeme.now) }
    ensures always { is_bad lexeme.now.kind ≡ false → result ≡ LexFault.Refused (QueryRefusal.Expected lexeme.now.at) }
{
    match &lexeme.kind {
        LexemeKind::Bad(refusal) => match refusal.copy() {
            Ok(refusal) => LexFault::Refused(refusal),
            Err(_) => LexFault::Memory,
        },
        _ => LexFault::Refused(QueryRefusal::Expected(lexeme.at)),
    }
}

/// The refusal of the lexeme at the front, or of the end of the text, which takes no memory.
pub fn refused_at(end: u32, lexemes: &[Lexeme]) -> LexFault
    ensures is { IsRefusal result (refused_at end lexemes.now) }
    ensures always { lexemes.now ≡ [] → result ≡ LexFault.Refused (QueryRefusal.Expected end) }
{
    match lexemes {
        [] => LexFault::Refused(QueryRefusal::Expected(end)),
        [lexeme, ..] => refused(lexeme),
    }
}

/// Whether the sign stands at the front.
pub fn begins(sign: Sign, lexemes: &[Lexeme]) -> bool
    ensures is { result ≡ begins sign lexemes.now }
    ensures some { IsTrue result → 0 < length lexemes.now }
{
    match lexemes {
        [] => false,
        [lexeme, ..] => is_sign(sign, &lexeme.kind),
    }
}

/// What stands behind the sign. Memory may run out over a refusal alone.
pub fn after<'a>(end: u32, sign: Sign, lexemes: &'a [Lexeme]) -> Result<&'a [Lexeme], LexFault>
    ensures is { Gives (λ rest. rest.now) result (after end sign lexemes.now) }
    ensures always { IsOk (after end sign lexemes.now) → IsOk result }
    ensures shorter { IfOk result (λ rest. length rest.now < length lexemes.now) }
{
    if begins(sign, lexemes) {
        Ok(lexemes.split_at(1).1)
    } else {
        Err(refused_at(end, lexemes))
    }
}

/// Behind an item of a list: whether another one may follow, and what stands behind the comma, or the sign that closes the
/// list and what stands behind it. Memory may run out over a refusal alone.
#[tactic(auto, unfolding(crate::specs::Labels::item_behind))]
pub fn item_behind<'a>(end: u32, close: Sign, lexemes: &'a [Lexeme]) -> Read<'a, bool>
    ensures is { Gives (λ read. (read.0, read.1.now)) result (item_behind end close lexemes.now) }
    ensures always { IsOk (item_behind end close lexemes.now) → IsOk result }
    ensures shorter { IfOk result (λ read. (length read.1.now ≤ length lexemes.now) × (IsTrue read.0 → length read.1.now < length lexemes.now)) }
{
    if begins(Sign::Comma, lexemes) {
        Ok((true, lexemes.split_at(1).1))
    } else if begins(close, lexemes) {
        Ok((false, lexemes))
    } else {
        Err(refused_at(end, lexemes))
    }
}
