//! Lexemes out of tokens.
ghost use Rattle.promql_parts.specs.Lexemes.{kind_of, lexeme_of, name_kind, sign_kind, sign_of, spelling_in, word_kind};
ghost use Rattle.promql_lex.specs.Words.{word_of};
ghost use Rattle.std.specs.Map.{lookup};
ghost use Rattle.std.specs.Prelude.{◌≡◌, bytes_eq, false, true, IfOk, MatchOption};
ghost use Rattle.std.specs.Str.{is_utf8};

use crate::lexeme::{Lexeme, LexemeKind, Sign};
use holders::Text;
use promql_ast::QueryRefusal;
use promql_lex::{Token, TokenKind, word_of};
use std::alloc::{AllocError, Global};
use std::str;

/// Each sign beside its spelling.
const SIGNS: [(&str, Sign); 24] = [
    ("(", Sign::LeftParen),
    (")", Sign::RightParen),
    ("{", Sign::LeftBrace),
    ("}", Sign::RightBrace),
    ("[", Sign::LeftBracket),
    ("]", Sign::RightBracket),
    (",", Sign::Comma),
    (":", Sign::Colon),
    ("+", Sign::Plus),
    ("-", Sign::Minus),
    ("*", Sign::Star),
    ("/", Sign::Slash),
    ("%", Sign::Percent),
    ("^", Sign::Caret),
    ("=", Sign::Equal),
    ("==", Sign::EqualTwice),
    ("!=", Sign::Unequal),
    ("=~", Sign::Matches),
    ("!~", Sign::Unmatched),
    ("<", Sign::Less),
    ("<=", Sign::LessEqual),
    (">", Sign::Greater),
    (">=", Sign::GreaterEqual),
    ("@", Sign::AtSign),
];

fn sign_in(table: &[(&str, Sign)], spelling: &[u8]) -> Option<Sign>
    ensures { result ≡ lookup (λ other. bytes_eq other.now spelling.now) table.now }
{
    for (other, sign) in table {
        if other.as_bytes() == spelling {
            return Some(*sign);
        }
    }
    None
}

fn sign_of(spelling: &[u8]) -> Option<Sign>
    ensures { result ≡ sign_of spelling.now }
{
    sign_in(&SIGNS, spelling)
}

/// The bytes of a token.
fn spelling_in(text: &[u8], at: u32, end: u32) -> &[u8]
    ensures { result.now ≡ spelling_in text.now at end }
{
    let rest = text.split_at(text.len().min(at as usize)).1;
    rest.split_at(rest.len().min(end.saturating_sub(at) as usize))
        .0
}

/// The bytes as a text, if they are one.
fn text_in(spelling: &[u8]) -> Option<&str>
    ensures { MatchOption result (is_utf8 spelling.now ≡ false) (λ text. (is_utf8 spelling.now ≡ true) × (text.now ≡ spelling.now)) }
{
    match str::from_utf8(spelling) {
        Ok(text) => Some(text),
        Err(_) => None,
    }
}

fn name_kind(alloc: Global, at: u32, spelling: &[u8]) -> Result<LexemeKind, AllocError>
    ensures { IfOk result (λ kind. kind ≡ name_kind at spelling.now) }
{
    match text_in(spelling) {
        Some(name) => Ok(LexemeKind::Name(Text::of(alloc, name)?)),
        None => Ok(LexemeKind::Bad(QueryRefusal::BadToken(at))),
    }
}

fn word_kind(alloc: Global, at: u32, spelling: &[u8]) -> Result<LexemeKind, AllocError>
    ensures { IfOk result (λ kind. kind ≡ word_kind at spelling.now (word_of spelling.now)) }
{
    match word_of(spelling) {
        None => Ok(LexemeKind::Bad(QueryRefusal::BadToken(at))),
        Some(word) => match text_in(spelling) {
            Some(name) => Ok(LexemeKind::Word(word, Text::of(alloc, name)?)),
            None => Ok(LexemeKind::Bad(QueryRefusal::BadToken(at))),
        },
    }
}

fn sign_kind(at: u32, spelling: &[u8]) -> LexemeKind
    ensures { result ≡ sign_kind at (sign_of spelling.now) }
{
    match sign_of(spelling) {
        None => LexemeKind::Bad(QueryRefusal::BadToken(at)),
        Some(sign) => LexemeKind::Sign(sign),
    }
}

fn kind_of(
    alloc: Global,
    at: u32,
    spelling: &[u8],
    kind: &TokenKind,
) -> Result<LexemeKind, AllocError>
    ensures { IfOk result (λ lexeme. lexeme ≡ kind_of at spelling.now kind.now) }
{
    match kind {
        TokenKind::Name => name_kind(alloc, at, spelling),
        TokenKind::Word => word_kind(alloc, at, spelling),
        TokenKind::Sign => Ok(sign_kind(at, spelling)),
        TokenKind::Number(value) => Ok(LexemeKind::Number(*value)),
        TokenKind::Duration(duration) => Ok(LexemeKind::Duration(*duration)),
        TokenKind::Quoted(text) => Ok(LexemeKind::Quoted(text.copy()?)),
        TokenKind::Bad(refusal) => Ok(LexemeKind::Bad(refusal.copy()?)),
    }
}

/// The lexeme of a token. The only error is want of memory.
pub fn lexeme_of(alloc: Global, text: &[u8], token: &Token) -> Result<Lexeme, AllocError>
    ensures { IfOk result (λ lexeme. lexeme ≡ lexeme_of text.now token.now) }
{
    let at = token.at;
    let kind = kind_of(alloc, at, spelling_in(text, at, token.end), &token.kind)?;
    Ok(Lexeme { at, kind })
}
