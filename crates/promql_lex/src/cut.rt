//! The tokens of a text.
ghost use Rattle.promql_lex.specs.Tokens.{inside_behind, is_bad, tokens_of, with_kind};
ghost use Rattle.promql_lex.specs.declared.token.Token.{Token};
ghost use Rattle.std.specs.Prelude.{◌≡◌, ◌<◌, ◌+◌, ◌++◌, ◌^◌, [], List, length, IfOk, if◌then◌else◌};

use crate::piece::{Piece, piece_at};
use crate::token::{Token, TokenKind};
use holders::Items;
use std::alloc::{AllocError, Global};

fn is_bad(kind: &TokenKind) -> bool
    ensures { result ≡ is_bad kind.now }
{
    match kind {
        TokenKind::Bad(_) => true,
        _ => false,
    }
}

fn inside_behind(inside: bool, byte: u8) -> bool
    ensures { result ≡ inside_behind inside byte }
{
    if byte == b'[' {
        true
    } else if byte == b']' {
        false
    } else {
        inside
    }
}

/// Puts a piece's token to the end, and tells whether more may follow.
fn put(
    out: &mut Items<Token>,
    at: u32,
    size: u32,
    kind: Option<TokenKind>,
) -> Result<bool, AllocError>
    requires { at + size < 2 ^ 32 }
    ensures { IfOk result (λ more. (rest : List Token) → out.old ++ with_kind at size kind rest ≡ out.new ++ (if more then rest else [])) }
{
    match kind {
        None => Ok(true),
        Some(kind) => {
            let bad = is_bad(&kind);
            let end = at + size;
            out.push(Token { at, end, kind })?;
            Ok(!bad)
        }
    }
}

/// The tokens of a text of fewer than 2^32 bytes. A spelling that is no token is the last one. The only error is want
/// of memory.
pub fn tokens(alloc: Global, text: &str) -> Result<Items<Token>, AllocError>
    requires { length text.now < 2 ^ 32 }
    ensures { IfOk result (λ tokens. tokens ≡ tokens_of text.now) }
{
    tokens_in(alloc, text.as_bytes())
}

fn tokens_in(alloc: Global, text: &[u8]) -> Result<Items<Token>, AllocError>
    requires { length text.now < 2 ^ 32 }
    ensures { IfOk result (λ tokens. tokens ≡ tokens_of text.now) }
{
    let mut out = Items::new(alloc);
    let mut inside = false;
    let mut at: u32 = 0;
    let mut rest = text;
    while let [first, ..] = rest {
        let Piece { size, kind } = piece_at(alloc, inside, at, rest)?;
        let more = put(&mut out, at, size as u32, kind)?;
        if !more {
            return Ok(out);
        }
        inside = inside_behind(inside, *first);
        at += size as u32;
        rest = rest.split_at(size).1;
    }
    Ok(out)
}
