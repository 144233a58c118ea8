//! Strings.
ghost use Rattle.promql_lex.specs.Pieces.{decoded_kind, open_piece, raw_at, string_at, text_kind};
ghost use Rattle.promql_lex.specs.Quoted.{body_len, decoded, raw_len};
ghost use Rattle.std.specs.Prelude.{◌≡◌, ◌≤◌, ◌<◌, ◌+◌, ◌++◌, ◌^◌, encode_utf8, false, length, IfOk, IfSome, OnOk};

use crate::escape::escape_at;
use crate::piece::Piece;
use crate::token::TokenKind;
use holders::{Items, Text};
use promql_ast::QueryRefusal;
use std::alloc::{AllocError, Global};
use std::str;

/// How many bytes stand before the closing quote, if it stands on this line.
fn body_len(quote: u8, text: &[u8]) -> Option<usize>
    ensures is { result ≡ body_len false quote text.now }
    ensures within { IfSome result (λ size. size < length text.now) }
{
    let mut escaped = false;
    for (i, byte) in text.iter().enumerate() {
        if *byte == b'\n' {
            return None;
        }
        if !escaped && *byte == quote {
            return Some(i);
        }
        escaped = !escaped && *byte == b'\\';
    }
    None
}

/// How many bytes stand before the next backquote.
fn raw_len(text: &[u8]) -> Option<usize>
    ensures is { result ≡ raw_len text.now }
    ensures within { IfSome result (λ size. size < length text.now) }
{
    for (i, byte) in text.iter().enumerate() {
        if *byte == b'`' {
            return Some(i);
        }
    }
    None
}

fn push_all(out: &mut Items<u8>, bytes: &[u8]) -> Result<(), AllocError>
    ensures { OnOk result (out.new ≡ out.old ++ bytes.now) }
{
    for byte in bytes {
        out.push(*byte)?;
    }
    Ok(())
}

fn push_character(out: &mut Items<u8>, character: char) -> Result<(), AllocError>
    ensures { OnOk result (out.new ≡ out.old ++ encode_utf8 character) }
{
    let mut buffer = [0; 4];
    push_all(out, character.encode_utf8(&mut buffer).as_bytes())
}

/// What a body stands for, or the place of its first bad escape. The only error is want of memory.
fn decoded(
    alloc: Global,
    quote: u8,
    at: u32,
    body: &[u8],
) -> Result<Result<Items<u8>, u32>, AllocError>
    requires { at + length body.now < 2 ^ 32 }
    ensures { IfOk result (λ read. read ≡ decoded 0 quote at body.now) }
{
    let mut out = Items::new(alloc);
    let mut place = at;
    let mut rest = body;
    while let [byte, ..] = rest {
        let after = rest.split_at(1).1;
        if *byte == b'\\' {
            match escape_at(quote, after) {
                None => return Ok(Err(place)),
                Some(e) => {
                    push_character(&mut out, e.stands_for)?;
                    place = place + 1 + e.size as u32;
                    rest = after.split_at(e.size).1;
                }
            }
        } else {
            out.push(*byte)?;
            place += 1;
            rest = after;
        }
    }
    Ok(Ok(out))
}

fn text_kind(alloc: Global, at: u32, bytes: &[u8]) -> Result<TokenKind, AllocError>
    ensures { IfOk result (λ kind. kind ≡ text_kind at bytes.now) }
{
    match str::from_utf8(bytes) {
        Ok(text) => Ok(TokenKind::Quoted(Text::of(alloc, text)?)),
        Err(_) => Ok(TokenKind::Bad(QueryRefusal::BadToken(at))),
    }
}

fn decoded_kind(
    alloc: Global,
    at: u32,
    read: Result<Items<u8>, u32>,
) -> Result<TokenKind, AllocError>
    ensures { IfOk result (λ kind. kind ≡ decoded_kind at read) }
{
    match read {
        Err(place) => Ok(TokenKind::Bad(QueryRefusal::BadEscape(place))),
        Ok(bytes) => text_kind(alloc, at, bytes.as_slice()),
    }
}

/// A string without its end, from behind its opening quote.
fn open_piece(at: u32, text: &[u8]) -> Piece
    ensures { result ≡ open_piece at text.now }
{
    Piece {
        size: 1 + text.len(),
        kind: Some(TokenKind::Bad(QueryRefusal::Unterminated(at))),
    }
}

/// A string in quotes, from behind its opening quote.
pub fn string_at(alloc: Global, quote: u8, at: u32, text: &[u8]) -> Result<Piece, AllocError>
    requires { at + 1 + length text.now < 2 ^ 32 }
    ensures is { IfOk result (λ piece. piece ≡ string_at quote at text.now) }
    ensures within { IfOk result (λ piece. (0 < piece.size) × (piece.size ≤ 1 + length text.now)) }
{
    match body_len(quote, text) {
        None => Ok(open_piece(at, text)),
        Some(size) => {
            let read = decoded(alloc, quote, at + 1, text.split_at(size).0)?;
            Ok(Piece {
                size: size + 2,
                kind: Some(decoded_kind(alloc, at, read)?),
            })
        }
    }
}

/// A raw string, from behind its opening backquote.
pub fn raw_at(alloc: Global, at: u32, text: &[u8]) -> Result<Piece, AllocError>
    ensures is { IfOk result (λ piece. piece ≡ raw_at at text.now) }
    ensures within { IfOk result (λ piece. (0 < piece.size) × (piece.size ≤ 1 + length text.now)) }
{
    match raw_len(text) {
        None => Ok(open_piece(at, text)),
        Some(size) => Ok(Piece {
            size: size + 2,
            kind: Some(text_kind(alloc, at, text.split_at(size).0)?),
        }),
    }
}
