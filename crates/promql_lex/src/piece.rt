//! What stands at the front of a text.
ghost use Rattle.promql_lex.specs.Gaps.{begins_comment, is_blank, is_comment_byte};
ghost use Rattle.promql_lex.specs.Pieces.{name_at, number_at, piece_at, run_kind, sign_at};
ghost use Rattle.std.specs.List.{prefix_len};
ghost use Rattle.std.specs.Prelude.{◌≡◌, ◌≤◌, ◌<◌, ◌+◌, ◌^◌, length, slice_index, drop, IfOk};

use crate::name::{name_kind, name_len, starts_name};
use crate::number::{begins_number, number_kind, run_len};
use crate::sign::{begins_double, character_len, is_single};
use crate::string::{raw_at, string_at};
use crate::token::TokenKind;
use promql_ast::QueryRefusal;
use std::alloc::{AllocError, Global};
use std::str;

/// A token, or blanks or a comment, by the number of its bytes.
#[derive(Drop)]
pub struct Piece {
    pub size: usize,
    pub kind: Option<TokenKind>,
}

fn is_blank(byte: u8) -> bool
    ensures { result ≡ is_blank byte }
{
    byte == b' ' || byte == b'\t' || byte == b'\r' || byte == b'\n'
}

fn comment_len(text: &[u8]) -> usize
    ensures is { result ≡ prefix_len is_comment_byte text.now }
    ensures within { result ≤ length text.now }
{
    text.iter().take_while(|byte| **byte != b'\n').count()
}

/// What a run of digits is. It is a text, since all its bytes are below 128.
fn run_kind(at: u32, run: &[u8]) -> TokenKind
    ensures { result ≡ run_kind at run.now }
{
    match str::from_utf8(run) {
        Ok(text) => number_kind(at, text),
        Err(_) => TokenKind::Bad(QueryRefusal::BadNumber(at)),
    }
}

fn number_at(at: u32, text: &[u8]) -> Piece
    ensures is { result ≡ number_at at text.now }
    ensures within { result.size ≤ length text.now }
{
    let size = run_len(text);
    Piece {
        size,
        kind: Some(run_kind(at, text.split_at(size).0)),
    }
}

fn name_at(inside: bool, text: &[u8]) -> Piece
    ensures is { result ≡ name_at inside text.now }
    ensures within { result.size ≤ length text.now }
{
    let size = name_len(inside, text);
    Piece {
        size,
        kind: Some(name_kind(text.split_at(size).0)),
    }
}

fn sign_at(at: u32, byte: u8, bytes: &[u8]) -> Piece
    ensures is { result ≡ sign_at at byte bytes.now }
    ensures within { (0 < result.size) × (result.size ≤ 1 + length bytes.now) }
{
    if begins_double(byte, bytes) {
        Piece {
            size: 2,
            kind: Some(TokenKind::Sign),
        }
    } else if is_single(byte) {
        Piece {
            size: 1,
            kind: Some(TokenKind::Sign),
        }
    } else {
        Piece {
            size: character_len(bytes),
            kind: Some(TokenKind::Bad(QueryRefusal::BadToken(at))),
        }
    }
}

/// The piece at the front of a text that isn't empty, at this place. The only error is want of memory.
pub fn piece_at(alloc: Global, inside: bool, at: u32, text: &[u8]) -> Result<Piece, AllocError>
    requires room { at + length text.now < 2 ^ 32 }
    requires first { 0 < length text.now }
    ensures is { IfOk result (λ piece. piece ≡ piece_at inside at (slice_index text.now 0) (drop 1 text.now)) }
    ensures within { IfOk result (λ piece. (0 < piece.size) × (piece.size ≤ length text.now)) }
{
    let byte = text[0];
    let bytes = text.split_at(1).1;
    if is_blank(byte) {
        Ok(Piece {
            size: 1,
            kind: None,
        })
    } else if byte == b'#' {
        Ok(Piece {
            size: 1 + comment_len(bytes),
            kind: None,
        })
    } else if byte == b'"' || byte == b'\'' {
        string_at(alloc, byte, at, bytes)
    } else if byte == b'`' {
        raw_at(alloc, at, bytes)
    } else if begins_number(byte, bytes) {
        Ok(number_at(at, text))
    } else if starts_name(inside, byte) {
        Ok(name_at(inside, text))
    } else {
        Ok(sign_at(at, byte, bytes))
    }
}
