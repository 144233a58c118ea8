//! The lines of a file, parted at line feeds.
ghost use Rattle.script_read.specs.Lines.{broken_line, is_line_feed, lines_of};
ghost use Rattle.script_read.specs.Views.{numbered};
ghost use Rattle.std.specs.List.{slice_split};
ghost use Rattle.std.specs.Prelude.{◌≡◌, [], ◌∷◌, ◌≤◌, ◌<◌, ◌^◌, length, map, position, count_by, IfOk, IfSome, MatchOption};

use crate::line::{Line, said_by};
use std::alloc::{AllocError, Global};
use std::str;

fn line_end(text: &[u8]) -> Option<usize>
    ensures place { result ≡ position is_line_feed text.now }
    ensures within { IfSome result (λ end. end < length text.now) }
{
    text.iter().position(|byte| *byte == b'\n')
}

/// The text up to the first line feed, and the text behind that, if there is one.
fn cut_line(text: &[u8]) -> (&[u8], Option<&[u8]>)
    ensures shorter { length result.0.now ≤ length text.now }
    ensures parted { MatchOption result.1
        (slice_split is_line_feed text.now ≡ result.0.now ∷ [])
        (λ rest. (slice_split is_line_feed text.now ≡ result.0.now ∷ slice_split is_line_feed rest.now)
        × (length rest.now < length text.now)) }
{
    match line_end(text) {
        Some(end) => (text.split_at(end).0, Some(text.split_at(end + 1).1)),
        None => (text, None),
    }
}

/// The lines of a file of fewer than 2^31 bytes. The only error is want of memory.
pub fn lines_in<'a>(alloc: Global, bytes: &'a [u8]) -> Result<Vec<Line<'a>>, AllocError>
    requires { length bytes.now < 2 ^ 31 }
    ensures { IfOk result (λ lines. map numbered lines.items ≡ lines_of bytes.now) }
{
    let mut lines = Vec::new(alloc);
    let mut left = Some(bytes);
    let mut number = 1;
    while let Some(text) = left {
        let (line, rest) = cut_line(text);
        lines.push(Line {
            number,
            text: said_by(line),
        })?;
        left = rest;
        number += 1;
    }
    Ok(lines)
}

/// The line with the first byte that breaks the encoding UTF-8, counted from 1, if there is one.
pub fn broken_line(bytes: &[u8]) -> Option<u32>
    requires { length bytes.now < 2 ^ 31 }
    ensures { result ≡ broken_line bytes.now }
{
    match str::from_utf8(bytes) {
        Ok(_) => None,
        Err(fault) => Some(feeds_in(bytes.split_at(fault.valid_up_to()).0) + 1),
    }
}

/// How many line feeds a text has.
fn feeds_in(text: &[u8]) -> u32
    requires { length text.now < 2 ^ 31 }
    ensures count { result ≡ count_by is_line_feed text.now }
    ensures few { result ≤ length text.now }
{
    text.iter().filter(|byte| **byte == b'\n').count() as u32
}
