//! A line of a script: what it says, and its words.
ghost use Rattle.script_read.specs.Lines.{behind_word, first_word, from_blank, from_text, is_blank, is_comment, is_edge, said_by, trimmed, words_behind, words_of};
ghost use Rattle.std.specs.List.{prefix_len};
ghost use Rattle.std.specs.Prelude.{◌≡◌, ◌≤◌, ◌<◌, ◌^◌, length, map, not, reverse, IfOk};

use std::alloc::{AllocError, Global};

/// A line of a file: its number, counted from 1, and what it says, without blanks and carriage returns at the ends. A
/// comment says nothing.
#[derive(Clone, Copy)]
pub struct Line<'a> {
    pub number: u32,
    pub text: &'a [u8],
    ghost short: { length text.now < 2 ^ 32 },
}

const fn is_blank(byte: u8) -> bool
    ensures { result ≡ is_blank byte }
{
    byte == b' ' || byte == b'\t'
}

const fn is_edge(byte: u8) -> bool
    ensures { result ≡ is_edge byte }
{
    is_blank(byte) || byte == b'\r'
}

/// The text from its first byte on that is no blank.
pub fn skip_blanks(text: &[u8]) -> &[u8]
    ensures is { result.now ≡ from_blank text.now }
    ensures shorter { length result.now ≤ length text.now }
{
    let mut left = text;
    while let [first, rest @ ..] = left
        && is_blank(*first)
    {
        left = rest;
    }
    left
}

/// The text from its first byte on that is no blank and no carriage return.
fn trim_front(text: &[u8]) -> &[u8]
    ensures is { result.now ≡ from_text text.now }
    ensures shorter { length result.now ≤ length text.now }
{
    let mut left = text;
    while let [first, rest @ ..] = left
        && is_edge(*first)
    {
        left = rest;
    }
    left
}

fn trim_back(text: &[u8]) -> &[u8]
    ensures is { reverse result.now ≡ from_text (reverse text.now) }
    ensures shorter { length result.now ≤ length text.now }
{
    let mut left = text;
    while let [rest @ .., last] = left
        && is_edge(*last)
    {
        left = rest;
    }
    left
}

/// The text without the blanks and carriage returns at both ends.
fn trim(text: &[u8]) -> &[u8]
    ensures is { result.now ≡ trimmed text.now }
    ensures shorter { length result.now ≤ length text.now }
{
    trim_back(trim_front(text))
}

fn is_comment(text: &[u8]) -> bool
    ensures { result ≡ is_comment text.now }
{
    match text {
        [] => false,
        [first, ..] => *first == b'#',
    }
}

/// What a line says: nothing, where it is a comment.
pub fn said_by(text: &[u8]) -> &[u8]
    ensures is { result.now ≡ said_by text.now }
    ensures shorter { length result.now ≤ length text.now }
{
    let said = trim(text);
    if is_comment(said) { &[] } else { said }
}

fn word_len(text: &[u8]) -> usize
    ensures len { result ≡ prefix_len (λ byte. not (is_blank byte)) text.now }
    ensures within { result ≤ length text.now }
{
    text.iter().take_while(|byte| !is_blank(**byte)).count()
}

/// The first word of a line, and what stands behind it from the next word on.
pub fn cut_word(text: &[u8]) -> (&[u8], &[u8])
    ensures word { result.0.now ≡ first_word text.now }
    ensures behind { result.1.now ≡ behind_word text.now }
{
    let (word, behind) = text.split_at(word_len(text));
    (word, skip_blanks(behind))
}

/// The words of a line.
pub fn words_in<'a>(alloc: Global, text: &'a [u8]) -> Result<Vec<&'a [u8]>, AllocError>
    ensures { IfOk result (λ words. map (λ word. word.now) words.items ≡ words_of text.now) }
{
    text.split(|byte| is_blank(*byte))
        .filter(|word| !word.is_empty())
        .collect(alloc)
}

/// The words behind a series: a blank parts them from it, and else there are none.
pub fn words_behind<'a>(alloc: Global, text: &'a [u8]) -> Result<Vec<&'a [u8]>, AllocError>
    ensures { IfOk result (λ words. map (λ word. word.now) words.items ≡ words_behind text.now) }
{
    match text {
        [] => Ok(Vec::new(alloc)),
        [first, rest @ ..] => {
            if is_blank(*first) {
                words_in(alloc, rest)
            } else {
                Ok(Vec::new(alloc))
            }
        }
    }
}
