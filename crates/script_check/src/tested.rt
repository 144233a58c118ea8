//! Whether texts are what the lines of a script want.
ghost use Rattle.script_check.specs.Searched.{HoldsWhereMarked};
ghost use Rattle.script_check.specs.Verdicts.{AreKept, IsKept, is_bare, meets, noted_holds, silence_holds};
ghost use Rattle.match_rule.specs.Patterns.{passes_at};
ghost use Rattle.std.specs.List.{list_all, list_any};
ghost use Rattle.std.specs.Prelude.{◌≡◌, ◌<◌, ◌&&◌, Bool, false, true, length, IfOk, IsTrue, MatchOption};
ghost use Rattle.script_read.specs.declared.script.Wanted.{Wanted};
ghost use Rattle.std.specs.Str.{is_utf8};

use label_set::{Items, PatternId};
use match_rule::Patterns;
use script_read::Wanted;
use std::alloc::AllocError;
use std::str;

/// At most so many patterns are kept of a script.
const MOST_PATTERNS: usize = 32;

/// The bytes as a text, if they are one.
pub fn text_in(bytes: &[u8]) -> Option<&str>
    ensures { MatchOption result (is_utf8 bytes.now ≡ false) (λ text. (is_utf8 bytes.now ≡ true) × (text.now ≡ bytes.now)) }
{
    match str::from_utf8(bytes) {
        Ok(text) => Some(text),
        Err(_) => None,
    }
}

/// Whether a line wants nothing of a text but that there is one.
pub fn is_bare(line: &Wanted) -> bool
    ensures { result ≡ is_bare line.now }
{
    match line {
        Wanted::Any => true,
        _ => false,
    }
}

/// Whether lines want nothing of a text but that there is one.
pub fn are_bare(lines: &[Wanted]) -> bool
    ensures { result ≡ list_all is_bare lines.now }
{
    for line in lines {
        if !is_bare(line) {
            return false;
        }
    }
    true
}

/// Whether a pattern is found in a text. Only text in UTF-8 is searched.
fn is_found(text: &[u8], id: PatternId, searches: &mut Patterns) -> Result<bool, AllocError>
    requires { id.0 < length searches.old }
    ensures answer { IfOk result (λ b. b ≡ (is_utf8 text.now && passes_at searches.old id.0 text.now)) }
    ensures same { searches.new ≡ searches.old }
{
    match text_in(text) {
        Some(text) => searches.matches(id, text),
        None => Ok(false),
    }
}

/// Whether a text is what a line wants.
fn meets(text: &[u8], line: &Wanted, searches: &mut Patterns) -> Result<bool, AllocError>
    requires { IsKept searches.old line.now }
    ensures answer { IfOk result (λ b. b ≡ meets searches.old text.now line.now) }
    ensures same { searches.new ≡ searches.old }
{
    match line {
        Wanted::Any => Ok(true),
        Wanted::Msg(message) => Ok(text == message.as_str().as_bytes()),
        Wanted::Regex(id) => is_found(text, *id, searches),
    }
}

/// Whether a text is what each of some lines wants. The only error is want of memory.
pub fn meets_all(text: &[u8], lines: &[Wanted], searches: &mut Patterns) -> Result<bool, AllocError>
    requires { AreKept searches.old lines.now }
    ensures answer { IfOk result (λ b. b ≡ list_all (meets searches.old text.now) lines.now) }
    ensures same { searches.new ≡ searches.old }
{
    for line in lines {
        if !meets(text, line, searches)? {
            return Ok(false);
        }
    }
    Ok(true)
}

/// Whether a line searches with a pattern that is marked.
fn is_marked(line: &Wanted, marks: &[bool; MOST_PATTERNS]) -> bool
    ensures { IsTrue result → (holds : Wanted → Bool) → HoldsWhereMarked holds marks.now → holds line.now ≡ true }
{
    match line {
        Wanted::Regex(id) if id.0 < 32 => marks[id.0 as usize],
        _ => false,
    }
}

/// Marks the pattern with which a line searches, so that it isn't searched again.
fn mark(line: &Wanted, marks: &mut [bool; MOST_PATTERNS])
    ensures { (holds : Wanted → Bool) → holds line.now ≡ true → HoldsWhereMarked holds marks.old → HoldsWhereMarked holds marks.new }
{
    match line {
        Wanted::Regex(id) if id.0 < 32 => marks[id.0 as usize] = true,
        _ => {}
    }
}

/// Whether a text is what one of some lines wants. Each pattern is searched once.
fn meets_any(text: &[u8], lines: &[Wanted], searches: &mut Patterns) -> Result<bool, AllocError>
    requires { AreKept searches.old lines.now }
    ensures answer { IfOk result (λ b. b ≡ list_any (meets searches.old text.now) lines.now) }
    ensures same { searches.new ≡ searches.old }
{
    let mut marks = [false; MOST_PATTERNS];
    for line in lines {
        if is_marked(line, &marks) {
            continue;
        }
        if meets(text, line, searches)? {
            return Ok(true);
        }
        mark(line, &mut marks);
    }
    Ok(false)
}

/// Whether one of some texts is what a line wants.
fn is_met(texts: &[Items<u8>], line: &Wanted, searches: &mut Patterns) -> Result<bool, AllocError>
    requires { IsKept searches.old line.now }
    ensures answer { IfOk result (λ b. b ≡ list_any (λ text. meets searches.old text line.now) texts.now) }
    ensures same { searches.new ≡ searches.old }
{
    for text in texts {
        if meets(text.as_slice(), line, searches)? {
            return Ok(true);
        }
    }
    Ok(false)
}

/// Whether for each of some lines one of the texts is what it wants. Each pattern is searched once. The only error is want of memory.
pub fn are_met(
    texts: &[Items<u8>],
    lines: &[Wanted],
    searches: &mut Patterns,
) -> Result<bool, AllocError>
    requires { AreKept searches.old lines.now }
    ensures answer { IfOk result (λ b. b ≡ noted_holds searches.old lines.now texts.now) }
    ensures same { searches.new ≡ searches.old }
{
    let mut marks = [false; MOST_PATTERNS];
    for line in lines {
        if is_marked(line, &marks) {
            continue;
        }
        if !is_met(texts, line, searches)? {
            return Ok(false);
        }
        mark(line, &mut marks);
    }
    Ok(true)
}

/// Whether each of some texts is what one of the lines wants.
fn all_meet(
    texts: &[Items<u8>],
    lines: &[Wanted],
    searches: &mut Patterns,
) -> Result<bool, AllocError>
    requires { AreKept searches.old lines.now }
    ensures answer { IfOk result (λ b. b ≡ list_all (λ text. list_any (meets searches.old text) lines.now) texts.now) }
    ensures same { searches.new ≡ searches.old }
{
    for text in texts {
        if !meets_any(text.as_slice(), lines, searches)? {
            return Ok(false);
        }
    }
    Ok(true)
}

/// Whether no text is there that isn't wanted: none at all where `none` says so, and beside lines none that isn't what one of
/// them wants. The only error is want of memory.
pub fn is_silent(
    texts: &[Items<u8>],
    lines: &[Wanted],
    none: bool,
    searches: &mut Patterns,
) -> Result<bool, AllocError>
    requires { AreKept searches.old lines.now }
    ensures answer { IfOk result (λ b. b ≡ silence_holds searches.old lines.now none texts.now) }
    ensures same { searches.new ≡ searches.old }
{
    if none && !texts.is_empty() {
        return Ok(false);
    }
    if lines.is_empty() {
        return Ok(true);
    }
    all_meet(texts, lines, searches)
}
