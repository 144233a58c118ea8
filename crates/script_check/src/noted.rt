//! Notes against the lines that want them, without memory: the note of a line is looked up by halves, since notes stand in order.
ghost use Rattle.script_check.specs.NoteTexts.{is_of, note_text, texts_of};
ghost use Rattle.script_check.specs.Noted.{AreNotesMarked, HasText, IsWantedIf};
ghost use Rattle.script_check.specs.Verdicts.{PatternList, is_bare, meets, noted_holds};
ghost use Rattle.std.specs.List.{AllByRecursion, list_all, list_any};
ghost use Rattle.std.specs.Prelude.{◌≡◌, ◌<◌, ◌≤◌, ℕ, Some, true, false, bytes_eq, length, slice_get, slice_index_or, IfSome, IsTrue};
ghost use Rattle.step_table.specs.declared.marks.Note.{Note};
ghost use Rattle.step_table.specs.declared.marks.Note.TheVariants.{BadBucket, NotCounter, QuantileRange};

use crate::note_order::{against, told_by};
use crate::note_text::{BAD_BUCKET, FIXED_BUCKETS, NOT_COUNTER, QUANTILE_RANGE, has_texts, is_of};
use crate::pieces::{behind, is_quoted, is_same};
use crate::tested::is_bare;
use frac_text::spelled;
use script_read::Wanted;
use std::cmp::{Ordering, min};
use step_table::Note;
use xfrac::XFrac;

/// So many notes are marked in one round, on the stack.
const ROUND: usize = 65_536;

// ---- the note with a text

/// Whether a text is that of a note on a quantile. The quantile is written on the stack.
fn is_quantile_text(text: &[u8], quantile: &XFrac) -> bool
    ensures { IsTrue result → note_text (QuantileRange quantile.now) ≡ text.now }
{
    match behind(text, QUANTILE_RANGE.as_bytes()) {
        Some(rest) => is_same(rest, spelled(quantile).as_bytes()),
        None => false,
    }
}

/// Whether a text is that of a note on a bucket.
fn is_bucket_text(text: &[u8], bound: &[u8]) -> bool
    ensures { IsTrue result → note_text (BadBucket bound.now) ≡ text.now }
{
    match behind(text, BAD_BUCKET.as_bytes()) {
        Some(rest) => is_quoted(rest, bound),
        None => false,
    }
}

/// Whether a text is that of a note on a counter's name.
fn is_counter_text(text: &[u8], name: &[u8]) -> bool
    ensures { IsTrue result → note_text (NotCounter name.now) ≡ text.now }
{
    match behind(text, NOT_COUNTER.as_bytes()) {
        Some(rest) => is_same(rest, name),
        None => false,
    }
}

/// Whether a text is a note's.
fn is_text_of(note: &Note, text: &[u8]) -> bool
    ensures { IsTrue result → note_text note.now ≡ text.now }
{
    match note {
        Note::QuantileRange(quantile) => is_quantile_text(text, quantile),
        Note::BadBucket(bound) => is_bucket_text(text, bound.as_str().as_bytes()),
        Note::NotCounter(name) => is_counter_text(text, name.as_str().as_bytes()),
        Note::FixedBuckets => FIXED_BUCKETS.as_bytes() == text,
    }
}

/// A place, if the note there has a text.
fn place_if_told(notes: &[Note], place: usize, text: &[u8]) -> Option<usize>
    requires { place < length notes.now }
    ensures within { IfSome result (λ found. found < length notes.now) }
    ensures has { IfSome result (λ found. HasText text.now (slice_get notes.now found)) }
{
    if is_text_of(&notes[place], text) {
        Some(place)
    } else {
        None
    }
}

/// The place of a note with a text. It is found where notes stand in order.
fn place_of_text(notes: &[Note], text: &[u8]) -> Option<usize>
    ensures within { IfSome result (λ place. place < length notes.now) }
    ensures has { IfSome result (λ place. HasText text.now (slice_get notes.now place)) }
{
    let told = match told_by(text) {
        Some(told) => told,
        None => return None,
    };
    let mut low = 0;
    let mut high = notes.len();
    while low < high {
        let middle = low + (high - low) / 2;
        match against(&notes[middle], &told) {
            Ordering::Less => low = middle + 1,
            Ordering::Equal => return place_if_told(notes, middle, text),
            Ordering::Greater => high = middle,
        }
    }
    None
}

// ---- lines

/// Whether one of the warnings, or else of the info notes, has a text.
fn is_among(warnings: bool, notes: &[Note], text: &[u8]) -> bool
    ensures { IsTrue result → list_any (λ note. bytes_eq note text.now) (texts_of warnings notes.now) ≡ true }
{
    match place_of_text(notes, text) {
        Some(place) => is_of(warnings, &notes[place]),
        None => false,
    }
}

/// Whether a line holds of the warnings, or else of the info notes. It isn't told of one that searches.
fn is_noted(warnings: bool, notes: &[Note], line: &Wanted) -> bool
    ensures { IsTrue result → (kept : PatternList) → list_any (λ note. meets kept note line.now) (texts_of warnings notes.now) ≡ true }
{
    match line {
        Wanted::Any => has_texts(notes, warnings),
        Wanted::Msg(message) => is_among(warnings, notes, message.as_str().as_bytes()),
        Wanted::Regex(_) => false,
    }
}

/// Whether each line holds of the warnings, or else of the info notes.
fn are_noted(warnings: bool, notes: &[Note], lines: &[Wanted]) -> bool
    ensures { IsTrue result → (kept : PatternList) → noted_holds kept lines.now (texts_of warnings notes.now) ≡ true }
{
    for line in lines {
        if !is_noted(warnings, notes, line) {
            return false;
        }
    }
    true
}

// ---- notes

/// Marks the notes whose texts lines want.
fn mark(part: &[Note], lines: &[Wanted], marks: &mut [bool; ROUND])
    requires { length part.now ≤ 65536 }
    ensures { AreNotesMarked part.now lines.now marks.old → AreNotesMarked part.now lines.now marks.new }
{
    for line in lines {
        if let Wanted::Msg(message) = line {
            if let Some(place) = place_of_text(part, message.as_str().as_bytes()) {
                marks[place] = true;
            }
        }
    }
}

/// Whether each of the warnings, or else of the info notes, is marked.
fn are_marked(warnings: bool, part: &[Note], marks: &[bool; ROUND]) -> bool
    requires { length part.now ≤ 65536 }
    ensures { IsTrue result → (place : ℕ) (note : Note) → slice_get part.now place ≡ Some note → is_of warnings note ≡ true → slice_index_or marks.now place false ≡ true }
{
    for place in 0..part.len() {
        if is_of(warnings, &part[place]) && !marks[place] {
            return false;
        }
    }
    true
}

/// Whether each of at most so many notes as are marked in one round is wanted, if it is a warning, or else an info note.
fn are_wanted(warnings: bool, part: &[Note], lines: &[Wanted]) -> bool
    requires { length part.now ≤ 65536 }
    ensures { IsTrue result → AllByRecursion (IsWantedIf warnings lines.now) part.now }
{
    let mut marks = [false; ROUND];
    mark(part, lines, &mut marks);
    are_marked(warnings, part, &marks)
}

/// Whether each of the warnings, or else of the info notes, is wanted.
fn all_wanted(warnings: bool, notes: &[Note], lines: &[Wanted]) -> bool
    ensures { IsTrue result → AllByRecursion (IsWantedIf warnings lines.now) notes.now }
{
    let mut rest = notes;
    while !rest.is_empty() {
        let (part, later) = rest.split_at(min(ROUND, rest.len()));
        if !are_wanted(warnings, part, lines) {
            return false;
        }
        rest = later;
    }
    true
}

/// Whether one of the lines wants nothing of a note but that there is one.
fn has_bare(lines: &[Wanted]) -> bool
    ensures { result ≡ list_any is_bare lines.now }
{
    for line in lines {
        if is_bare(line) {
            return true;
        }
    }
    false
}

/// Whether each line holds of the warnings, or else of the info notes, and each of these is what one of the lines wants. It is
/// told without memory, and not of lines that search.
pub fn agree_with_notes(warnings: bool, notes: &[Note], lines: &[Wanted]) -> bool
    ensures noted { IsTrue result → (kept : PatternList) → noted_holds kept lines.now (texts_of warnings notes.now) ≡ true }
    ensures silent { IsTrue result → (kept : PatternList) → list_all (λ note. list_any (meets kept note) lines.now) (texts_of warnings notes.now) ≡ true }
{
    are_noted(warnings, notes, lines) && (has_bare(lines) || all_wanted(warnings, notes, lines))
}
