//! The texts of notes.
ghost use Rattle.frac_text.specs.Spellings.{spelling};
ghost use Rattle.label_set.specs.LabelText.{quoted};
ghost use Rattle.script_check.specs.NoteTexts.{is_of, is_warning, note_text, texts_of};
ghost use Rattle.script_read.specs.Lines.{is_empty};
ghost use Rattle.std.specs.Prelude.{◌≡◌, not, ◌++◌, IfOk, OnErr, OnOk};

use crate::joined::append_both;
use frac_text::write_number;
use label_set::{Items, append_quoted};
use std::alloc::{AllocError, Global};
use step_table::Note;
use xfrac::XFrac;

/// What stands before a note's quantile.
pub const QUANTILE_RANGE: &str = "quantile value should be between 0 and 1, got ";

/// What stands before a note's bucket.
pub const BAD_BUCKET: &str = "bucket label le is missing or has a malformed value of ";

/// What stands before a note's name.
pub const NOT_COUNTER: &str =
    "metric might not be a counter, name does not end in _total/_sum/_count/_bucket: ";

/// The whole text of a note on buckets.
pub const FIXED_BUCKETS: &str = "input to histogram_quantile needed to be fixed for monotonicity";

/// Whether a note is a warning; the others are info notes. It takes no memory.
pub fn is_warning(note: &Note) -> bool
    ensures { result ≡ is_warning note.now }
{
    match note {
        Note::QuantileRange(_) => true,
        Note::BadBucket(_) => true,
        Note::NotCounter(_) => false,
        Note::FixedBuckets => false,
    }
}

/// Whether a note is a warning, or else whether it is none.
pub fn is_of(warnings: bool, note: &Note) -> bool
    ensures { result ≡ is_of warnings note.now }
{
    if warnings {
        is_warning(note)
    } else {
        !is_warning(note)
    }
}

fn append_text(text: &str, into: &mut Vec<u8>) -> Result<(), AllocError>
    ensures { OnOk result (into.new.items ≡ into.old.items ++ text.now) }
{
    into.extend_from_slice(text.as_bytes())
}

/// Appends a text, and a number behind it.
fn append_number(text: &str, number: &XFrac, into: &mut Vec<u8>) -> Result<(), AllocError>
    ensures { OnOk result (into.new.items ≡ into.old.items ++ (text.now ++ spelling number.now)) }
{
    append_text(text, into)?;
    write_number(number, into)
}

/// Appends a text, and one in quotes behind it.
fn append_with_quotes(text: &str, behind: &str, into: &mut Vec<u8>) -> Result<(), AllocError>
    ensures { OnOk result (into.new.items ≡ into.old.items ++ (text.now ++ quoted behind.now)) }
{
    append_text(text, into)?;
    append_quoted(behind, into)
}

fn append_told(note: &Note, into: &mut Vec<u8>) -> Result<(), AllocError>
    ensures { OnOk result (into.new.items ≡ into.old.items ++ note_text note.now) }
{
    match note {
        Note::QuantileRange(quantile) => append_number(QUANTILE_RANGE, quantile, into),
        Note::BadBucket(bound) => append_with_quotes(BAD_BUCKET, bound.as_str(), into),
        Note::NotCounter(name) => append_both(NOT_COUNTER, name.as_str().as_bytes(), into),
        Note::FixedBuckets => append_text(FIXED_BUCKETS, into),
    }
}

fn text_of(alloc: Global, note: &Note) -> Result<Items<u8>, AllocError>
    ensures { IfOk result (λ text. text ≡ note_text note.now) }
{
    let mut text = Vec::new(alloc);
    append_told(note, &mut text)?;
    Ok(Items::from_vec(text))
}

/// Appends the text of a note. The only error is want of memory; then nothing is appended.
pub fn append_note(note: &Note, into: &mut Vec<u8>) -> Result<(), AllocError>
    ensures ok { OnOk result (into.new.items ≡ into.old.items ++ note_text note.now) }
    ensures err { OnErr result (into.new.items ≡ into.old.items) }
{
    let text = text_of(*into.allocator(), note)?;
    into.extend_from_slice(text.as_slice())
}

/// Whether there is a warning among notes, or else an info note. It takes no memory.
pub fn has_texts(notes: &[Note], warnings: bool) -> bool
    ensures { result ≡ not (is_empty (texts_of warnings notes.now)) }
{
    for note in notes {
        if is_of(warnings, note) {
            return true;
        }
    }
    false
}

/// The texts of the warnings among notes, or else of the info notes, in their order. The only error is want of memory.
pub fn texts_of(
    alloc: Global,
    notes: &[Note],
    warnings: bool,
) -> Result<Items<Items<u8>>, AllocError>
    ensures { IfOk result (λ texts. texts ≡ texts_of warnings notes.now) }
{
    let mut texts = Items::new(alloc);
    for note in notes {
        if !is_of(warnings, note) {
            continue;
        }
        texts.push(text_of(alloc, note)?)?;
    }
    Ok(texts)
}
