//! A library of files that stand in the rows of a table.
ghost use Rattle.std.specs.Prelude.{◌≡◌, None};

use edge_io::{Fetch, Fetched, Library};
use std::alloc::AllocError;

/// Appends a text with a line feed for each sign.
pub(crate) fn push_lines(text: &mut Vec<u8>, written: &str, sign: u8) -> Result<(), AllocError> {
    for byte in written.as_bytes() {
        text.push(if *byte == sign { b'\n' } else { *byte })?;
    }
    Ok(())
}

/// Appends what stands between two backquotes.
fn push_special(text: &mut Vec<u8>, special: &str) -> Result<(), AllocError> {
    let Some((times, piece)) = special.split_once('*') else {
        text.push(u8::from_str_radix(special, 16).unwrap_or(b'?'))?;
        return Ok(());
    };
    let (front, back) = piece.split_once('%').unwrap_or((piece, ""));
    let alloc = *text.allocator();
    for place in 0..times.parse::<u32>().unwrap_or(0) {
        push_lines(text, front, b'|')?;
        if front.len() < piece.len() {
            text.extend_from_slice(format!(in alloc; "{place}")?.as_bytes())?;
        }
        push_lines(text, back, b'|')?;
    }
    Ok(())
}

/// Appends the bytes of a row's script.
pub(crate) fn push_script(text: &mut Vec<u8>, written: &str) -> Result<(), AllocError> {
    let mut is_special = false;
    for piece in written.split('`') {
        if is_special {
            push_special(text, piece)?;
        } else {
            push_lines(text, piece, b'|')?;
        }
        is_special = !is_special;
    }
    Ok(())
}

/// Files that stand in rows, each a path and behind a `|` its script, of which it tells nothing. The fetch of a number, counted from 1, fails.
#[derive(Drop)]
pub(crate) struct Shelf {
    rows: &'static str,
    fails: u32,
    calls: u32,
    faults: u64,
}

/// The script at a path.
fn script_at(rows: &'static str, path: &str) -> Option<&'static str> {
    for row in rows.lines() {
        if let Some((name, script)) = row.split_once('|')
            && name == path
        {
            return Some(script);
        }
    }
    None
}

impl Library for Shelf {
    ghost told = { λ _. None };

    ghost faults = { λ shelf. shelf.faults };

    ghost sound = { λ _. ⊥ };

    ghost fetches = { λ _ _ _. Unit {0} };

    fn fetch(&mut self, path: &str, limit: usize, into: &mut Vec<u8>) -> Result<Fetched, Fetch> {
        self.calls = self.calls.saturating_add(1);
        let script = script_at(self.rows, path).unwrap_or("");
        if self.calls == self.fails || script.is_empty() {
            self.faults = self.faults.saturating_add(1);
            return Err(Fetch::Failed);
        }
        if push_script(into, script).is_err() {
            into.clear();
            return Err(Fetch::Memory);
        }
        if into.len() > limit {
            into.clear();
            return Ok(Fetched::PastLimit);
        }
        Ok(Fetched::Whole)
    }
}

/// Files that stand in rows. With a number other than 0 that fetch fails.
pub(crate) fn shelf_of(rows: &'static str, fails: u32) -> Shelf {
    Shelf {
        rows,
        fails,
        calls: 0,
        faults: 0,
    }
}
