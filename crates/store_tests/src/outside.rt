use crate::rows::{field, rows_hold};
use edge_io::{
    Fetch, Fetched, Library, MemLibrary, MemSink, Sink, SinkFail, StdLibrary, StdSink, write_all,
};
use holders::{Items, Text};
use std::alloc::{AllocError, Global};
use std::cell::{Cell, RefCell};
use std::fmt::Display;
use std::io::ErrorKind;
use std::rt::Clock;
use std::test::Fail;
use std::time::Duration;
use std::{fs, io, str};

fn numbers(alloc: Global, listed: &[u32]) -> Result<Items<u32>, AllocError> {
    let mut items = Items::new(alloc);
    for number in listed {
        items.push(*number)?;
    }
    Ok(items)
}

fn held(alloc: Global, bytes: &[u8]) -> Result<Items<u8>, AllocError> {
    let mut items = Items::new(alloc);
    for byte in bytes {
        items.push(*byte)?;
    }
    Ok(items)
}

/// An output that takes at most so many bytes of a write, and fails at the write of a number, counted from 1. Before it takes
/// any it answers so often that a write would block.
#[derive(Drop)]
struct NarrowOutput {
    blocks: u32,
    most: usize,
    fails: u32,
    writes: Cell<u32>,
    taken: RefCell<Vec<u8>>,
}

impl Print for NarrowOutput {
    fn print<D: Display + Drop>(&self, _value: D) -> io::Result<()> {
        Ok(())
    }

    fn println<D: Display + Drop>(&self, _value: D) -> io::Result<()> {
        Ok(())
    }

    fn write_all(&self, _bytes: &[u8]) -> io::Result<()> {
        Ok(())
    }

    fn write_some(&self, bytes: &[u8]) -> io::Result<usize> {
        let write = self.writes.get().saturating_add(1);
        self.writes.set(write);
        if write <= self.blocks {
            return Err(ErrorKind::WouldBlock.into());
        }
        let count = bytes.len().min(self.most);
        let Ok(mut taken) = self.taken.try_borrow_mut() else {
            return Err(ErrorKind::Other.into());
        };
        if write == self.fails || taken.extend_from_slice(&bytes[..count]).is_err() {
            return Err(ErrorKind::Other.into());
        }
        Ok(count)
    }
}

impl Clock for NarrowOutput {
    fn monotonic(&self) -> io::Result<Duration> {
        Ok(Duration::ZERO)
    }

    fn since_1970(&self) -> io::Result<Duration> {
        Ok(Duration::ZERO)
    }
}

// Each line is a path, a limit in bytes, and what is fetched. A library in memory gives a file once.
const IN_MEMORY: &str = "b.test 6=whole second
b.test 6=failed 
c.test 6=failed 
b.test 5=past 
a.test 5=whole first
a.test 5=failed 
a.test 4=past ";

// The same of real files, of which one is there.
const IN_THE_SYSTEM: &str = "kept.test 8=whole load 1m;
kept.test 7=past 
absent.test 8=failed 
. 8=failed 
- 8=failed ";

// Each line is how many writes would block, the bytes of a write, the write that fails or 0, and then the answer, the writes, and
// what was taken.
const WRITES: &str = "0 7 0=taken 3 passed 1 failed 0
0 18 0=taken 1 passed 1 failed 0
0 7 3=failed 3 passed 1 faile
0 7 1=failed 1 
0 0 0=failed 1 
3 18 0=taken 4 passed 1 failed 0
3 18 4=failed 4 ";

/// The whole number at a place among words, else 0.
fn number(words: &str, place: usize) -> u32 {
    field(words, ' ', place).parse::<u32>().unwrap_or(0)
}

fn word(answer: Result<Fetched, Fetch>) -> &'static str {
    match answer {
        Ok(Fetched::Whole) => "whole",
        Ok(Fetched::PastLimit) => "past",
        Err(Fetch::Failed) => "failed",
        Err(Fetch::Memory) => "memory",
    }
}

/// What is fetched: a word on it, and the text, in which a line's end is told as `;`.
fn fetched<L: Library>(alloc: Global, library: &mut L, call: &str) -> Result<String, Fail> {
    let mut into = Vec::new(alloc);
    let limit = number(call, 1) as usize;
    let answer = word(library.fetch(field(call, ' ', 0), limit, &mut into));
    let text = str::from_utf8(into.as_slice()).unwrap_or("no text");
    let ended = text.strip_suffix('\n');
    let shown = ended.unwrap_or(text);
    let end = if ended.is_some() { ";" } else { "" };
    Ok(format!(in alloc; "{answer} {shown}{end}")?)
}

/// Fetches by the lines of a table, and fails with the first line of another answer.
fn fetches_hold<L: Library>(alloc: Global, library: &mut L, lines: &str) -> Result<(), Fail> {
    for line in lines.split('\n') {
        let got = fetched(alloc, library, field(line, '=', 0))?;
        if got.as_str() != field(line, '=', 1) {
            return Err(Fail::new(line));
        }
    }
    Ok(())
}

/// A library of two files, the first fetched by its first two bytes and the other whole.
fn library(alloc: Global) -> Result<MemLibrary, AllocError> {
    let mut paths = Items::new(alloc);
    paths.push(Text::of(alloc, "a.test")?)?;
    paths.push(Text::of(alloc, "b.test")?)?;
    let mut bytes = Items::new(alloc);
    bytes.push(held(alloc, b"first")?)?;
    bytes.push(held(alloc, b"second")?)?;
    Ok(MemLibrary::of(paths, bytes, numbers(alloc, &[2, 6])?))
}

#[test]
fn memory_is_fetched(rt: HostRuntime) -> Result<(), Fail> {
    let mut library = library(rt.alloc())?;
    fetches_hold(rt.alloc(), &mut library, IN_MEMORY)
}

#[test]
fn files_are_fetched(rt: HostRuntime) -> Result<(), Fail> {
    fs::write(&rt, "kept.test", "load 1m\n")?;
    let mut library = StdLibrary::new(&rt);
    fetches_hold(rt.alloc(), &mut library, IN_THE_SYSTEM)?;
    fs::remove_file(&rt, "kept.test")?;
    Ok(())
}

/// Whether a sink whose second write fails takes the others.
fn takes_the_others(alloc: Global) -> Result<bool, AllocError> {
    let mut sink = MemSink::of(alloc, numbers(alloc, &[2])?);
    let (first, second) = (sink.write(b"one "), sink.write(b"two "));
    let (third, empty) = (write_all(&mut sink, b"three"), sink.write(b""));
    let are_answered = first == Ok(4) && second == Err(SinkFail::Failed) && third.is_ok();
    Ok(are_answered && empty == Ok(0) && sink.written() == b"one three".as_slice())
}

#[test]
fn memory_is_written(rt: HostRuntime) -> Result<(), Fail> {
    assert!(rt; takes_the_others(rt.alloc())?);
    Ok(())
}

#[test]
fn the_output_is_written(rt: HostRuntime) -> Result<(), Fail> {
    let mut sink = StdSink::new(&rt);
    assert_eq!(rt; write_all(&mut sink, b"passed 1 failed 0\n"), Ok(()));
    Ok(())
}

/// An output by the words of a line, which has taken nothing yet.
fn output(alloc: Global, words: &str) -> NarrowOutput {
    NarrowOutput {
        blocks: number(words, 0),
        most: number(words, 1) as usize,
        fails: number(words, 2),
        writes: Cell::new(0),
        taken: RefCell::new(Vec::new(alloc)),
    }
}

/// What a write to an output comes to: a word on it, the writes, and what was taken.
fn is_written(alloc: Global, row: &str) -> Result<bool, Fail> {
    let output = output(alloc, field(row, '=', 0));
    let answer = match write_all(&mut StdSink::new(&output), b"passed 1 failed 0\n") {
        Ok(()) => "taken",
        Err(SinkFail::Failed) => "failed",
        Err(SinkFail::Memory) => "memory",
    };
    let writes = output.writes.get();
    let Ok(taken) = output.taken.try_borrow() else {
        return Ok(false);
    };
    let text = str::from_utf8(taken.as_slice()).unwrap_or("no text");
    let shown = text.strip_suffix('\n').unwrap_or(text);
    let got = format!(in alloc; "{answer} {writes} {shown}")?;
    Ok(got.as_str() == field(row, '=', 1))
}

#[test]
fn a_write_is_taken_in_parts(rt: HostRuntime) -> Result<(), Fail> {
    rows_hold(rt.alloc(), WRITES, '\n', is_written)
}
