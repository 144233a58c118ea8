ghost use Rattle.std.specs.Prelude.{◌≡◌, ◌≤◌, [], None, Some, length, IfOk, IfSome};
ghost use Rattle.edge_io.specs.Causes.{CountsAtMostOne};
ghost use Rattle.edge_io.specs.Told.{Tells};

use crate::{Fetch, Fetched, Library, Sink, SinkFail};
use std::io::{ErrorKind, Read};
use std::marker::Model;
use std::rt::{Clock, Files};
use std::thread::sleep;
use std::time::Duration;
use std::{fs, io};

/// How long a write waits, in milliseconds, before it is tried again.
const PAUSE: u64 = 1;

/// The files of the system, by their paths. Of their bytes it tells nothing; contracts see it as its count of faults.
#[derive(Drop)]
pub struct StdLibrary<'a, R: Files> {
    rt: &'a R,
    faults: u64,
}

impl<'a, R: Files> Model for StdLibrary<'a, R> {
    ghost use Rattle.std.specs.Prelude.{ℕ};

    ghost Value = { ℕ };

    ghost view = { λ library. library.faults };
}

impl<'a, R: Files> StdLibrary<'a, R> {
    /// The files that the runtime reaches. No fetch has failed yet.
    pub fn new(rt: &'a R) -> Self
        ensures { result ≡ 0 }
    {
        StdLibrary { rt, faults: 0 }
    }
}

impl<R: Files> Library for StdLibrary<'_, R> {
    ghost told = { λ _. None };

    ghost faults = { λ faults. faults };

    ghost sound = { λ _. ⊥ };

    ghost fetches = { λ before _ now. CountsAtMostOne before now };

    fn fetch(&mut self, path: &str, limit: usize, into: &mut Vec<u8>) -> Result<Fetched, Fetch> {
        let Ok(mut file) = fs::open(self.rt, path) else {
            self.faults = self.faults.saturating_add(1);
            return Err(Fetch::Failed);
        };
        let answer = read_up_to(&mut file, limit, into);
        if answer != Ok(Fetched::Whole) {
            into.clear();
        }
        if answer == Err(Fetch::Failed) {
            self.faults = self.faults.saturating_add(1);
        }
        answer
    }
}

/// Reads to the end, or until more than `limit` bytes have come, and says which. Each turn takes at least a byte.
fn read_up_to<F: Read>(file: &mut F, limit: usize, into: &mut Vec<u8>) -> Result<Fetched, Fetch>
    requires { into.old.items ≡ [] }
    ensures { IfSome (F.remaining file.old) (λ left. Tells (Some left) limit result into.new.items) }
{
    let mut room = limit;
    let mut buf = [0u8; 4096];
    loop {
        let Ok(count) = file.read(&mut buf) else {
            return Err(Fetch::Failed);
        };
        if count == 0 {
            return Ok(Fetched::Whole);
        }
        if count > room {
            return Ok(Fetched::PastLimit);
        }
        room -= count;
        if into.extend_from_slice(&buf[..count]).is_err() {
            return Err(Fetch::Memory);
        }
    }
}

/// Standard output. Of its bytes it tells nothing; contracts see it as its count of faults. A pipe whose other side made it
/// answer that a write would block is no fault: it is written to again after a pause, as long as it answers so.
#[derive(Drop)]
pub struct StdSink<'a, R: Print + Clock> {
    rt: &'a R,
    faults: u64,
}

impl<'a, R: Print + Clock> Model for StdSink<'a, R> {
    ghost use Rattle.std.specs.Prelude.{ℕ};

    ghost Value = { ℕ };

    ghost view = { λ sink. sink.faults };
}

impl<'a, R: Print + Clock> StdSink<'a, R> {
    /// The output of the runtime. No write has failed yet.
    pub fn new(rt: &'a R) -> Self
        ensures { result ≡ 0 }
    {
        StdSink { rt, faults: 0 }
    }
}

impl<R: Print + Clock> Sink for StdSink<'_, R> {
    ghost written = { λ _. None };

    ghost faults = { λ faults. faults };

    ghost sound = { λ _. ⊥ };

    fn write(&mut self, piece: &[u8]) -> Result<usize, SinkFail> {
        match write_when_ready(self.rt, piece) {
            Ok(count) if count > 0 || piece.is_empty() => Ok(count),
            _ => {
                self.faults = self.faults.saturating_add(1);
                Err(SinkFail::Failed)
            }
        }
    }
}

/// Writes some of a piece, once the output takes some.
fn write_when_ready<R: Print + Clock>(rt: &R, piece: &[u8]) -> io::Result<usize>
    ensures { IfOk result (λ n. n ≤ length piece.now) }
{
    for _ in 0..u64::MAX {
        match rt.write_some(piece) {
            Err(error) if error.kind() == ErrorKind::WouldBlock => {
                sleep(rt, Duration::from_millis(PAUSE));
            }
            answer => return answer,
        }
    }
    rt.write_some(piece)
}
