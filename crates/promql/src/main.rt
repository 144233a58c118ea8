//! The program: it makes the real files, the real output and boxes of engines, runs the words that it was given, and ends with the status.
#![tactic(auto)]

ghost use Rattle.promql_tool.specs.Boxes.{AreFresh, IsFresh};
ghost use Rattle.std.specs.Prelude.{◌≡◌, ◌+◌, length, map, OnOk};

use edge_io::{StdLibrary, StdSink};
use engine_local::LocalEngine;
use promql_tool::{Status, run_tool};
use remote_api::{Engine, Turns};
use std::alloc::{AllocError, Global};
use std::env;
use std::io::ErrorKind;
use std::marker::Brand;
use std::process::ExitCode;
use std::rt::{Clock, Env, Files};
use std::sync::ledger::{Blank, Ledger};
use ticks::Work;

/// The status where there is no memory for the words, or for the boxes of engines.
const NO_MEMORY: u8 = 7;

/// How many boxes of engines there are.
const BOXES: u32 = 8;

/// The words after the program's name. Where they can't be read for another cause than memory, there are none, which is
/// no command.
fn read_words<R: Env + AllocGlobal>(alloc: Global, rt: &R) -> Result<Vec<String>, AllocError> {
    match env::args(rt) {
        Ok(all) => all.skip(1).collect(alloc),
        Err(error) if error.kind() == ErrorKind::OutOfMemory => Err(AllocError),
        Err(_) => Ok(Vec::new(alloc)),
    }
}

/// Adds a box to others, to none of which anything was done. The only error is want of memory.
fn add(engines: &mut Vec<Box<dyn Engine>>, one: Box<dyn Engine>) -> Result<(), AllocError>
    requires before { AreFresh (map (λ b. seen b) engines.old.items) }
    requires one { IsFresh (seen one) }
    ensures fresh { OnOk result (AreFresh (map (λ b. seen b) engines.new.items)) }
    ensures many { OnOk result (length engines.new.items ≡ length engines.old.items + 1) }
{
    engines.push(one)?;
    Ok(())
}

/// Runs the words over the real files, the real output and boxes of engines, with counters of its own. An error is want of memory for the
/// boxes.
fn run_words<W: Ledger, R: Clock + Files + Print>(
    alloc: Global,
    rt: &R,
    words: &[String],
    blank: Blank,
) -> Result<Status, AllocError>
    requires name { blank.name ≡ W.name }
    requires parts { blank.parts ≡ W.parts }
    requires three { blank.parts ≡ 3 }
{
    let mut engines: Vec<Box<dyn Engine>> = Vec::new(alloc);
    for _ in 0..BOXES {
        add(&mut engines, Box::new(alloc, LocalEngine::new(alloc))?)?;
    }
    let mut library = StdLibrary::new(rt);
    let mut out = StdSink::new(rt);
    let mut work = Work::<W>::new(blank);
    Ok(run_tool(
        alloc,
        words,
        &mut library,
        &mut out,
        &mut engines,
        &mut Turns::new(),
        &mut work,
    ))
}

fn main(rt: HostRuntime) -> ExitCode {
    let alloc = rt.alloc();
    let Ok(words) = read_words(alloc, &rt) else {
        return ExitCode::from(NO_MEMORY);
    };
    match run_words::<Brand, _>(alloc, &rt, &words, Blank::new(3)) {
        Ok(status) => ExitCode::from(status.0),
        Err(_) => ExitCode::from(NO_MEMORY),
    }
}
