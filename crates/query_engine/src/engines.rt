//! Boxes of engines: their asks are forgotten, and one is lost.
ghost use Rattle.exchange.specs.Calls.{Each, IsCalled};
ghost use Rattle.query_engine.specs.Engines.{moved_last, named_by};
ghost use Rattle.remote_api.specs.Seen.{IsBegun};
ghost use Rattle.std.specs.Prelude.{◌≡◌, ◌<◌, IfSome, MatchOption, length, map, remove};

use exchange::RunFault;
use holders::Items;
use label_set::Labels;
use remote_api::Engine;

fn begin_box(engine: &mut Box<dyn Engine>)
    ensures { IsBegun (seen engine.old) (seen engine.new) }
{
    engine.begin();
}

/// Forgets the asks of one engine out of the list.
fn begin_at(engines: &mut [Box<dyn Engine>], i: usize)
    requires { i < length engines.old }
    ensures begun { IsCalled i IsBegun (map (λ b. seen b) engines.old) (map (λ b. seen b) engines.new) }
    ensures len { length engines.new ≡ length engines.old }
{
    begin_box(&mut engines[i]);
}

/// Forgets the asks of all engines. It takes no memory and can't fail.
pub(crate) fn begin(engines: &mut [Box<dyn Engine>])
    ensures begun { Each IsBegun (map (λ b. seen b) engines.old) (map (λ b. seen b) engines.new) }
    ensures len { length engines.new ≡ length engines.old }
{
    for i in 0..engines.len() {
        begin_at(engines, i);
    }
}

/// The engine that a fault names, counted from 0.
fn named_by(fault: &RunFault) -> Option<u32>
    ensures { result ≡ named_by fault.now }
{
    match fault {
        RunFault::EngineFault { engine } => Some(*engine),
        RunFault::OutOfStep { engine, .. } => Some(*engine),
        RunFault::WrongCell { engine, .. } => Some(*engine),
        RunFault::Memory => None,
    }
}

/// Moves a box, counted from 0, behind all others, which stay in their order. It takes no memory and can't fail.
pub fn move_last(engines: &mut [Box<dyn Engine>], i: usize)
    requires { i < length engines.old }
    ensures { engines.new ≡ moved_last i engines.old }
{
    engines[i..].rotate_left(1);
}

/// Takes the engine that a fault names, counted from 0, out of those that are declared, which are the first boxes: its labels go, and its
/// box moves behind all others, which stay in their order. The engine must be one of the declared ones. Where the fault names none, as want
/// of memory does, nothing changes. It takes no memory and can't fail.
pub fn lose(engines: &mut [Box<dyn Engine>], declared: &mut Items<Labels>, fault: &RunFault)
    requires named { IfSome (named_by fault.now) (λ i. i < length declared.old) }
    requires boxes { IfSome (named_by fault.now) (λ i. i < length engines.old) }
    ensures labels { MatchOption (named_by fault.now) (declared.new ≡ declared.old) (λ i. declared.new ≡ remove declared.old i) }
    ensures boxes { MatchOption (named_by fault.now) (engines.new ≡ engines.old) (λ i. engines.new ≡ moved_last i engines.old) }
{
    let Some(engine) = named_by(fault) else {
        return;
    };
    let i = engine as usize;
    move_last(engines, i);
    let _ = declared.remove(i);
}
