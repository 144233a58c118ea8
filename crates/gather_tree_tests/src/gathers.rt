//! Gathers over two engines, each a leaf of a tree.
ghost use Rattle.gather_tree_tests.specs.Fitting.{AreFitting, AreIdle, IsNearby};
ghost use Rattle.plan_tree.specs.declared.node.Node.TheVariants as node;
ghost use Rattle.std.specs.Prelude.{◌≡◌, ◌+◌, ◌∷◌, [], false, length, map, IfOk, OnOk};

use crate::parts::part;
use exchange::Exchange;
use label_set::Items;
use plan_tree::Node;
use remote_api::Engine;
use std::alloc::{AllocError, Global};
use std::test::Fail;
use ticks::{Ms, Walk, WalkMoment};

fn begin(engine: &mut Box<dyn Engine>)
    ensures asks { (seen engine.new).asks ≡ [] }
    ensures going { (seen engine.new).spent ≡ false }
{
    engine.begin();
}

/// Has both engines forget their asks; an error where there are not two.
pub fn begin_both(engines: &mut [Box<dyn Engine>]) -> Result<(), Fail>
    ensures { OnOk result (AreIdle (map (λ b. seen b) engines.new)) }
{
    if engines.len() != 2 {
        return Err("there are not two engines")?;
    }
    for i in 0..engines.len() {
        begin(&mut engines[i]);
    }
    Ok(())
}

/// The numbers of both engines.
fn both(alloc: Global) -> Result<Items<u32>, AllocError>
    ensures { IfOk result (λ numbers. numbers ≡ 0 ∷ 1 ∷ []) }
{
    let mut numbers = Items::new(alloc);
    numbers.push(0)?;
    numbers.push(1)?;
    Ok(numbers)
}

/// Adds a part that both engines are to be asked for at the instants of a walk, and gives the leaf that its gather is.
pub fn gather(alloc: Global, exchange: &mut Exchange, text: &str, walk: &Walk) -> Result<Node, Fail>
    requires nearby { IsNearby walk.now }
    requires fitting { AreFitting walk.now exchange.old }
    ensures leaf { IfOk result (λ leaf. leaf ≡ node.Gather (length exchange.old.requests)) }
    ensures more { OnOk result (length exchange.new.requests ≡ length exchange.old.requests + 1) }
    ensures fitting { OnOk result (AreFitting walk.now exchange.new) }
{
    let moment = WalkMoment {
        fixed: None,
        offset: Ms(0),
        closed: false,
    };
    let part = part(alloc, text)?;
    let numbers = both(alloc)?;
    let place = exchange.add(part, walk.copy()?, moment, Ms(1), numbers)?;
    Ok(Node::Gather { place })
}
