use crate::rows::rows_hold;
use crate::types::tree;
use holders::Text;
use promql_ast::QueryRefusal;
use std::alloc::Global;
use std::test::Fail;

/// Its longest path has six nodes.
const SIX: &str = "sum(abs(x)) > bool (-(1)) or x";

// Each line is a text and the nodes of its longest path.
const DEPTHS: &str = "1 => 1
(x) => 2
sum(abs(x)) > bool (-(1)) or x => 6";

fn is_copied(alloc: Global) -> Result<bool, Fail> {
    let six = tree(alloc, SIX)?;
    let copy = six.copy()?;
    Ok(copy.is_same(&six) && copy == six && !copy.is_same(&tree(alloc, "1")?))
}

fn depth_of(alloc: Global, text: &str) -> Result<u64, Fail> {
    Ok(tree(alloc, text)?.depth())
}

fn has_depth(alloc: Global, row: &str) -> Result<bool, Fail> {
    let (text, wanted) = row.split_once(" => ").ok_or("a row without its depth")?;
    Ok(depth_of(alloc, text)? == wanted.parse::<u64>()?)
}

#[test]
fn trees_are_measured(rt: HostRuntime) -> Result<(), Fail> {
    rows_hold(rt.alloc(), DEPTHS, 3, has_depth)
}

#[test]
fn trees_are_copied(rt: HostRuntime) -> Result<(), Fail> {
    assert!(rt; is_copied(rt.alloc())?);
    Ok(())
}

fn unknown(alloc: Global) -> Result<QueryRefusal, Fail> {
    Ok(QueryRefusal::UnknownFunction(4, Text::of(alloc, "foo")?))
}

fn is_told(alloc: Global) -> Result<bool, Fail> {
    let refusal = unknown(alloc)?;
    Ok(refusal.place() == 4 && refusal.number() == 12 && refusal.copy()? == refusal)
}

#[test]
fn refusals_have_places(rt: HostRuntime) -> Result<(), Fail> {
    assert!(rt; is_told(rt.alloc())? && QueryRefusal::TooManyPoints(9).number() == 27);
    Ok(())
}
