//! What is joined where no engine is asked.
use crate::delivered::kind;
use crate::gathers::{gather_of, take_ready};
use std::alloc::Global;
use std::test::Fail;
use written_steps::{line_that_differs, steps};

const KINDS: &str = "rows
windows
sum
avg
min
max
count
group";

const STEPS: &str = "10 - | 20 - | 30 - | 40 - | 50 -";

/// Whether all steps of the walk are ready at once, and are lent without a row or a mark.
fn holds(alloc: Global, word: &str) -> Result<bool, Fail> {
    let kind = kind(alloc, word)?;
    let wanted = steps(alloc, STEPS)?;
    let mut gather = gather_of(alloc, 0, &kind)?;
    let taken = take_ready(&mut gather, &kind, wanted.as_slice(), 0)?;
    Ok(taken == wanted.as_slice().len() && gather.engines() == 0 && !gather.ready())
}

#[test]
fn no_engine_is_joined_to_nothing_at_each_instant(rt: HostRuntime) -> Result<(), Fail> {
    let alloc = rt.alloc();
    let word = line_that_differs(KINDS, |word| holds(alloc, word))?;
    assert_eq!(rt; word, "none");
    Ok(())
}
