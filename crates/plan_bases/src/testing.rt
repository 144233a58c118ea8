//! Which series pass the rules of a filter.
ghost use Rattle.match_rule.specs.Patterns.{HaveTheirPatterns, labels_pass};
ghost use Rattle.plan_bases.specs.Looks.{LooksAt};
ghost use Rattle.sample_store.specs.Samples.{labels_at};
ghost use Rattle.std.specs.List.{AllByRecursion};
ghost use Rattle.std.specs.Prelude.{◌≡◌, ◌+◌, ◌*◌, ◌<◌, ◌≤◌, ℕ, Some, filter, length, slice_get, IfOk};

use holders::Items;
use label_set::{Labels, Rule};
use match_rule::{Patterns, passes};
use sample_store::Store;
use std::alloc::{AllocError, Global};
use std::sync::ledger::Ledger;
use ticks::Work;

/// Whether labels pass each of some rules. Each of the rules is tested, behind one that they don't pass too, and counts as a test. It
/// answers no error.
fn passes_each<W: Ledger>(
    rules: &[Rule],
    patterns: &mut Patterns<'_>,
    labels: &Labels,
    work: &mut Work<W>,
) -> Result<bool, AllocError>
    requires { HaveTheirPatterns patterns.old rules.now }
    ensures answer { IfOk result (λ b. b ≡ labels_pass patterns.old rules.now labels.now) }
    ensures tested { LooksAt work.old work.new (length rules.now) }
    ensures counted { IfOk result (λ _. work.new.tested ≡ work.old.tested + length rules.now) }
    ensures same { patterns.new ≡ patterns.old }
{
    match rules {
        [] => Ok(true),
        [rule, rest @ ..] => {
            work.test();
            let first = passes(rule, patterns, labels.get(rule.label.as_str()))?;
            let others = passes_each(rest, patterns, labels, work)?;
            Ok(first && others)
        }
    }
}

fn number_at(numbers: &[u32], i: usize) -> u32
    requires { i < length numbers.now }
    ensures { slice_get numbers.now i ≡ Some result }
{
    numbers[i]
}

/// Of the series with some numbers those whose labels pass each of some rules, in order. Of each series and each rule one test is
/// counted, where memory is short at most one, and no sample is read. The only error is want of memory.
pub(crate) fn passing<W: Ledger>(
    alloc: Global,
    numbers: &[u32],
    rules: &[Rule],
    store: &Store,
    patterns: &mut Patterns<'_>,
    work: &mut Work<W>,
) -> Result<Items<u32>, AllocError>
    requires rules { HaveTheirPatterns patterns.old rules.now }
    requires there { AllByRecursion (λ (n : ℕ). n < length store.now) numbers.now }
    ensures passing { IfOk result (λ found. found ≡ filter (λ (n : ℕ). labels_pass patterns.old rules.now (labels_at store.now n)) numbers.now) }
    ensures tested { LooksAt work.old work.new (length numbers.now * length rules.now) }
    ensures counted { IfOk result (λ _. work.new.tested ≡ work.old.tested + length numbers.now * length rules.now) }
    ensures same { patterns.new ≡ patterns.old }
{
    let mut found = Items::new(alloc);
    for i in 0..numbers.len() {
        let n = number_at(numbers, i);
        if !passes_each(rules, patterns, store.labels(n), work)? {
            continue;
        }
        found.push(n)?;
    }
    Ok(found)
}
