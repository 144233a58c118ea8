ghost use Rattle.op_match.specs.Noted.{AreBelow, IsNoted};
ghost use Rattle.std.specs.Prelude.{◌≡◌, ◌<◌, ◌≤◌, None, Some, length, slice_get, IfSome, IsTrue, MatchOption, OnOk};

use std::alloc::AllocError;

/// Makes room for numbers below a bound. The only error is want of memory.
pub(crate) fn grow(at: &mut Vec<usize>, bound: usize) -> Result<(), AllocError>
    ensures { OnOk result (bound ≤ length at.new.items) }
{
    for _ in at.len()..bound {
        at.push(0)?;
    }
    Ok(())
}

/// Notes under each number of a list where it stands, and answers whether no two are equal. Under other numbers stays what
/// was noted before, which `find` sees through; so nothing is ever cleared.
pub(crate) fn note_all(at: &mut Vec<usize>, keys: &[usize]) -> bool
    requires { AreBelow (length at.old.items) keys.now }
    ensures len { length at.new.items ≡ length at.old.items }
    ensures noted { IsTrue result → IsNoted at.new.items keys.now }
{
    for i in 0..keys.len() {
        let key = keys[i];
        if find_before(at.as_slice(), keys, i, key).is_some() {
            return false;
        }
        at[key] = i;
    }
    true
}

/// Where a number stands among the first ones of a list, if it is noted.
fn find_before(at: &[usize], keys: &[usize], count: usize, key: usize) -> Option<usize>
    requires room { key < length at.now }
    requires within { count ≤ length keys.now }
    ensures some { IfSome result (λ i. slice_get keys.now i ≡ Some key) }
    ensures none { result ≡ None → (i : _) → i < count → slice_get keys.now i ≡ Some key → slice_get at.now key ≡ Some i → ⊥ }
{
    let i = at[key];
    if i < count && keys[i] == key {
        Some(i)
    } else {
        None
    }
}

/// Where a number stands in a list that is noted.
pub(crate) fn find(at: &[usize], keys: &[usize], key: usize) -> Option<usize>
    requires room { key < length at.now }
    requires noted { IsNoted at.now keys.now }
    ensures { MatchOption result ((i : _) → slice_get keys.now i ≡ Some key → ⊥) (λ i. slice_get keys.now i ≡ Some key) }
{
    find_before(at, keys, keys.len(), key)
}
