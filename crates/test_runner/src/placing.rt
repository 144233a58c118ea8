//! The engine that a series goes to.
ghost use Rattle.parting_laws.specs.Parted.{has_declared, has_pair};
ghost use Rattle.std.specs.Prelude.{◌≡◌, ◌<◌, [], false, length, true};
ghost use Rattle.test_runner.specs.Loads.{engine_of, is_placed};

use label_set::Labels;

/// Whether labels have a pair.
fn has_pair(labels: &Labels, name: &str, value: &str) -> bool
    ensures { result ≡ has_pair labels.now (name.now, value.now) }
{
    labels.get(name) == value
}

/// Whether labels have all that are declared.
fn has_declared(declared: &Labels, labels: &Labels) -> bool
    ensures { result ≡ has_declared declared.now labels.now }
{
    for i in 0..declared.len() {
        let (name, value) = declared.pair(i);
        if !has_pair(labels, name, value) {
            return false;
        }
    }
    true
}

/// The first of some declared labels that a series has, counted from 0.
pub(crate) fn engine_of(declared: &[Labels], labels: &Labels) -> Option<usize>
    ensures { result ≡ engine_of declared.now labels.now }
{
    declared
        .iter()
        .position(|names| has_declared(names, labels))
}

/// Whether a series has its place: at one of the engines, if any is declared.
pub(crate) fn is_placed(declared: &[Labels], labels: &Labels) -> bool
    ensures { result ≡ is_placed declared.now labels.now }
{
    match declared {
        [] => true,
        [_, ..] => engine_of(declared, labels).is_some(),
    }
}

/// Whether no engine is declared.
pub(crate) fn are_none(declared: &[Labels]) -> bool
    ensures none { result ≡ true → declared.now ≡ [] }
    ensures some { result ≡ false → 0 < length declared.now }
{
    match declared {
        [] => true,
        [_, ..] => false,
    }
}
