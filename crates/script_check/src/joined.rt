//! Texts with something behind them.
ghost use Rattle.label_set.specs.LabelText.{labels_text};
ghost use Rattle.std.specs.Prelude.{◌≡◌, ◌++◌, IfOk, OnErr, OnOk};

use label_set::Labels;
use std::alloc::{AllocError, Global};

fn both(alloc: Global, text: &str, behind: &[u8]) -> Result<Vec<u8>, AllocError>
    ensures { IfOk result (λ v. v.items ≡ text.now ++ behind.now) }
{
    let mut both = Vec::from_slice(alloc, text.as_bytes())?;
    both.extend_from_slice(behind)?;
    Ok(both)
}

/// Appends a text, and one behind it. The only error is want of memory; then nothing is appended.
pub fn append_both(text: &str, behind: &[u8], into: &mut Vec<u8>) -> Result<(), AllocError>
    ensures ok { OnOk result (into.new.items ≡ into.old.items ++ (text.now ++ behind.now)) }
    ensures err { OnErr result (into.new.items ≡ into.old.items) }
{
    let both = both(*into.allocator(), text, behind)?;
    into.extend_from_slice(both.as_slice())
}

/// Appends a text, and labels behind it. The only error is want of memory; then nothing is appended.
pub fn append_labelled(text: &str, labels: &Labels, into: &mut Vec<u8>) -> Result<(), AllocError>
    ensures ok { OnOk result (into.new.items ≡ into.old.items ++ (text.now ++ labels_text labels.now)) }
    ensures err { OnErr result (into.new.items ≡ into.old.items) }
{
    let mut behind = Vec::new(*into.allocator());
    labels.write(&mut behind)?;
    append_both(text, behind.as_slice(), into)
}
