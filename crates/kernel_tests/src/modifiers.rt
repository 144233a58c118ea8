//! How rows of two sides are matched, as text.
use label_set::{Card, Items, Pairing, Text};
use std::alloc::Global;
use std::test::Fail;
use written_steps::names;

/// Matching by the labels behind `on=`, or by all but those behind `ignoring=`, and by all where nothing is written.
pub fn pairing(alloc: Global, text: &str, card: Card, extra: Items<Text>) -> Result<Pairing, Fail> {
    let (word, listed) = text.split_once('=').unwrap_or((text, ""));
    let on = word == "on";
    let names = names(alloc, listed)?;
    Ok(Pairing {
        on,
        names,
        card,
        extra,
    })
}
