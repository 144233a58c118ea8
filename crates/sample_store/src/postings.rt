ghost use Rattle.label_set.specs.LabelEquality.{labels_eq};
ghost use Rattle.indexmap.specs.Layout.{set_value_at};
ghost use Rattle.sample_store.specs.Samples.{ArePostings, Pair, pair_eq, posted, put_entry};
ghost use Rattle.sample_store.specs.Listing.{list_at, noted, swept, taken_back};
ghost use Rattle.std.specs.List.{IsDistinct};
ghost use Rattle.std.specs.Map.{keys_of, lookup};
ghost use Rattle.std.specs.Prelude.{◌≡◌, ◌<◌, ◌++◌, ◌∷◌, ℕ, None, Some, [], length, slice_get, take, IfOk, OnErr, OnOk};

use crate::timeline::Timeline;
use holders::{Items, Text};
use indexmap::IndexMap;
use label_set::Labels;
use std::alloc::{AllocError, Global};

/// The rising numbers of the series of each pair of a label and its value, under that pair.
pub type Postings = IndexMap<(Text, Text), Items<u32>>;

/// A pair of texts of its own.
pub fn key_of(alloc: Global, name: &str, value: &str) -> Result<(Text, Text), AllocError>
    ensures { IfOk result (λ key. key ≡ (name.now, value.now)) }
{
    let label = Text::of(alloc, name)?;
    let text = Text::of(alloc, value)?;
    Ok((label, text))
}

/// Puts one more number behind the list at a place.
fn note_at(lists: &mut Postings, i: usize, place: u32) -> Result<(), AllocError>
    requires { i < length lists.old.entries }
    ensures ok { OnOk result (lists.new.entries ≡ set_value_at lists.old.entries i (list_at lists.old.entries i ++ place ∷ [])) }
    ensures err { OnErr result (lists.new.entries ≡ lists.old.entries) }
{
    let (_, list) = lists.pair_mut(i);
    list.push(place)
}

/// A list of one number, under a pair that has none.
fn note_first(
    alloc: Global,
    lists: &mut Postings,
    key: (Text, Text),
    place: u32,
) -> Result<(), AllocError>
    ensures ok { OnOk result (lists.new.entries ≡ put_entry pair_eq lists.old.entries key (place ∷ [])) }
    ensures err { OnErr result (lists.new.entries ≡ lists.old.entries) }
{
    let mut list = Items::with_capacity(alloc, 1)?;
    list.push(place)?;
    match lists.insert(key, list) {
        Ok(_) => Ok(()),
        Err(_) => Err(AllocError),
    }
}

/// Puts one more number behind the list of a pair. After an error the lists are as they were.
fn note(
    alloc: Global,
    lists: &mut Postings,
    key: (Text, Text),
    place: u32,
) -> Result<(), AllocError>
    ensures ok { OnOk result (lists.new.entries ≡ put_entry pair_eq lists.old.entries key (posted lists.old.entries key ++ place ∷ [])) }
    ensures err { OnErr result (lists.new.entries ≡ lists.old.entries) }
{
    let _many = lists.len();
    match lists.get_full(&key) {
        Some((i, _, _)) => note_at(lists, i, place),
        None => note_first(alloc, lists, key, place),
    }
}

/// Puts a number behind the list of a pair of some labels. After an error the lists are as they were.
fn note_pair(
    alloc: Global,
    lists: &mut Postings,
    labels: &Labels,
    i: usize,
    place: u32,
) -> Result<(), AllocError>
    requires { i < length labels.now }
    ensures ok { OnOk result ((pair : Pair) → slice_get labels.now i ≡ Some pair → lists.new.entries ≡ put_entry pair_eq lists.old.entries pair (posted lists.old.entries pair ++ place ∷ [])) }
    ensures err { OnErr result (lists.new.entries ≡ lists.old.entries) }
{
    let (name, value) = labels.pair(i);
    let key = key_of(alloc, name, value)?;
    note(alloc, lists, key, place)
}

/// Puts the number of a new series behind the lists of its pairs. The only error is want of memory; then some of the lists
/// may end with that number.
#[tactic(auto, using(crate::proofs::Taken::noted_step, crate::proofs::Taken::take_whole))]
fn note_pairs(
    alloc: Global,
    lists: &mut Postings,
    labels: &Labels,
    place: u32,
) -> Result<(), AllocError>
    ensures ok { OnOk result (lists.new.entries ≡ noted lists.old.entries labels.now place) }
    ensures err { OnErr result ((k : ℕ) × (lists.new.entries ≡ noted lists.old.entries (take k labels.now) place)) }
{
    for i in 0..labels.len() {
        note_pair(alloc, lists, labels, i, place)?;
    }
    Ok(())
}

/// Takes a number off the end of a list, if it stands there.
#[tactic(auto, using(crate::proofs::Taken::none_off, crate::proofs::Taken::end_kept, crate::proofs::Taken::taken_off))]
fn take_off(list: &mut Items<u32>, place: u32)
    ensures { list.new ≡ taken_back place list.old }
{
    let Some((last, _)) = list.as_slice().split_last() else {
        return;
    };
    if *last != place {
        return;
    }
    list.pop();
}

/// Takes a number off the end of the list at a place, if it stands there.
fn take_off_at(lists: &mut Postings, i: usize, place: u32)
    requires { i < length lists.old.entries }
    ensures { lists.new.entries ≡ set_value_at lists.old.entries i (taken_back place (list_at lists.old.entries i)) }
{
    let (_, list) = lists.pair_mut(i);
    take_off(list, place);
}

/// Takes a number off the ends of all lists. It takes no memory.
#[tactic(auto, using(crate::proofs::Taken::swept_step, crate::proofs::Taken::length_swept))]
fn take_back(lists: &mut Postings, place: u32)
    ensures { lists.new.entries ≡ swept place (length lists.old.entries) lists.old.entries }
{
    for i in 0..lists.len() {
        take_off_at(lists, i, place);
    }
}

/// Puts in a series, and its number behind the lists of its pairs. The only error is want of memory; then the series are as
/// they were, and the lists have the same numbers.
#[tactic(auto, using(crate::proofs::Taken::restored, crate::proofs::Taken::restored_whole, crate::proofs::Grows::grows_put))]
pub fn put_series(
    alloc: Global,
    series: &mut IndexMap<Labels, Timeline>,
    lists: &mut Postings,
    names: Labels,
    samples: Timeline,
) -> Result<(), AllocError>
    requires absent { lookup (labels_eq names) series.old.entries ≡ None }
    requires few { length series.old.entries < 100000 }
    requires listed { ArePostings series.old.entries lists.old.entries }
    ensures ok { OnOk result (series.new.entries ≡ put_entry labels_eq series.old.entries names samples) }
    ensures err { OnErr result (series.new.entries ≡ series.old.entries) }
    ensures distinct { IsDistinct labels_eq (keys_of series.new.entries) }
    ensures listed { ArePostings series.new.entries lists.new.entries }
{
    // Where their number is told, it is told too what labels are.
    let _ = names.len();
    let place = series.len() as u32;
    match note_pairs(alloc, lists, &names, place) {
        Ok(()) => {}
        Err(e) => {
            take_back(lists, place);
            return Err(e);
        }
    }
    match series.insert(names, samples) {
        Ok(_) => Ok(()),
        Err(_) => {
            take_back(lists, place);
            Err(AllocError)
        }
    }
}
