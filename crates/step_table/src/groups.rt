ghost use Rattle.std.specs.List.{filter_map};
ghost use Rattle.std.specs.Option.{option_to_list};
ghost use Rattle.std.specs.Prelude.{◌≡◌, ◌++◌, ◌∷◌, [], IfOk, OnErr, OnOk};
ghost use Rattle.step_table.specs.Groups.{alone, gathered, lone_items, shared_names, shared_of, with_item};

use label_set::{Items, Labels};
use std::alloc::{AllocError, Global};
use std::collections::BTreeMap;

/// Adds an item to those that have its labels, behind them. The only error is want of memory; then the groups are as they
/// were.
pub fn add<T: Drop>(
    groups: &mut BTreeMap<Labels, Items<T>>,
    alloc: Global,
    labels: Labels,
    item: T,
) -> Result<(), AllocError>
    ensures one_more { OnOk result (groups.new.entries ≡ with_item groups.old.entries labels item) }
    ensures gathered { OnOk result ((items : _) → groups.old.entries ≡ gathered items → groups.new.entries ≡ gathered (items ++ (labels, item) ∷ [])) }
    ensures err { OnErr result (groups.new.entries ≡ groups.old.entries) }
{
    if let Some(items) = groups.get_mut(&labels) {
        items.push(item)?;
        return Ok(());
    }
    let mut items = Items::new(alloc);
    items.push(item)?;
    groups.insert(labels, items)?;
    Ok(())
}

/// The items by their labels: for all labels that an item has, in the order of labels, the items that have these
/// labels, in their order. The only error is want of memory.
pub fn gather<T: Drop>(
    alloc: Global,
    items: Items<(Labels, T)>,
) -> Result<BTreeMap<Labels, Items<T>>, AllocError>
    ensures { IfOk result (λ groups. groups.entries ≡ gathered items) }
{
    let mut groups = BTreeMap::new(alloc);
    for (labels, item) in items.into_vec() {
        add(&mut groups, alloc, labels, item)?;
    }
    Ok(groups)
}

/// Items that share their labels with no other, and the labels that items share, both in the order of labels.
#[derive(Drop)]
pub struct Parted<T> {
    pub lone: Items<T>,
    pub shared: Items<Labels>,
}

/// Parts the items that share their labels with no other from the labels that items share. The only error is want of
/// memory.
pub fn part<T: Drop>(alloc: Global, items: Items<(Labels, T)>) -> Result<Parted<T>, AllocError>
    ensures lone { IfOk result (λ parted. parted.lone ≡ lone_items items) }
    ensures shared { IfOk result (λ parted. parted.shared ≡ shared_names items) }
{
    part_groups(alloc, gather(alloc, items)?)
}

/// Parts the items that are alone in their group from the labels of groups of several items. The only error is want of
/// memory.
pub fn part_groups<T: Drop>(
    alloc: Global,
    groups: BTreeMap<Labels, Items<T>>,
) -> Result<Parted<T>, AllocError>
    ensures lone { IfOk result (λ parted. parted.lone ≡ filter_map (λ group. alone group.1) groups.entries) }
    ensures shared { IfOk result (λ parted. parted.shared ≡ filter_map shared_of groups.entries) }
{
    let mut parted = Parted {
        lone: Items::new(alloc),
        shared: Items::new(alloc),
    };
    for (labels, group) in groups {
        add_group(&mut parted, labels, group)?;
    }
    Ok(parted)
}

/// Adds the items that have some labels.
fn add_group<T: Drop>(
    parted: &mut Parted<T>,
    labels: Labels,
    group: Items<T>,
) -> Result<(), AllocError>
    ensures lone { OnOk result (parted.new.lone ≡ parted.old.lone ++ option_to_list (alone group)) }
    ensures shared { OnOk result (parted.new.shared ≡ parted.old.shared ++ option_to_list (shared_of (labels, group))) }
{
    let mut group = group;
    if group.as_slice().len() > 1 {
        return parted.shared.push(labels);
    }
    match group.pop() {
        Some(item) => parted.lone.push(item),
        None => Ok(()),
    }
}
