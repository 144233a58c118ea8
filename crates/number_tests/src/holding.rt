use holders::{Boxed, Items, Text};
use std::alloc::{AllocError, Global};
use std::cmp::Ordering;
use std::test::Fail;

fn words(alloc: Global) -> Result<Items<Text>, AllocError> {
    let mut words = Items::new(alloc);
    words.push(Text::of(alloc, "up")?)?;
    words.push(Text::of(alloc, "upper")?)?;
    Ok(words)
}

/// Two lists that are alike, with an empty one between.
fn lines(alloc: Global) -> Result<Items<Items<Text>>, AllocError> {
    let words = words(alloc)?;
    let mut lines = Items::new(alloc);
    lines.push(words.copy()?)?;
    lines.push(Items::new(alloc))?;
    lines.push(words)?;
    Ok(lines)
}

fn are_lines_copied(alloc: Global) -> Result<bool, AllocError> {
    let mut lines = lines(alloc)?;
    let copy = lines.copy()?;
    Ok(copy == lines && lines.pop() == copy.into_vec().pop())
}

fn are_boxes_copied(alloc: Global) -> Result<bool, AllocError> {
    let boxed = Boxed::new(alloc, lines(alloc)?)?;
    Ok(boxed.copy()? == boxed && boxed.clone()? == boxed)
}

#[test]
fn lists_of_lists_are_copied(rt: HostRuntime) -> Result<(), Fail> {
    assert!(rt; are_lines_copied(rt.alloc())? && are_boxes_copied(rt.alloc())?);
    Ok(())
}

fn do_lists_change(alloc: Global) -> Result<bool, AllocError> {
    let mut items: Items<u8> = Items::new(alloc);
    items.push(1)?;
    items.insert(0, 2)?;
    items.extend_from_slice([3, 4, 5].as_slice())?;
    if items.as_slice() != [2, 1, 3, 4, 5].as_slice() || items.pop() != Some(5) {
        return Ok(false);
    }
    let were = (items.replace(0, 7), items.remove(1));
    Ok(were == (2, 1) && items.as_slice() == [7, 3, 4].as_slice())
}

fn do_boxes_change(alloc: Global) -> Result<bool, AllocError> {
    let items: Items<u8> = Items::new(alloc);
    let mut boxed = Boxed::new(items.allocator(), 4u8)?;
    *boxed.get_mut() = 5;
    Ok(boxed.into_inner() == 5)
}

fn are_texts_copied(alloc: Global) -> Result<bool, AllocError> {
    let up = Text::of(alloc, "up")?;
    let upper = Text::of(alloc, "upper")?;
    Ok(up.as_str() == "up" && up.copy()? == up && up.cmp(&upper) == Ordering::Less)
}

#[test]
fn lists_and_boxes_change(rt: HostRuntime) -> Result<(), Fail> {
    let alloc = rt.alloc();
    assert!(rt; do_lists_change(alloc)? && do_boxes_change(alloc)? && are_texts_copied(alloc)?);
    Ok(())
}
