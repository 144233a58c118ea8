ghost use Rattle.std.specs.List.Sorted.{IsPermutation};
ghost use Rattle.std.specs.Prelude.{◌≡◌, None, IsTrue};
ghost use Rattle.step_put.specs.Placed.{do_rise as slots_do_rise, is_behind as place_is_behind};

use step_batch::Slot;

fn is_behind(last: Option<usize>, place: usize) -> bool
    ensures { result ≡ place_is_behind last place }
{
    match last {
        None => true,
        Some(last) => last < place,
    }
}

/// Whether places rise.
fn do_rise(slots: &[Slot]) -> bool
    ensures { result ≡ slots_do_rise None slots.now }
{
    let mut last = None;
    for slot in slots {
        if !is_behind(last, slot.place) {
            return false;
        }
        last = Some(slot.place);
    }
    true
}

/// Puts values in the order of their places, and answers whether no two share one.
pub(crate) fn make_rise(slots: &mut Vec<Slot>) -> bool
    ensures order { IsPermutation slots.old.items slots.new.items }
    ensures rise { IsTrue result → IsTrue (slots_do_rise None slots.new.items) }
{
    if do_rise(slots.as_slice()) {
        return true;
    }
    slots.sort_unstable_by_key(|slot| slot.place);
    do_rise(slots.as_slice())
}
