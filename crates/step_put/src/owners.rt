//! Which own places more than one of the labels that are fed have, found once a feed.
ghost use Rattle.std.specs.List.{AllByRecursion};
ghost use Rattle.std.specs.Prelude.{◌≡◌, ◌<◌, [], OnErr, OnOk};
ghost use Rattle.step_put.specs.Clashes.{AreApart, is_single, is_single_at as is_noted_single, with_owner as one_more_owner};

use std::alloc::AllocError;

/// How many of the labels that are fed have an own place.
#[derive(Clone, Copy, Debug)]
pub(crate) enum Owners {
    Nobody,
    One,
    Several,
}

fn with_owner(owners: Owners) -> Owners
    ensures { result ≡ one_more_owner owners }
{
    match owners {
        Owners::Nobody => Owners::One,
        Owners::One => Owners::Several,
        Owners::Several => Owners::Several,
    }
}

/// Notes of so many places how many of the labels that are fed have each. The only error is want of memory; then nothing
/// is noted.
pub(crate) fn note(
    owners: &mut Vec<Owners>,
    count: usize,
    places: &[usize],
) -> Result<(), AllocError>
    requires { AllByRecursion (λ place. place < count) places.now }
    ensures apart { OnOk result (AreApart owners.new.items places.now) }
    ensures err { OnErr result (owners.new.items ≡ []) }
{
    owners.clear();
    owners.resize(count, Owners::Nobody)?;
    for place in places {
        owners[*place] = with_owner(owners[*place]);
    }
    Ok(())
}

/// Whether a place is noted as that of one labels alone.
pub(crate) fn is_single_at(owners: &[Owners], place: usize) -> bool
    ensures { result ≡ is_noted_single owners.now place }
{
    match owners.get(place) {
        Some(Owners::One) => true,
        _ => false,
    }
}
