//! Laws of what is lent. The functions do nothing: each stands for what its contract says.
ghost use Rattle.step_batch.specs.Laws.{FreePlacesAreFree, LentRowsAreTables, LentRowsAreThoseOfSlots, PlacesAreNotSeen, SortedRowsAreTables};

use step_table::order_laws::rows_ignore_order;

/// The rows of a lent step are those of its slots in the order of labels, no two with equal labels.
pub fn lent_steps_are_tables()
    ensures table { LentRowsAreTables }
    ensures rows { LentRowsAreThoseOfSlots }
    ensures sorted { SortedRowsAreTables }
{}

/// A lent step doesn't depend on the order in which labels got their places.
pub fn places_are_not_seen()
    ensures { PlacesAreNotSeen }
{
    rows_ignore_order();
}

/// Where all slots of the last step stand before a place, it and the later ones are free.
pub fn free_places_are_free()
    ensures { FreePlacesAreFree }
{}
