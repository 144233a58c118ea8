//! What is kept of an ask.
ghost use Rattle.engine_local.specs.Listing.{Listing, Listing-prop};

use label_set::{Items, Text};
use remote_api::{Ask, Part};
use ticks::{Grid, Ms};

/// An ask: its part, what its steps have to be, the grid of its query, the patterns that were kept when it was made, how many of its
/// steps were given, and the instant of its walk that comes next, in milliseconds; there is none behind the last one. The list of the
/// walk's instants takes no memory: it stands in contracts alone.
#[derive(Drop)]
pub struct OwnAsk {
    pub part: Part,
    pub ask: Ask,
    pub span: Grid,
    pub kept: Items<(bool, Text)>,
    pub given: usize,
    pub next: Option<Ms>,
    pub ghost listing: { Listing ask.walk } by { Listing-prop ask.walk },
}
