use label_set::Items;
use remote_api::Part;
use ticks::{Ms, Walk, WalkMoment};

/// What is asked of some engines: a part at the instants of a walk. A window ends at the moment that belongs to its instant and is
/// `range` milliseconds long; neither is read for another kind. The engines are counted from 0.
#[derive(Drop)]
pub(crate) struct Request {
    pub part: Part,
    pub walk: Walk,
    pub moment: WalkMoment,
    pub range: Ms,
    pub engines: Items<u32>,
}
