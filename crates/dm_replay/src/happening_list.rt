//! Lists of happenings.
use dm_wire::Listed;
use dm_world::Happening;

/// What happens, in order.
pub type HappeningList = Listed<Happening>;
