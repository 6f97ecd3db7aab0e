// How an accepted plan ends.
use crate::counts::Counts;
use crate::places::Places;

// What the plan counts, and where blocks and disks are at its last boundary.
#[derive(Clone, Copy)]
pub(crate) struct Ending {
    pub(crate) counts: Counts,
    pub(crate) places: Places,
}
