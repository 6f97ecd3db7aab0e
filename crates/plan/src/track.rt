ghost use Rattle.std.specs.Prelude.{◌≤◌};
ghost use Rattle.model.specs.PlanBytes.{plan_limit};

use crate::places::Places;
use model::Phase;

// Where a plan has come, but for its exchanges, which go into the caller's list.
#[derive(Clone, Copy, Debug)]
pub(crate) struct Track {
    pub(crate) phase: Phase,
    pub(crate) opened: usize,
    pub(crate) floor: usize,
    pub(crate) position: usize,
    pub(crate) boundary: u32,
    pub(crate) waits: u32,
    pub(crate) landing: u32,
    pub(crate) places: Places,
    ghost some_wait: { waits ≤ boundary },
    // a plan has no more steps than bytes
    ghost few_steps: { boundary ≤ plan_limit },
}
