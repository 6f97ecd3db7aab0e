use crate::command::Geometry;
use crate::homes::Homes;
use crate::stage::Stage;

// What the commands of a sheet have said so far, but for the requests, which go into the caller's list.
// Zeros until a command says otherwise: `so_far` speaks of all fields at once, and a stage with its data would copy the homes each step.
#[derive(Clone, Copy, Debug)]
pub(crate) struct Draft {
    pub(crate) stage: Stage,
    pub(crate) name: [u8; 16],
    pub(crate) geometry: Geometry,
    pub(crate) homes: Homes,
}
