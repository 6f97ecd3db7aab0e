ghost use Rattle.model.specs.Sheet.{RackFits};
ghost use Rattle.sheet.specs.Racks.{rack_with};

use crate::command::Geometry;
use crate::homes::Homes;

// The rack: how many disks and frames, the fetch time, and the disk of each block. Always within the limits.
#[derive(Clone, Copy, Debug)]
pub struct Rack {
    pub(crate) geometry: Geometry,
    pub(crate) homes: Homes,
    ghost fits: { RackFits (rack_with geometry homes) },
}
