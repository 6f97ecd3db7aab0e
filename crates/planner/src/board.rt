ghost use Rattle.std.specs.Prelude.{◌≡◌, ◌+◌, ◌≤◌, slice_set};
ghost use Rattle.model.specs.PlanBytes.{plan_limit};
ghost use Rattle.model.specs.declared.Mark.TheVariants.{Away, Here};
ghost use Rattle.model.specs.Sheet.{Sheet};
ghost use Rattle.model.specs.Timetable.{Side};
ghost use Rattle.planner.specs.Asked.{opens_for};
ghost use Rattle.planner.specs.Boards.{Stands};

use model::{Exchange, Mark};
use plan::Places;

// How far a pass has come, and where blocks and disks are.
#[derive(Clone, Copy, Debug)]
pub(crate) struct Board {
    pub(crate) position: usize,
    pub(crate) boundary: u32,
    pub(crate) places: Places,
}

impl Board {
    // Before the first step: the blocks of the opening are here, all others away.
    pub(crate) fn new(opening: &[u16]) -> Self
        ensures stands { (side : Side) (sheet : Sheet) → Stands result (opens_for side sheet opening.now) }
        ensures position { result.position ≡ 0 }
        ensures boundary { result.boundary ≡ 0 }
    {
        let mut places = Places::new();
        for &block in opening {
            places.set(block, Mark::Here(0));
        }
        Board {
            position: 0,
            boundary: 0,
            places,
        }
    }

    // An exchange starts: its block out is gone from this step on, its block in is here once it lands, and until then its disk is busy.
    pub(crate) fn start(&mut self, brings: u16, sends: u16, disk: u8, fetch: u8) -> Exchange
        requires { self.old.boundary ≤ plan_limit }
        ensures exchange { result ≡ record { brings = brings; sends = sends; start = self.old.boundary } }
        ensures position { self.new.position ≡ self.old.position }
        ensures boundary { self.new.boundary ≡ self.old.boundary }
        ensures marks { self.new.places.marks ≡ slice_set (slice_set self.old.places.marks sends (Away (self.old.boundary + 1))) brings (Here (self.old.boundary + fetch)) }
        ensures idle { self.new.places.idle ≡ slice_set self.old.places.idle disk (self.old.boundary + fetch) }
    {
        let start = self.boundary;
        let landing = start + u32::from(fetch);
        self.places.set(sends, Mark::Away(start + 1));
        self.places.set(brings, Mark::Here(landing));
        self.places.occupy(disk, landing);
        Exchange {
            brings,
            sends,
            start,
        }
    }
}
