// What a view tells of the state and of single blocks and disks.
ghost use Rattle.std.specs.Prelude.{◌≡◌, ◌≤◌, length, slice_index};
ghost use Rattle.model.specs.View.{blocks, disk_of, is_free, lawful, may_go_out, missing, next_use, wanted_block};
ghost use Rattle.sheet.specs.Sheets.{meant};
ghost use Rattle.plan.specs.Headings.{side_of};
ghost use Rattle.planner.specs.Views.{shows};

use crate::view::View;
use plan::Heading;
use sheet::Sheet;

impl<'a> View<'a> {
    // The side on which the plan is made.
    #[tactic(auto, unfolding(crate::specs::Views::shows))]
    pub fn heading(&self) -> Heading
        ensures { side_of result ≡ (shows self.now).side }
    {
        self.heading
    }

    // The sheet that is planned for.
    #[tactic(auto, unfolding(crate::specs::Views::shows))]
    pub fn sheet(&self) -> Sheet<'a>
        ensures homes { (meant result).rack.homes ≡ (shows self.now).homes }
        ensures frames { (meant result).rack.frames ≡ (shows self.now).frames }
        ensures requests { (meant result).requests ≡ (shows self.now).requests }
    {
        self.sheet // the turned one, where that is planned for
    }

    // How many requests are served.
    #[tactic(auto, unfolding(crate::specs::Views::shows))]
    pub fn position(&self) -> usize
        ensures { result ≡ (shows self.now).position }
    {
        self.board.position
    }

    // How many blocks there are.
    #[tactic(auto, unfolding(crate::specs::Views::shows))]
    pub fn blocks(&self) -> u16
        ensures blocks { result ≡ blocks (shows self.now) }
        ensures few { result ≤ 1024 }
    {
        u16::try_from(self.sheet.rack().blocks()).unwrap()
    }

    // The block at the position, 0 where all requests are served.
    #[tactic(auto, using(crate::proofs::Shown::wanted_is))]
    pub fn wanted_block(&self) -> u16
        ensures { result ≡ wanted_block (shows self.now) }
    {
        self.sheet.request(self.board.position).unwrap_or(0)
    }

    // The disk of a block, 0 where there is no such block.
    #[tactic(auto, using(crate::proofs::Shown::home_is))]
    pub fn home(&self, block: u16) -> u8
        ensures { result ≡ slice_index (shows self.now).homes block }
    {
        self.sheet.rack().disk_of(block).unwrap_or(0)
    }

    // Whether a block is absent and not yet named at this boundary.
    #[tactic(auto, using(crate::proofs::Shown::missing_known, crate::proofs::Shown::missing_past))]
    pub fn is_missing(&self, block: u16) -> bool
        ensures { result ≡ missing (shows self.now) block }
    {
        block >= self.blocks() || self.board.places.is_away(block, self.board.boundary)
    }

    // Whether a block is resident and not yet named at this boundary.
    #[tactic(auto, using(crate::proofs::Shown::goes_known, crate::proofs::Shown::goes_past))]
    pub fn may_go_out(&self, block: u16) -> bool
        ensures { result ≡ may_go_out (shows self.now) block }
    {
        self.board.places.is_here(block, self.board.boundary) && block < self.blocks()
    }

    // Whether a disk carries nothing.
    #[tactic(auto, unfolding(crate::specs::Views::shows))]
    pub fn is_free(&self, disk: u8) -> bool
        ensures { result ≡ is_free (shows self.now) disk }
    {
        self.board.places.is_free(disk, self.board.boundary)
    }

    // The lowest position from the present one on that requests a block, the number of requests where none does.
    #[tactic(auto, using(crate::proofs::Shown::use_is, crate::proofs::Shown::use_past))]
    pub fn next_use(&self, block: u16) -> usize
        ensures { result ≡ next_use (shows self.now) block }
    {
        match self.uses.of(block) {
            Some(next) => usize::from(next),
            None => self.sheet.len(),
        }
    }

    // How many requests there are: the next use of a block that is not used again.
    #[tactic(auto, using(crate::proofs::Shown::length_is))]
    pub fn never(&self) -> usize
        ensures { result ≡ length (shows self.now).requests }
    {
        self.sheet.len() // later than all positions
    }

    // How many disks are told of: as many as a rack can have. Those that the rack lacks carry nothing.
    #[tactic(auto, using(crate::proofs::Shown::disks_are))]
    pub fn disks(&self) -> u8
        ensures { result ≡ length (shows self.now).free }
    {
        self.board.places.disks()
    }

    // The disk that an exchange of two blocks occupies.
    pub fn disk_of(&self, brings: u16, sends: u16) -> u8
        ensures { result ≡ disk_of (shows self.now) brings sends }
    {
        match self.heading() {
            Heading::Forward => self.home(brings),
            Heading::Backward => self.home(sends),
        }
    }

    // Whether an exchange of two blocks may start.
    pub fn is_lawful(&self, brings: u16, sends: u16) -> bool
        ensures { result ≡ lawful (shows self.now) brings sends }
    {
        brings < self.blocks()
            && self.is_missing(brings)
            && self.may_go_out(sends)
            && self.is_free(self.disk_of(brings, sends))
    }
}
