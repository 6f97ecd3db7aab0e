// The block that a view finds for a rule: of those that pass a test the one that is used next, or last. Both look at each block once and at
// no request; a loop over the frames, or a first missing block kept for each disk, would tell the same sooner, and is not as plain.
ghost use Rattle.std.specs.Prelude.{◌≡◌, ℕ, Bool};
ghost use Rattle.model.specs.View.{better, blocks, first_from, first_missing, first_missing_on, latest, latest_of, latest_on, lawful, next_use, requested_at};
ghost use Rattle.planner.specs.Tests.{Tells};
ghost use Rattle.planner.specs.Views.{shows};

use crate::view::View;

impl View<'_> {
    // Of a block found before and one more the one with the later next use; the first keeps a tie.
    pub(crate) fn later(&self, best: Option<u16>, block: u16) -> Option<u16>
        ensures { result ≡ better (next_use (shows self.now)) block best }
    {
        match best {
            Some(found) if self.next_use(found) >= self.next_use(block) => best,
            _ => Some(block),
        }
    }

    // Of the blocks that may go out and pass a test the one with the latest next use.
    fn latest_of<F: Fn(u16) -> bool>(&self, passes: F) -> Option<u16>
        requires { F.IsAlwaysCallable passes }
        ensures { (p : ℕ → Bool) → Tells F.post passes (blocks (shows self.now)) p → result ≡ latest_of (shows self.now) p }
    {
        let mut best = None;
        for block in 0..self.blocks() {
            if !self.may_go_out(block) || !passes(block) {
                continue;
            }
            best = self.later(best, block);
        }
        best
    }

    // Of the blocks that pass a test the one that is requested first, from the present position on.
    fn first_of<F: Fn(u16) -> bool>(&self, passes: F) -> Option<u16>
        requires { F.IsAlwaysCallable passes }
        ensures { (p : ℕ → Bool) → Tells F.post passes (blocks (shows self.now)) p → result ≡ requested_at (shows self.now) (first_from (shows self.now) p) }
    {
        let mut first = self.sheet.len();
        for block in 0..self.blocks() {
            let next = self.next_use(block);
            if next >= first {
                continue;
            }
            if !passes(block) {
                continue;
            }
            first = next;
        }
        self.sheet.request(first)
    }

    // The first missing block.
    pub fn first_missing(&self) -> Option<u16>
        ensures { result ≡ first_missing (shows self.now) }
    {
        self.first_of(|block| self.is_missing(block))
    }

    // The same of the blocks of one disk.
    pub fn first_missing_on(&self, disk: u8) -> Option<u16>
        ensures { result ≡ first_missing_on (shows self.now) disk }
    {
        self.first_of(|block| self.is_missing(block) && self.home(block) == disk)
    }

    // The resident block with the latest next use.
    pub fn latest(&self) -> Option<u16>
        ensures { result ≡ latest (shows self.now) }
    {
        self.latest_of(|_| true)
    }

    // The same of the blocks of one disk.
    pub fn latest_on(&self, disk: u8) -> Option<u16>
        ensures { result ≡ latest_on (shows self.now) disk }
    {
        self.latest_of(|block| self.home(block) == disk)
    }

    // The same of the blocks that a block may come in for.
    pub fn latest_lawful(&self, brings: u16) -> Option<u16>
        ensures { result ≡ latest_of (shows self.now) (λ block. lawful (shows self.now) brings block) }
    {
        self.latest_of(|block| self.is_lawful(brings, block))
    }
}
