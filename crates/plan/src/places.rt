ghost use Rattle.std.specs.Prelude.{◌≡◌, false, length, map, nat_le, slice_index, slice_index_or, slice_set};
ghost use Rattle.model.specs.Verdict.{blank_marks, blank_idle, is_here_at, is_away_at, most_disks};
ghost use Rattle.model.specs.declared.Mark.TheVariants.{Away};

use model::Mark;
use sheet::MOST_BLOCKS;

// Where blocks and disks are. A block is here or away from some boundary on, and a disk is idle from some boundary on, so that nothing
// is to be done when a boundary is reached.
#[derive(Clone, Copy, Debug, PartialEq, Eq)]
pub struct Places {
    pub(crate) marks: [Mark; MOST_BLOCKS],
    pub(crate) idle: [u32; 8],
}

// A slot written, if there is such a slot.
// Tested by hand, because a write through `get_mut` leaves goals that do not close.
#[tactic(auto, using(std::proofs::lemmas::List::set_past))]
fn put<T: Copy>(slots: &mut [T], at: usize, value: T)
    ensures { slots.new ≡ slice_set slots.old at value }
{
    if at < slots.len() {
        slots[at] = value;
    }
}

impl Places {
    // Before the first command: each block is away, each disk is idle.
    #[tactic(auto, unfolding(model::specs::Verdict::blank_marks, model::specs::Verdict::blank_idle))]
    pub fn new() -> Self
        ensures marks { result.marks ≡ blank_marks }
        ensures idle { result.idle ≡ blank_idle }
    {
        Places {
            marks: [Mark::Away(0); MOST_BLOCKS],
            idle: [0; 8],
        }
    }

    // A block that does not exist is away.
    fn mark(&self, block: u16) -> Mark
        ensures { result ≡ slice_index_or self.now.marks block (Away 0) }
    {
        let mark = self.marks.get(usize::from(block)).copied();
        mark.unwrap_or(Mark::Away(0))
    }

    // Whether a block can be served and sent out at a boundary.
    pub fn is_here(&self, block: u16, boundary: u32) -> bool
        ensures { result ≡ is_here_at (slice_index_or self.now.marks block (Away 0)) boundary }
    {
        matches!(self.mark(block), Mark::Here(from) if from <= boundary)
    }

    // Whether a block can be brought in at a boundary.
    // Like `is_here` but for its pattern, which no parameter can stand for.
    pub fn is_away(&self, block: u16, boundary: u32) -> bool
        ensures { result ≡ is_away_at (slice_index_or self.now.marks block (Away 0)) boundary }
    {
        matches!(self.mark(block), Mark::Away(from) if from <= boundary)
    }

    // Whether a disk carries nothing at a boundary.
    pub fn is_idle(&self, disk: u8, boundary: u32) -> bool
        ensures { result ≡ nat_le (slice_index self.now.idle disk) boundary }
    {
        self.idle.get(usize::from(disk)).copied().unwrap_or(0) <= boundary
    }

    // How many disks are kept: as many as a rack can have.
    pub fn disks(&self) -> u8
        ensures disks { result ≡ length self.now.idle }
        ensures most { result ≡ most_disks }
    {
        u8::try_from(self.idle.len()).unwrap()
    }

    // Whether there is such a disk and it carries nothing at a boundary.
    #[tactic(auto, using(crate::proofs::Freed::is_freed))]
    pub fn is_free(&self, disk: u8, boundary: u32) -> bool
        ensures { result ≡ slice_index_or (map (λ from. nat_le from boundary) self.now.idle) disk false }
    {
        let from = self.idle.get(usize::from(disk)).copied();
        from.is_some_and(|from| from <= boundary)
    }

    // A block is here, or away, from a boundary on.
    pub fn set(&mut self, block: u16, mark: Mark)
        ensures marks { self.new.marks ≡ slice_set self.old.marks block mark }
        ensures idle { self.new.idle ≡ self.old.idle }
    {
        put(&mut self.marks, usize::from(block), mark);
    }

    // A disk is idle again from a boundary on.
    pub fn occupy(&mut self, disk: u8, until: u32)
        ensures marks { self.new.marks ≡ self.old.marks }
        ensures idle { self.new.idle ≡ slice_set self.old.idle disk until }
    {
        put(&mut self.idle, usize::from(disk), until);
    }
}
