// Which blocks are chosen for the opening: the first different ones in request order, then the lowest-numbered others.
ghost use Rattle.std.specs.Prelude.{◌≡◌, ◌+◌, ◌<◌, ◌≤◌, List as ListOf, [], ℕ, true, false, ◌||◌, ◌++◌, length, replicate, ◌==◌, nat_le, slice_index_or, slice_set};
ghost use Rattle.model.specs.Pass.{add_unless, each};
ghost use Rattle.model.specs.Timetable.{home};
ghost use Rattle.sheet.specs.Sheets.{meant};
ghost use Rattle.planner.specs.Openings.{Marks, first_of};

use crate::asking::block_at;
use sheet::{MOST_BLOCKS, Sheet};

// A mark for each block, and how many are marked.
#[derive(Clone, Copy)]
pub(crate) struct Chosen {
    pub(crate) is: [bool; MOST_BLOCKS],
    pub(crate) count: usize,
}

impl Chosen {
    #[tactic(auto, using(crate::proofs::Marking::none_marked))]
    fn none() -> Self
        ensures { Marks result.is result.count [] }
    {
        Chosen {
            is: [false; MOST_BLOCKS],
            count: 0,
        }
    }

    // Whether a block is chosen.
    pub(crate) fn has(&self, block: u16) -> bool
        ensures { result ≡ slice_index_or self.now.is block false }
    {
        self.is.get(usize::from(block)).copied().unwrap_or(false)
    }

    // One block more.
    fn choose(&mut self, block: u16)
        requires known { block < 1024 }
        requires few { self.old.count < 64 }
        ensures is { self.new.is ≡ slice_set self.old.is block true }
        ensures count { self.new.count ≡ self.old.count + 1 }
    {
        self.is[usize::from(block)] = true;
        self.count += 1;
    }

    // One block more, unless it is chosen or there are enough.
    fn add(&mut self, block: u16, enough: u8)
        requires known { block < 1024 }
        requires few { enough ≤ 64 }
        ensures { (found : ListOf ℕ) → Marks self.old.is self.old.count found → Marks self.new.is self.new.count (add_unless ((home found block == 1) || nat_le enough (length found)) block found) }
    {
        if self.has(block) {
            return;
        }
        if self.count >= usize::from(enough) {
            return;
        }
        self.choose(block);
    }

    // The first different blocks in request order.
    fn requested(sheet: Sheet) -> Self
        ensures { Marks result.is result.count (first_of (meant sheet.entry) (meant sheet.entry).requests) }
    {
        let mut chosen = Chosen::none();
        for position in 0..sheet.len() {
            chosen.add(block_at(sheet, position), sheet.rack().frames());
        }
        chosen
    }

    // These, then the lowest-numbered others.
    pub(crate) fn usual(sheet: Sheet) -> Self
        ensures { Marks result.is result.count (first_of (meant sheet.entry) ((meant sheet.entry).requests ++ each (λ block. block) (length (meant sheet.entry).rack.homes))) }
    {
        let mut chosen = Chosen::requested(sheet);
        for block in 0..u16::try_from(sheet.rack().blocks()).unwrap() {
            chosen.add(block, sheet.rack().frames());
        }
        chosen
    }
}
