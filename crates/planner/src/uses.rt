ghost use Rattle.std.specs.Prelude.{◌≡◌, ◌+◌, ◌<◌, ◌≤◌, length, replicate, MatchOption, slice_index, slice_set};
ghost use Rattle.sheet.specs.Sheets.{meant};
ghost use Rattle.planner.specs.Uses.{Indexes};

use crate::asking::block_at;
use sheet::{MOST_BLOCKS, MOST_REQUESTS, Sheet};

// The index of next uses: for each block its next use from the position reached on, and for each position the next one of the same block. The number of requests stands for never.
// No option: never is later than every position, so that the numbers compare as the uses do. The positions of a block are
// chained through an array by index, since nothing here allocates.
#[derive(Clone, Copy, Debug)]
pub(crate) struct NextUses {
    pub(crate) next: [u16; MOST_BLOCKS],
    pub(crate) after: [u16; MOST_REQUESTS],
}

impl NextUses {
    // No block is used before this position.
    fn blank(never: u16) -> Self
        ensures { result.next ≡ replicate 1024 never }
    {
        NextUses {
            next: [never; MOST_BLOCKS],
            after: [never; MOST_REQUESTS],
        }
    }

    // A block is used at a position, and after it where it was to be used next.
    fn add(&mut self, position: usize, block: u16)
        requires known { block < 1024 }
        requires within { position < 4096 }
        ensures next { self.new.next ≡ slice_set self.old.next block position }
        ensures after { self.new.after ≡ slice_set self.old.after position (slice_index self.old.next block) }
    {
        let block = usize::from(block);
        self.after[position] = self.next[block];
        self.next[block] = u16::try_from(position).unwrap();
    }

    // A block's use at a position lies behind.
    fn remove(&mut self, position: usize, block: u16)
        requires known { block < 1024 }
        requires within { position < 4096 }
        ensures next { self.new.next ≡ slice_set self.old.next block (slice_index self.old.after position) }
        ensures after { self.new.after ≡ self.old.after }
    {
        self.next[usize::from(block)] = self.after[position];
    }

    // Where a block is used next, if there is such a block.
    pub(crate) fn of(&self, block: u16) -> Option<u16>
        ensures { MatchOption result (1024 ≤ block) (λ next. (block < 1024) × (next ≡ slice_index self.now.next block)) }
    {
        self.next.get(usize::from(block)).copied()
    }

    // Past the last request no block is used again.
    fn none(sheet: Sheet) -> Self
        ensures { Indexes (meant sheet.entry).requests (length (meant sheet.entry).requests) result.next result.after }
    {
        // a cast, which at most 4,096 requests survive: a conversion adds a step that the proof would have to name
        NextUses::blank(sheet.len() as u16)
    }

    // One request more at the front.
    fn note(&mut self, sheet: Sheet, position: usize)
        requires index { Indexes (meant sheet).requests (position + 1) self.old.next self.old.after }
        requires within { position < length (meant sheet).requests }
        ensures { Indexes (meant sheet.entry).requests position self.new.next self.new.after }
    {
        self.add(position, block_at(sheet, position));
    }

    // Before the first step. Requests are noted from the last to the first, so that each finds the next one of its block.
    pub(crate) fn new(sheet: Sheet) -> Self
        ensures { Indexes (meant sheet.entry).requests 0 result.next result.after }
    {
        let mut uses = NextUses::none(sheet);
        for position in (0..sheet.len()).rev() {
            uses.note(sheet, position);
        }
        uses
    }

    // The request at a position is served.
    pub(crate) fn pass(&mut self, sheet: Sheet, position: usize)
        requires index { Indexes (meant sheet).requests position self.old.next self.old.after }
        requires within { position < length (meant sheet).requests }
        ensures { Indexes (meant sheet.entry).requests (position + 1) self.new.next self.new.after }
    {
        self.remove(position, block_at(sheet, position));
    }
}
