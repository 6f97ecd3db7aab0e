ghost use Rattle.std.specs.Prelude.{◌≤◌};

use crate::chosen::Chosen;
use sheet::Sheet;

// A rack has at most this many frames.
const MOST_FRAMES: usize = 64;

// The opening content of a plan: blocks, rising, at most as many as a rack can have frames.
#[derive(Clone, Copy)]
pub struct Opening {
    pub(crate) slots: [u16; MOST_FRAMES],
    pub(crate) len: usize,
    ghost few: { len ≤ 64 },
}

impl Opening {
    ghost use Rattle.std.specs.Prelude.{◌≡◌, ◌<◌, [], ◌∷◌, ◌++◌, length};
    ghost use Rattle.model.specs.Pass.{usual_opening};
    ghost use Rattle.sheet.specs.Sheets.{meant};
    ghost use Rattle.planner.specs.Openings.{opened};

    // No block yet.
    fn new() -> Self
        ensures { opened result ≡ [] }
    {
        Opening {
            slots: [0; MOST_FRAMES],
            len: 0,
        }
    }

    // One block more.
    fn push(&mut self, block: u16)
        requires { length (opened self.old) < 64 }
        ensures { opened self.new ≡ opened self.old ++ block ∷ [] }
    {
        self.slots[self.len] = block;
        self.len += 1;
    }

    // The blocks, rising.
    pub fn blocks(&self) -> &[u16]
        ensures { result.now ≡ opened self.now }
    {
        &self.slots[0..self.len]
    }

    // The usual opening of a sheet.
    pub fn usual(sheet: Sheet) -> Self
        ensures { opened result ≡ usual_opening (length (meant sheet.entry).rack.homes) (meant sheet.entry).rack.frames (meant sheet.entry).requests }
    {
        let chosen = Chosen::usual(sheet);
        let mut opening = Opening::new();
        // a cast, which at most 1,024 blocks survive: a conversion adds a step that the proof would have to name
        for block in 0..sheet.rack().blocks() as u16 {
            if !chosen.has(block) {
                continue;
            }
            opening.push(block);
        }
        opening
    }
}
