// Commands of a plan, written into an area.
ghost use Rattle.std.specs.Prelude.{◌≡◌, ℕ, ◌≤◌, List as ListOf, [], ◌∷◌, ◌++◌, length, IsTrue, ◌↔◌};
ghost use Rattle.model.specs.PlanBytes.{so_far};
ghost use Rattle.model.specs.declared.Command.{Command as Order};
ghost use Rattle.plan.specs.Endings.{here_at, staying};
ghost use Rattle.plan.specs.Writers.{Wrote, Said};

use crate::ending::Ending;
use crate::writer::Writer;
use model::Command;

impl Ending {
    // Whether a block is here at the last boundary.
    fn stays(&self, block: u16) -> bool
        ensures { result ≡ here_at self.now.places self.now.counts.steps block }
    {
        self.places.is_here(block, self.counts.steps)
    }
}

impl<'a> Writer<'a> {
    // Nothing is written yet.
    pub(crate) fn new(area: &'a mut [u8]) -> Self
        ensures none { Wrote [] area.old result }
        ensures lent { result.area.ghost_name ≡ area.entry.ghost_name }
    {
        Writer { area, count: 0 }
    }
}

impl Writer<'_> {
    // One byte more; past the area's end it is only counted.
    fn put(&mut self, byte: u8)
        ensures more { (bytes area : ListOf ℕ) → Wrote bytes area self.old → Wrote (bytes ++ byte ∷ []) area self.new }
        ensures lent { self.new.area.ghost_name ≡ self.old.area.ghost_name }
    {
        if self.count < self.area.len() {
            self.area[self.count] = byte;
        }
        self.count = self.count.saturating_add(1);
    }

    // Some bytes more.
    fn put_all(&mut self, more: &[u8])
        ensures more { (bytes area : ListOf ℕ) → Wrote bytes area self.old → Wrote (bytes ++ more.now) area self.new }
        ensures lent { self.new.area.ghost_name ≡ self.old.area.ghost_name }
    {
        for &byte in more {
            self.put(byte);
        }
    }

    // One command more.
    pub(crate) fn write(&mut self, command: Command)
        ensures more { (cs : ListOf Order) (area : ListOf ℕ) → Said cs area self.old → Said (cs ++ command ∷ []) area self.new }
        ensures lent { self.new.area.ghost_name ≡ self.old.area.ghost_name }
    {
        match command {
            Command::Opens(block) => {
                let [low, high] = block.to_le_bytes();
                self.put_all(&[b'O', low, high]);
            }
            Command::Trades(brings, sends) => {
                let ([a, b], [c, d]) = (brings.to_le_bytes(), sends.to_le_bytes());
                self.put_all(&[b'X', a, b, c, d]);
            }
            Command::Serves => self.put_all(b"S"),
            Command::Waits => self.put_all(b"W"),
            Command::Ends => self.put_all(b"E"),
        }
    }

    // As an opening, the blocks that are here at an ending, of so many.
    pub(crate) fn open(&mut self, ending: &Ending, blocks: u16)
        ensures more { (area : ListOf ℕ) → Said [] area self.old → Said (so_far (staying ending.now blocks) [] []) area self.new }
        ensures lent { self.new.area.ghost_name ≡ self.old.area.ghost_name }
    {
        for block in 0..blocks {
            if ending.stays(block) {
                self.write(Command::Opens(block));
            }
        }
    }

    // Whether there was room for all bytes.
    pub(crate) fn had_room(&self) -> bool
        ensures { (bytes area : ListOf ℕ) → Wrote bytes area self.now → IsTrue result ↔ (length bytes ≤ length area) }
    {
        self.count <= self.area.len()
    }
}
