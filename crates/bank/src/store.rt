// What holds a bank's blocks and knows the disk of each. Only this crate makes and asks stores.
ghost use Rattle.std.specs.Prelude.{◌≡◌, ℕ, ◌<◌, List, [], length, slice_index_or};
ghost use Rattle.std.specs.List.{slice_get};
ghost use Rattle.bank.specs.Meaning.{Sound, all_idle};
ghost use Rattle.bank.specs.Stored.{stored};

use crate::limits::BLOCK;

pub(crate) trait Store {
    // each block's bytes, in number order
    ghost contents: { Self → List (List ℕ) };

    // each block's disk, in number order
    ghost places: { Self → List ℕ };

    // the bank that it makes is sound
    ghost sound_at_rest: { (x : Self) → Sound (stored (contents x) (places x) 0 all_idle) };

    // A store that holds nothing.
    fn nothing() -> Self
        ensures contents { contents result ≡ [] }
        ensures places { places result ≡ [] };

    fn blocks(&self) -> u16
        ensures { result ≡ length (places self.now) };

    // The disk that a block lies on, or none where there is no such block.
    fn disk(&self, block: u16) -> Option<u8>
        ensures { result ≡ slice_get (places self.now) block };

    // Writes a block's bytes where they are wanted: a block that was had by value would be copied once more.
    fn read(&self, block: u16, into: &mut [u8; BLOCK])
        requires { block < length (places self.now) }
        ensures { into.new ≡ slice_index_or (contents self.now) block [] };
}
