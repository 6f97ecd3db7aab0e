// Rebuilding a block from the others of its row and the row's parity block.
ghost use Rattle.std.specs.Prelude.{◌≡◌, ℕ, ◌<◌, bit_xor, slice_index};
ghost use Rattle.bank.specs.Parity.{rows_of, place_folded, restored_block};

use crate::copy::block_of;
use crate::limits::BLOCK;
use crate::rebuilt::Array;

impl Array<'_> {
    // Writes the lost disk's block of a row.
    pub(crate) fn restore(&self, row: u16, block: &mut [u8; BLOCK])
        requires { row < rows_of self.now.layout }
        ensures { block.new ≡ restored_block self.now.image.now self.now.layout row }
    {
        let parity = usize::from(self.layout.blocks) + usize::from(row);
        *block = *block_of(self.image, parity);
        for place in 0..self.layout.disks {
            self.fold_place(row, place, block);
        }
    }

    // Folds the block at one place of a row into a block. The lost disk's place is passed over, and so are the
    // zeros past the last block, which would change nothing.
    #[tactic(auto, using(crate::proofs::Places::get_or_block_at))]
    fn fold_place(&self, row: u16, place: u8, block: &mut [u8; BLOCK])
        ensures { (k : ℕ) → k < 512 → slice_index block.new k ≡ place_folded self.now.image.now self.now.layout row place k (slice_index block.old k) }
    {
        if place == self.layout.lost {
            return;
        }
        let at = usize::from(row) * usize::from(self.layout.disks) + usize::from(place);
        if at < usize::from(self.layout.blocks) {
            fold(block, block_of(self.image, at));
        }
    }
}

// Folds one block into another by exclusive or.
fn fold(block: &mut [u8; BLOCK], other: &[u8; BLOCK])
    ensures { (k : ℕ) → k < 512 → slice_index block.new k ≡ bit_xor (slice_index block.old k) (slice_index other.now k) }
{
    // by index: what is known of a `zip` over the two could not name what the block holds so far
    for (i, byte) in block.iter_mut().enumerate() {
        *byte ^= other[i];
    }
}
