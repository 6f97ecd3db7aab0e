// The rebuilt bank: an array of disks of which one is lost, its blocks rebuilt from the others by parity.
ghost use Rattle.std.specs.Prelude.{◌≡◌, ◌+◌, ◌*◌, ◌<◌, ◌≤◌, length};
ghost use Rattle.bank.specs.Array.{spread, rebuilt_blocks};
ghost use Rattle.bank.specs.ArraySound.{array_sound};
ghost use Rattle.bank.specs.Meaning.{all_idle};
ghost use Rattle.bank.specs.Parity.{rows_of};
ghost use Rattle.bank.specs.Stored.{length_all_idle};

use crate::copy::block_of;
use crate::disk_bank::DiskBank;
use crate::layout::Layout;
use crate::limits::BLOCK;
use crate::store::Store;

mod load;
mod parity;

pub type RebuiltBank<'a> = DiskBank<Array<'a>>;

// The image holds the blocks in number order and then one parity block for each row.
#[derive(Debug, Drop)]
pub struct Array<'a> {
    image: &'a [u8],
    layout: Layout,
    ghost some: { 0 < layout.disks },
    ghost few: { layout.disks ≤ 8 },
    ghost matched: { length image.now ≡ 512 * (layout.blocks + rows_of layout) },
}

impl Store for Array<'_> {
    ghost contents = { λ a. rebuilt_blocks a.image.now a.layout };

    ghost places = { λ a. spread a.layout };

    ghost sound_at_rest = { λ a. array_sound a.image.now a.layout 0 all_idle length_all_idle a.some a.few a.matched };

    fn nothing() -> Self {
        let layout = Layout {
            blocks: 0,
            disks: 1,
            lost: 0,
        };
        Array { image: &[], layout }
    }

    #[tactic(auto, using(crate::specs::ArraySound::length_spread))]
    fn blocks(&self) -> u16 {
        self.layout.blocks
    }

    #[tactic(auto, using(crate::specs::ArraySound::length_spread, crate::proofs::Places::slice_get_spread, std::proofs::lemmas::Nat::mod_below, std::proofs::lemmas::Option::slice_get_past))]
    fn disk(&self, block: u16) -> Option<u8> {
        let layout = self.layout;
        if block < layout.blocks {
            u8::try_from(block % u16::from(layout.disks)).ok()
        } else {
            None
        }
    }

    // As it stands in the image, or rebuilt where it lay on the lost disk.
    #[tactic(auto, using(crate::specs::ArraySound::length_spread, crate::specs::ArraySound::get_or_rebuilt_blocks, crate::proofs::Places::row_below, crate::proofs::Places::rebuilt_kept), unfolding(crate::specs::Parity::rebuilt_block))]
    fn read(&self, block: u16, into: &mut [u8; BLOCK]) {
        let disks = u16::from(self.layout.disks);
        if block % disks == u16::from(self.layout.lost) {
            self.restore(block / disks, into);
        } else {
            *into = *block_of(self.image, usize::from(block));
        }
    }
}
