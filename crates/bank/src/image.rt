// The image bank: blocks as they stand in a recording, with a list that gives each block's disk.
ghost use Rattle.std.specs.Prelude.{◌≡◌, ℕ, ◌*◌, ◌<◌, ◌≤◌, length, slice_index};
ghost use Rattle.bank.specs.Meaning.{all_idle};
ghost use Rattle.bank.specs.Recording.{blocks_of};
ghost use Rattle.bank.specs.RecordingSound.{recorded_sound};
ghost use Rattle.bank.specs.Stored.{length_all_idle};

use crate::copy::block_of;
use crate::disk_bank::DiskBank;
use crate::limits::BLOCK;
use crate::store::Store;

mod load;

pub type ImageBank<'a> = DiskBank<Recording<'a>>;

#[derive(Debug, Drop)]
pub struct Recording<'a> {
    bytes: &'a [u8],
    disks: &'a [u8],
    ghost few: { length disks.now ≤ 1024 },
    ghost placed: { (b : ℕ) → b < length disks.now → slice_index disks.now b < 8 },
    ghost matched: { length bytes.now ≡ 512 * length disks.now },
}

impl Store for Recording<'_> {
    ghost contents = { λ r. blocks_of r.bytes.now (length r.disks.now) };

    ghost places = { λ r. r.disks.now };

    ghost sound_at_rest = { λ r. recorded_sound r.bytes.now r.disks.now 0 all_idle length_all_idle r.matched r.placed };

    fn nothing() -> Self {
        Recording {
            bytes: &[],
            disks: &[],
        }
    }

    fn blocks(&self) -> u16 {
        u16::try_from(self.disks.len()).unwrap()
    }

    fn disk(&self, block: u16) -> Option<u8> {
        self.disks.get(usize::from(block)).copied()
    }

    #[tactic(auto, using(crate::specs::RecordingSound::get_or_blocks_of))]
    fn read(&self, block: u16, into: &mut [u8; BLOCK]) {
        *into = *block_of(self.bytes, usize::from(block));
    }
}
