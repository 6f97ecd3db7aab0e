// A bank of eight disks, whatever holds its blocks.
ghost use Rattle.std.specs.Prelude.{◌≡◌, ◌<◌, ◌≤◌, [], ◌++◌, length, drop, slice_index_or};
ghost use Rattle.bank.specs.Calls.{granted};
ghost use Rattle.bank.specs.Meaning.{all_idle, empty_bank};
ghost use Rattle.bank.specs.Stored.{stored, stored_sound, held};

use crate::bank::Bank;
use crate::drives::Drives;
use crate::fault::BankFault;
use crate::limits::BLOCK;
use crate::state::DiskState;
use crate::store::Store;

#[derive(Debug, Drop)]
pub struct DiskBank<S: Store> {
    store: S,
    drives: Drives,
    ghost counted: { drives.blocks ≡ length (S.places store) },
}

impl<S: Store + Drop> DiskBank<S> {
    // All disks idle.
    pub(crate) fn new(store: S, fetch: u8) -> Self
        ensures store { result.store ≡ store }
        ensures fetch { result.drives.fetch ≡ fetch }
        ensures idle { result.drives.list ≡ all_idle }
    {
        let blocks = store.blocks();
        DiskBank {
            store,
            drives: Drives::new(blocks, fetch),
        }
    }

    // A bank that holds nothing.
    pub fn empty() -> Self
        ensures { ⟦<DiskBank<S> as Bank>⟧.meaning result ≡ empty_bank }
    {
        DiskBank::new(S::nothing(), 0)
    }

    // Holds the store from now on, all disks idle. Where it was refused the bank is empty.
    pub(crate) fn hold(&mut self, store: Result<S, BankFault>, fetch: u8) -> Result<(), BankFault>
        ensures answer { result ≡ granted store }
        ensures after { ⟦<DiskBank<S> as Bank>⟧.meaning self.new ≡ held S.contents S.places store fetch }
    {
        *self = DiskBank::empty();
        *self = DiskBank::new(store?, fetch);
        Ok(())
    }
}

impl<S: Store> DiskBank<S> {
    // Writes a block's bytes over the first bytes of a buffer that has room for them.
    fn deliver(&self, block: u16, buffer: &mut [u8])
        requires there { block < length (S.places self.now.store) }
        requires room { 512 ≤ length buffer.old }
        ensures { buffer.new ≡ slice_index_or (S.contents self.now.store) block [] ++ drop 512 buffer.old }
    {
        let into = buffer.first_chunk_mut::<BLOCK>().unwrap();
        self.store.read(block, into);
    }
}

impl<S: Store> Bank for DiskBank<S> {
    ghost meaning = { λ b. stored (S.contents b.store) (S.places b.store) b.drives.fetch b.drives.list };

    ghost sound = { λ b. stored_sound (S.contents b.store) (S.places b.store) b.drives.fetch b.drives.list (S.sound_at_rest b.store) b.drives.eight };

    fn blocks(&self) -> u16 {
        self.drives.blocks()
    }

    fn disk(&self, block: u16) -> Option<u8> {
        self.store.disk(block)
    }

    fn fetch_time(&self) -> u8 {
        self.drives.fetch_time()
    }

    fn state(&self, disk: u8) -> Option<DiskState> {
        self.drives.state(disk)
    }

    #[tactic(auto, unfolding(crate::specs::Calls::start_answer, crate::specs::Calls::start_after))]
    fn start(&mut self, block: u16) -> Result<(), BankFault> {
        let disk = self.store.disk(block).ok_or(BankFault::NoSuchBlock)?;
        self.drives.start(disk, block)
    }

    fn tick(&mut self) {
        self.drives.tick();
    }

    #[tactic(auto, unfolding(crate::specs::Calls::collect_answer, crate::specs::Calls::collect_after, crate::specs::Calls::collect_buffer, crate::specs::Calls::ready_on))]
    fn collect(&mut self, disk: u8, buffer: &mut [u8]) -> Result<(), BankFault> {
        let block = self.drives.collect(disk, buffer.len())?;
        self.deliver(block, buffer);
        Ok(())
    }
}
