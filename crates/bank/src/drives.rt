// The eight disks of a bank, each idle or fetching.
ghost use Rattle.std.specs.Prelude.{◌≡◌, ◌<◌, ◌≤◌, true, length, is_ok, IfOk, if◌then◌else◌, slice_index_or, slice_set};
ghost use Rattle.std.specs.List.{slice_get};
ghost use Rattle.bank.specs.declared.state.DiskState.TheVariants.{Idle, Busy};
ghost use Rattle.bank.specs.Fetching.{startable, ready, all_fetch_below, Same};
ghost use Rattle.bank.specs.Meaning.{all_idle};
ghost use Rattle.bank.specs.Ticking.{lowered_all};

use crate::fault::BankFault;
use crate::limits::{BLOCK, DISKS};
use crate::state::DiskState;

// They serve a number of blocks, and every fetch takes the same time.
#[derive(Debug, Drop)]
pub(crate) struct Drives {
    blocks: u16,
    fetch: u8,
    list: [DiskState; DISKS],
    // what is shown of a bank as a value, outside any function, does not know the length from the array's type
    ghost eight: { length list ≡ 8 },
    ghost there: { all_fetch_below blocks list ≡ true },
}

impl Drives {
    // All idle.
    #[tactic(auto, unfolding(crate::specs::Fetching::all_fetch_below, crate::specs::Meaning::all_idle))]
    pub(crate) fn new(blocks: u16, fetch: u8) -> Drives
        ensures blocks { result.blocks ≡ blocks }
        ensures fetch { result.fetch ≡ fetch }
        ensures idle { result.list ≡ all_idle }
    {
        let list = [DiskState::Idle; DISKS];
        Drives {
            blocks,
            fetch,
            list,
        }
    }

    pub(crate) fn state(&self, disk: u8) -> Option<DiskState>
        ensures { result ≡ slice_get self.now.list disk }
    {
        self.list.get(usize::from(disk)).copied()
    }

    pub(crate) fn blocks(&self) -> u16
        ensures { result ≡ self.now.blocks }
    {
        self.blocks
    }

    pub(crate) fn fetch_time(&self) -> u8
        ensures { result ≡ self.now.fetch }
    {
        self.fetch
    }

    // The disk fetches the block, if it is idle.
    pub(crate) fn start(&mut self, disk: u8, block: u16) -> Result<(), BankFault>
        requires disk { disk < 8 }
        requires block { block < self.old.blocks }
        ensures answer { result ≡ startable (slice_index_or self.old.list disk Idle) }
        ensures after { self.new.list ≡ (if is_ok result then slice_set self.old.list disk (Busy block self.old.fetch) else self.old.list) }
        ensures same { Same self.old.blocks self.old.fetch self.new.blocks self.new.fetch }
    {
        let place = usize::from(disk);
        let state = self.list[place];
        match state {
            DiskState::Idle => {
                self.list[place] = DiskState::Busy {
                    block,
                    left: self.fetch,
                };
                Ok(())
            }
            DiskState::Busy { .. } => Err(BankFault::DiskBusy),
        }
    }

    #[tactic(auto, using(crate::proofs::Fetches::ticked_fetch_below))]
    pub(crate) fn tick(&mut self)
        ensures after { self.new.list ≡ lowered_all self.old.list }
        ensures same { Same self.old.blocks self.old.fetch self.new.blocks self.new.fetch }
    {
        tick_each(&mut self.list);
    }

    // The block that lies ready on the disk, for a buffer of `room` bytes; the disk is idle then.
    #[tactic(auto, using(crate::proofs::Fetches::ready_below))]
    pub(crate) fn collect(&mut self, disk: u8, room: usize) -> Result<u16, BankFault>
        ensures answer { result ≡ ready (slice_index_or self.old.list disk Idle) room }
        ensures after { self.new.list ≡ (if is_ok result then slice_set self.old.list disk Idle else self.old.list) }
        ensures there { IfOk result (λ b. (b < self.old.blocks) × (512 ≤ room)) }
        ensures same { Same self.old.blocks self.old.fetch self.new.blocks self.new.fetch }
    {
        let place = usize::from(disk);
        let state = self.list.get(place).copied().unwrap_or(DiskState::Idle);
        let block = lies_ready(state, room)?;
        self.list[place] = DiskState::Idle;
        Ok(block)
    }
}

fn lies_ready(state: DiskState, room: usize) -> Result<u16, BankFault>
    ensures { result ≡ ready state room }
{
    match state {
        DiskState::Idle => Err(BankFault::NothingToCollect),
        DiskState::Busy { block, left } => {
            if left != 0 {
                Err(BankFault::NotDue)
            } else if room < BLOCK {
                Err(BankFault::BufferTooShort)
            } else {
                Ok(block)
            }
        }
    }
}

// Kept apart from `Drives`, whose invariant has to hold again only after the last disk.
#[tactic(auto, unfolding(crate::specs::Ticking::lowered_all))]
fn tick_each(states: &mut [DiskState])
    ensures { states.new ≡ lowered_all states.old }
{
    for state in states.iter_mut() {
        *state = state.ticked();
    }
}
