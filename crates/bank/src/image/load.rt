// Loading an image bank.
ghost use Rattle.std.specs.Prelude.{◌≡◌, ◌≤◌, true, length, IfOk};
ghost use Rattle.bank.specs.Calls.{granted};
ghost use Rattle.bank.specs.Image.{image_meaning};
ghost use Rattle.bank.specs.Limits.{all_below};
ghost use Rattle.bank.specs.RecordingLoad.{recording_limits, recording_answer, recording_loaded};

use crate::bank::Bank;
use crate::disk_bank::DiskBank;
use crate::fault::BankFault;
use crate::image::{ImageBank, Recording};
use crate::limits::{BLOCK, DISKS, count_fits, fetch_fits};

impl<'a> DiskBank<Recording<'a>> {
    // Holds the recording from now on, with one disk byte for each block and all disks idle. After a refusal
    // the bank is empty.
    #[tactic(auto, using(crate::proofs::Loads::loads))]
    pub fn load(&mut self, recording: &'a [u8], disks: &'a [u8], fetch: u8) -> Result<(), BankFault>
        ensures answer { result ≡ recording_answer recording.now disks.now fetch }
        ensures after { image_meaning self.new ≡ recording_loaded recording.now disks.now fetch }
        // what the calls of a bank speak of is this meaning
        ensures told { ⟦<ImageBank<'a> as Bank>⟧.meaning self.new ≡ image_meaning self.new }
    {
        self.hold(Recording::new(recording, disks, fetch), fetch)
    }
}

impl<'a> Recording<'a> {
    // Limits are told before lengths. Each store judges for itself: how many bytes are wanted can be said only once
    // its own limits hold.
    #[tactic(auto, using(crate::proofs::Loads::loads), unfolding(crate::specs::RecordingLoad::recording_limits))]
    fn new(bytes: &'a [u8], disks: &'a [u8], fetch: u8) -> Result<Recording<'a>, BankFault>
        ensures answer { granted result ≡ recording_answer bytes.now disks.now fetch }
        ensures made { IfOk result (λ r. (r.bytes.now ≡ bytes.now) × (r.disks.now ≡ disks.now)) }
    {
        if !(count_fits(disks.len()) && fetch_fits(fetch) && all_placed(disks)) {
            return Err(BankFault::OutsideLimits);
        }
        if bytes.len() != BLOCK * disks.len() {
            return Err(BankFault::LengthsDiffer);
        }
        Ok(Recording { bytes, disks })
    }
}

// Whether each block's disk is one of the eight.
fn all_placed(disks: &[u8]) -> bool
    ensures { result ≡ all_below 8 disks.now }
{
    disks.iter().all(|&disk| usize::from(disk) < DISKS)
}
