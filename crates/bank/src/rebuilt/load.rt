// Loading a rebuilt bank.
ghost use Rattle.std.specs.Prelude.{◌≡◌, ℕ, ◌*◌, List, length, Ok, IfOk};
ghost use Rattle.bank.specs.Array.{spread};
ghost use Rattle.bank.specs.ArrayLoad.{array_limits, array_answer, array_loaded};
ghost use Rattle.bank.specs.Calls.{granted};
ghost use Rattle.bank.specs.Rebuilt.{rebuilt_meaning};
ghost use Rattle.bank.specs.RecordingLoad.{recording_loaded};
ghost use Rattle.bank.specs.Undamaged.{SameButLost, LeftOf, with_parity};

use crate::bank::Bank;
use crate::disk_bank::DiskBank;
use crate::fault::BankFault;
use crate::layout::Layout;
use crate::limits::{BLOCK, count_fits, fetch_fits};
use crate::rebuilt::{Array, RebuiltBank};

impl<'a> DiskBank<Array<'a>> {
    // Holds from now on what the image has left of an array, all disks idle. After a refusal the bank is empty.
    // What stands in the image for the lost disk's blocks makes no difference. Where the image is what is left of a
    // recording and its parity is right, this is the bank that the recording itself makes, whichever disk is lost.
    #[tactic(auto, using(crate::proofs::ArrayLoads::array_loads, crate::proofs::Blind::same_loaded))]
    pub fn load(&mut self, image: &'a [u8], layout: Layout, fetch: u8) -> Result<(), BankFault>
        ensures answer { result ≡ array_answer image.now layout fetch }
        ensures after { rebuilt_meaning self.new ≡ array_loaded image.now layout fetch }
        // what the calls of a bank speak of is this meaning
        ensures told { ⟦<RebuiltBank<'a> as Bank>⟧.meaning self.new ≡ rebuilt_meaning self.new }
        ensures blind { (other : List ℕ) → SameButLost image.now other layout → rebuilt_meaning self.new ≡ array_loaded other layout fetch }
        ensures recovers { (recording : List ℕ) → result ≡ Ok tt → LeftOf recording image.now layout → rebuilt_meaning self.new ≡ recording_loaded recording (spread layout) fetch }
        ensures whole { (recording : List ℕ) → result ≡ Ok tt → length recording ≡ 512 * layout.blocks → image.now ≡ with_parity recording layout → rebuilt_meaning self.new ≡ recording_loaded recording (spread layout) fetch }
    {
        self.hold(Array::new(image, layout, fetch), fetch)
    }
}

impl<'a> Array<'a> {
    // Limits are told before lengths: how many rows there are divides by the disks.
    #[tactic(auto, using(crate::proofs::ArrayLoads::limits_some, crate::proofs::ArrayLoads::limits_eight), unfolding(crate::specs::ArrayLoad::array_limits, crate::specs::ArrayLoad::array_answer))]
    fn new(image: &'a [u8], layout: Layout, fetch: u8) -> Result<Array<'a>, BankFault>
        ensures answer { granted result ≡ array_answer image.now layout fetch }
        ensures made { IfOk result (λ a. (a.image.now ≡ image.now) × (a.layout ≡ layout)) }
    {
        if !(count_fits(usize::from(layout.blocks)) && layout.disks_fit() && fetch_fits(fetch)) {
            return Err(BankFault::OutsideLimits);
        }
        if image.len() != BLOCK * (usize::from(layout.blocks) + layout.rows()) {
            return Err(BankFault::LengthsDiffer);
        }
        Ok(Array { image, layout })
    }
}
