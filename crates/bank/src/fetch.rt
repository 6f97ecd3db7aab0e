// A whole fetch, for every kind of bank.
ghost use Rattle.std.specs.Prelude.{◌≡◌, length};
ghost use Rattle.bank.specs.Fetched.{later, fetch_answer, fetch_after, fetch_buffer};

use crate::bank::Bank;
use crate::fault::BankFault;

// Starts the block, lets the fetch time pass and collects the block into the buffer's first 512 bytes.
#[tactic(auto, using(crate::proofs::WholeFetch::whole_fetch))]
pub fn fetch_block<B: Bank>(bank: &mut B, block: u16, buffer: &mut [u8]) -> Result<(), BankFault>
    ensures answer { result ≡ fetch_answer (B.meaning bank.old) block (length buffer.old) }
    ensures after { B.meaning bank.new ≡ fetch_after (B.meaning bank.old) block (length buffer.old) }
    ensures bytes { buffer.new ≡ fetch_buffer (B.meaning bank.old) block buffer.old }
{
    let disk = bank.disk(block).ok_or(BankFault::NoSuchBlock)?;
    bank.start(block)?;
    let fetch_time = bank.fetch_time();
    wait(bank, fetch_time);
    bank.collect(disk, buffer)
}

// Lets so many steps pass.
#[tactic(auto, using(crate::proofs::Waits::later_none, crate::proofs::Waits::later_more))]
fn wait<B: Bank>(bank: &mut B, steps: u8)
    ensures { B.meaning bank.new ≡ later steps (B.meaning bank.old) }
{
    for _passed in 0..steps {
        bank.tick();
    }
}
