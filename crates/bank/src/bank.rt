// A bank of disks, as its users know it.
ghost use Rattle.std.specs.Prelude.{◌≡◌, length};
ghost use Rattle.bank.specs.Meaning.{Meaning, Sound};
ghost use Rattle.bank.specs.Calls.{start_answer, start_after, tick_after, collect_answer, collect_after, collect_buffer};
ghost use Rattle.bank.specs.Questions.{disk_of, state_of};

use crate::fault::BankFault;
use crate::state::DiskState;

// Each call is told by what it answers and by what the bank means afterwards; a question changes nothing.
pub trait Bank {
    // what the bank is, as a value
    ghost meaning: { Self → Meaning };

    // it has eight disks, a disk among them for each block, and 512 bytes to a block
    ghost sound: { (x : Self) → Sound (meaning x) };

    fn blocks(&self) -> u16
        ensures { result ≡ length (meaning self.now).blocks };

    // The disk that a block lies on, or none where there is no such block.
    fn disk(&self, block: u16) -> Option<u8>
        ensures { result ≡ disk_of (meaning self.now) block };

    fn fetch_time(&self) -> u8
        ensures { result ≡ (meaning self.now).fetch };

    // What a disk is doing, or none where there is no such disk.
    fn state(&self, disk: u8) -> Option<DiskState>
        ensures { result ≡ state_of (meaning self.now) disk };

    // Makes the block's disk busy with it, for the whole fetch time.
    fn start(&mut self, block: u16) -> Result<(), BankFault>
        ensures answer { result ≡ start_answer (meaning self.old) block }
        ensures after { meaning self.new ≡ start_after (meaning self.old) block };

    // One step of time: every count above zero is one lower.
    fn tick(&mut self)
        ensures { meaning self.new ≡ tick_after (meaning self.old) };

    // Copies the block that lies ready on the disk into the buffer's first 512 bytes, and makes the disk idle.
    fn collect(&mut self, disk: u8, buffer: &mut [u8]) -> Result<(), BankFault>
        ensures answer { result ≡ collect_answer (meaning self.old) disk (length buffer.old) }
        ensures after { meaning self.new ≡ collect_after (meaning self.old) disk (length buffer.old) }
        ensures bytes { buffer.new ≡ collect_buffer (meaning self.old) disk buffer.old };
}
