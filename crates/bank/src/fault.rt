// What a bank refuses, and what a caller is told of it.
ghost use Rattle.std.specs.Prelude.{◌≡◌, Some};
ghost use Rattle.refusal.specs.declared.refusal.Layer.TheVariants.{Bank};
ghost use Rattle.bank.specs.Faults.{number_of, refusal_of, line_of};

use refusal::{Cause, Layer, Refusal, Refused};
use std::fmt;

// Where several apply to one call, the one with the lowest number is told; a load tells
// `OutsideLimits` before `LengthsDiffer`.
#[derive(Clone, Copy, Debug, PartialEq, Eq)]
pub enum BankFault {
    // start: the bank has no such block
    NoSuchBlock,
    // start: the block's disk is still busy
    DiskBusy,
    // collect: there is no such disk, or it is idle
    NothingToCollect,
    // collect: the disk's block has steps left
    NotDue,
    // collect: the buffer has fewer than 512 bytes
    BufferTooShort,
    // load: the bytes are not as many as the blocks ask for
    LengthsDiffer,
    // load: a count of blocks, a disk or the fetch time outside its limits
    OutsideLimits,
}

impl Cause for BankFault {
    ghost told_by = { Bank };

    ghost told_as = { number_of };

    fn layer() -> Layer {
        Layer::Bank
    }

    fn number(&self) -> u8 {
        match self {
            BankFault::NoSuchBlock => 30,
            BankFault::DiskBusy => 31,
            BankFault::NothingToCollect => 32,
            BankFault::NotDue => 33,
            BankFault::BufferTooShort => 34,
            BankFault::LengthsDiffer => 35,
            BankFault::OutsideLimits => 36,
        }
    }
}

impl BankFault {
    // Every fault of a bank has place 0.
    pub fn refusal(&self) -> Refusal
        ensures { result ≡ refusal_of self.now }
    {
        Refused {
            cause: *self,
            place: 0,
        }
        .refusal()
    }
}

// A fault as its refusal's one line: `refused 31 bank 0`.
impl fmt::Display for BankFault {
    ghost output = { λ f. Some (line_of f) };

    fn fmt<W: fmt::Write>(&self, f: &mut fmt::Formatter<W>) -> fmt::Result {
        let refusal = self.refusal();
        write!(f, "{refusal}")
    }
}
