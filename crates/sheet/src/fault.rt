ghost use Rattle.std.specs.Prelude.{◌≡◌};
ghost use Rattle.refusal.specs.declared.refusal.Layer.TheVariants.{Sheet};
ghost use Rattle.sheet.specs.declared.fault.SheetCause.TheVariants.{NoSlotLeft};
ghost use Rattle.sheet.specs.Numbers.{number_of};

use records::ListFull;
use refusal::{Cause, Layer, Refused};

// Why a sheet is refused.
#[derive(Clone, Copy, Debug, PartialEq, Eq)]
pub enum SheetCause {
    // the bytes run out
    RanOut,
    // a letter out of place, or a byte after the end
    OutOfPlace,
    // disks, frames or fetch time outside the limits
    OutsideLimits,
    // a disk or a block that there is not
    NotThere,
    // one block or one request above the limit
    TooMany,
    // fewer blocks than frames
    TooFewBlocks,
    // the caller's list has no slot left
    NoSlotLeft,
}

// A refused sheet: why, and at which byte of it.
pub type SheetFault = Refused<SheetCause>;

impl Cause for SheetCause {
    ghost told_by = { Sheet };

    ghost told_as = { number_of };

    fn layer() -> Layer {
        Layer::Sheet
    }

    fn number(&self) -> u8 {
        match self {
            SheetCause::RanOut => 1,
            SheetCause::OutOfPlace => 2,
            SheetCause::OutsideLimits => 3,
            SheetCause::NotThere => 4,
            SheetCause::TooMany => 5,
            SheetCause::TooFewBlocks => 6,
            SheetCause::NoSlotLeft => 17,
        }
    }
}

impl SheetCause {
    // The number by which the cause is told, for those who do not import `Cause`.
    pub fn number(&self) -> u8
        ensures { result ≡ number_of self.now }
    {
        Cause::number(self)
    }
}

impl From<ListFull> for SheetCause {
    ghost from_gives = { λ _ r. r ≡ NoSlotLeft };

    fn from(_full: ListFull) -> SheetCause {
        Self::NoSlotLeft
    }
}
