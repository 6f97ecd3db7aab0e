// How blocks lie on an array of disks of which one is lost.
ghost use Rattle.std.specs.Prelude.{◌≡◌, ◌<◌};
ghost use Rattle.bank.specs.ArrayLoad.{disks_within};
ghost use Rattle.bank.specs.Parity.{rows_of};

use crate::limits::DISKS;

// Block b lies on disk b mod `disks`. Each row of so many blocks has a parity block; the last row may be short.
#[derive(Clone, Copy, Debug, PartialEq, Eq)]
pub struct Layout {
    pub blocks: u16,
    pub disks: u8,
    pub lost: u8,
}

impl Layout {
    pub(crate) fn disks_fit(self) -> bool
        ensures { result ≡ disks_within self }
    {
        (1..=DISKS).contains(&usize::from(self.disks)) && self.lost < self.disks
    }

    // How many rows the blocks fill, the last one perhaps in part.
    pub(crate) fn rows(self) -> usize
        requires { 0 < self.disks }
        ensures { result ≡ rows_of self }
    {
        usize::from(self.blocks).div_ceil(usize::from(self.disks))
    }
}
