// The banks that tests begin with: of the whole recording, and of what is left of it.
use crate::recording::*;
use bank::{ImageBank, Layout, RebuiltBank};
use std::process::Abort;

pub(crate) fn whole_bank<'a>(
    rt: &impl Abort,
    recording: &'a [u8; RECORDING],
    fetch: u8,
) -> ImageBank<'a> {
    let mut bank = ImageBank::empty();
    assert_eq!(rt; bank.load(recording, &PLACES, fetch), Ok(()));
    bank
}

pub(crate) fn rebuilt_bank<'a>(
    rt: &impl Abort,
    image: &'a [u8; IMAGE],
    lost: u8,
    fetch: u8,
) -> RebuiltBank<'a> {
    let mut bank = RebuiltBank::empty();
    assert_eq!(rt; bank.load(image, layout(lost), fetch), Ok(()));
    bank
}

pub(crate) fn layout(lost: u8) -> Layout {
    Layout {
        blocks: BLOCKS,
        disks: DISKS,
        lost,
    }
}
