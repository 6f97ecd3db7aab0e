// What a load grants and refuses, and what it leaves.
use crate::recording::*;
use crate::tests::banks::layout;
use bank::{Bank, BankFault, DiskState, ImageBank, Layout, RebuiltBank};
use std::process::Abort;
use std::test::Fail;

fn is_empty<B: Bank>(rt: &impl Abort, bank: &mut B) {
    assert_eq!(rt; bank.blocks(), 0);
    assert_eq!(rt; bank.fetch_time(), 0);
    assert_eq!(rt; bank.disk(0), None);
    for disk in 0..8 {
        assert_eq!(rt; bank.state(disk), Some(DiskState::Idle));
    }
    assert_eq!(rt; bank.state(8), None);
    assert_eq!(rt; bank.start(0), Err(BankFault::NoSuchBlock));
}

// After a load over a good one: fresh where it was granted, else empty.
fn is_fresh_or_empty<B: Bank>(
    rt: &impl Abort,
    bank: &mut B,
    answer: Result<(), BankFault>,
    disk: u8,
    blocks: u16,
) {
    if answer.is_ok() {
        assert_eq!(rt; bank.state(disk), Some(DiskState::Idle));
        assert_eq!(rt; bank.blocks(), blocks);
    } else {
        is_empty(rt, bank);
    }
}

// How many disk bytes, the last of them, how many bytes, the fetch time, and what is told: limits before lengths.
#[test]
fn an_image_bank_is_empty_after_a_refused_load(rt: HostRuntime) -> Result<(), Fail> {
    let recording: [u8; 2048] = recorded();
    let good: [u8; 4] = [0, 7, 3, 0];
    let table = [
        (2, 1, 1024, 1, Ok(())),
        (2, 1, 1024, 64, Ok(())),
        (2, 7, 1024, 64, Ok(())),
        (0, 0, 0, 1, Err(BankFault::OutsideLimits)),
        (2, 8, 1024, 1, Err(BankFault::OutsideLimits)),
        (2, 1, 1024, 0, Err(BankFault::OutsideLimits)),
        (2, 1, 1024, 65, Err(BankFault::OutsideLimits)),
        (1025, 0, 1024, 1, Err(BankFault::OutsideLimits)),
        (2, 1, 1023, 1, Err(BankFault::LengthsDiffer)),
        (2, 1, 1025, 1, Err(BankFault::LengthsDiffer)),
        (1024, 0, 1024, 1, Err(BankFault::LengthsDiffer)),
        (2, 8, 1023, 1, Err(BankFault::OutsideLimits)),
    ];
    for (blocks, last, size, fetch, answer) in table {
        let mut places = [0u8; 1025];
        let disks = places.get_mut(0..blocks).ok_or("too many")?;
        if let Some(place) = disks.last_mut() {
            *place = last;
        }
        let bytes = recording.get(0..size).ok_or("too long")?;
        let mut bank = ImageBank::empty();
        assert_eq!(rt; bank.load(&recording, &good, 3), Ok(()));
        assert_eq!(rt; bank.start(1), Ok(()));
        assert_eq!(rt; bank.load(bytes, disks, fetch), answer);
        is_fresh_or_empty(&rt, &mut bank, answer, 7, 2);
    }
    Ok(())
}

// Blocks, disks, the lost one, how many bytes, the fetch time, and what is told.
#[test]
fn a_rebuilt_bank_is_empty_after_a_refused_load(rt: HostRuntime) -> Result<(), Fail> {
    let image = left_of(2);
    let table = [
        (11, 3, 0, 7680, 64, Ok(())),
        (7, 8, 7, 4096, 1, Ok(())),
        (1, 1, 0, 1024, 1, Ok(())),
        (0, 3, 0, 0, 1, Err(BankFault::OutsideLimits)),
        (1025, 3, 0, 7680, 1, Err(BankFault::OutsideLimits)),
        (11, 0, 0, 7680, 1, Err(BankFault::OutsideLimits)),
        (11, 9, 0, 7680, 1, Err(BankFault::OutsideLimits)),
        (11, 3, 3, 7680, 1, Err(BankFault::OutsideLimits)),
        (11, 3, 0, 7680, 0, Err(BankFault::OutsideLimits)),
        (11, 3, 0, 7680, 65, Err(BankFault::OutsideLimits)),
        (11, 3, 0, 7679, 1, Err(BankFault::LengthsDiffer)),
        (12, 3, 0, 7680, 1, Err(BankFault::LengthsDiffer)),
        (1024, 3, 0, 7680, 1, Err(BankFault::LengthsDiffer)),
        (11, 3, 3, 7679, 1, Err(BankFault::OutsideLimits)),
    ];
    for (blocks, disks, lost, size, fetch, answer) in table {
        let bytes = image.get(0..size).ok_or("too long")?;
        let tried = Layout {
            blocks,
            disks,
            lost,
        };
        let mut bank = RebuiltBank::empty();
        assert_eq!(rt; bank.load(&image, layout(2), 3), Ok(()));
        assert_eq!(rt; bank.start(0), Ok(()));
        assert_eq!(rt; bank.load(bytes, tried, fetch), answer);
        is_fresh_or_empty(&rt, &mut bank, answer, 0, blocks);
    }
    Ok(())
}
