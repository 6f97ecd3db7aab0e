// Every block read back, and every byte of the buffer.
use crate::reads::{read_image, read_rebuilt};
use crate::recording::*;
use crate::tests::banks::*;
use bank::{Bank, BankFault, DiskState, ImageBank, RebuiltBank};
use std::process::Abort;

const FETCH: u8 = 5;

#[test]
fn every_block_is_read_back_whichever_disk_is_lost(rt: HostRuntime) {
    let recording = recorded();
    let mut whole = whole_bank(&rt, &recording, FETCH);
    for lost in 0..DISKS {
        let image = left_of(lost);
        let mut rebuilt = rebuilt_bank(&rt, &image, lost, FETCH);
        reads_back(&rt, &mut rebuilt, &mut whole);
    }
}

// Each block as it was recorded, from both banks.
fn reads_back(rt: &impl Abort, rebuilt: &mut RebuiltBank<'_>, whole: &mut ImageBank<'_>) {
    for block in 0..BLOCKS {
        let mut buffer = [7u8; 512];
        assert_eq!(rt; read_rebuilt(rebuilt, block, &mut buffer), Ok(()));
        assert!(rt; holds(&buffer, block, 7));
        let mut again = [8u8; 512];
        assert_eq!(rt; read_image(whole, block, &mut again), Ok(()));
        assert!(rt; holds(&again, block, 8));
        assert_eq!(rt; rebuilt.disk(block), whole.disk(block));
    }
}

// Buffers of 511, 512 and 520 bytes: the first stays as it is, the last keeps its tail.
#[test]
fn a_buffer_keeps_what_lies_past_the_block(rt: HostRuntime) {
    let recording = recorded();
    let mut bank = whole_bank(&rt, &recording, FETCH);
    assert_eq!(rt; bank.start(4), Ok(()));
    for left in 0..FETCH {
        assert_eq!(rt;
            bank.state(1),
            Some(DiskState::Busy {
                block: 4,
                left: FETCH - left,
            })
        );
        bank.tick();
    }
    let mut short = [9u8; 511];
    assert_eq!(rt; bank.collect(1, &mut short), Err(BankFault::BufferTooShort));
    assert!(rt; short == [9u8; 511]);
    let mut exact = [9u8; 512];
    assert_eq!(rt; bank.collect(1, &mut exact), Ok(()));
    assert!(rt; holds(&exact, 4, 9));
    assert_eq!(rt; bank.state(1), Some(DiskState::Idle));
    let mut long = [9u8; 520];
    assert_eq!(rt; read_image(&mut bank, 10, &mut long), Ok(()));
    assert!(rt; holds(&long, 10, 9));
}
