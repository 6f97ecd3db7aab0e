// Each refusal once, and which of two is told.
use crate::recording::*;
use crate::tests::banks::*;
use bank::{Bank, BankFault};
use refusal::Layer;
use std::process::Abort;
use std::test::Fail;

#[test]
fn both_banks_refuse_in_the_same_order(rt: HostRuntime) {
    let recording = recorded();
    refuses(&rt, &mut whole_bank(&rt, &recording, 2));
    let image = left_of(1);
    refuses(&rt, &mut rebuilt_bank(&rt, &image, 1, 2));
}

// Disk 0 has its block ready, disk 1 has steps left, disk 2 is idle, and disk 8 is not there.
fn refuses<B: Bank>(rt: &impl Abort, bank: &mut B) {
    assert_eq!(rt; bank.start(0), Ok(()));
    bank.tick();
    assert_eq!(rt; bank.start(1), Ok(()));
    bank.tick();
    refuses_starts(rt, bank);
    refuses_collects(rt, bank);
    assert_eq!(rt;
        bank.collect(0, &mut [0u8; 511]),
        Err(BankFault::BufferTooShort)
    );
    assert_eq!(rt; bank.collect(0, &mut [0u8; 512]), Ok(()));
    assert_eq!(rt;
        bank.collect(0, &mut [0u8; 512]),
        Err(BankFault::NothingToCollect)
    );
}

// A block that is not there is told before any disk is looked at.
fn refuses_starts<B: Bank>(rt: &impl Abort, bank: &mut B) {
    let table = [
        (0, BankFault::DiskBusy),
        (3, BankFault::DiskBusy),
        (4, BankFault::DiskBusy),
        (BLOCKS, BankFault::NoSuchBlock),
        (u16::MAX, BankFault::NoSuchBlock),
    ];
    for (block, fault) in table {
        assert_eq!(rt; bank.start(block), Err(fault));
    }
}

// For each disk what is told, whether the buffer has 512 bytes or is one short.
fn refuses_collects<B: Bank>(rt: &impl Abort, bank: &mut B) {
    let table = [
        (8, BankFault::NothingToCollect),
        (u8::MAX, BankFault::NothingToCollect),
        (2, BankFault::NothingToCollect),
        (1, BankFault::NotDue),
    ];
    for (disk, fault) in table {
        assert_eq!(rt; bank.collect(disk, &mut [0u8; 512]), Err(fault));
        assert_eq!(rt; bank.collect(disk, &mut [0u8; 511]), Err(fault));
    }
}

#[test]
fn a_fault_is_told_by_its_number(rt: HostRuntime) -> Result<(), Fail> {
    let faults = [
        (BankFault::NoSuchBlock, 30, "refused 30 bank 0"),
        (BankFault::DiskBusy, 31, "refused 31 bank 0"),
        (BankFault::NothingToCollect, 32, "refused 32 bank 0"),
        (BankFault::NotDue, 33, "refused 33 bank 0"),
        (BankFault::BufferTooShort, 34, "refused 34 bank 0"),
        (BankFault::LengthsDiffer, 35, "refused 35 bank 0"),
        (BankFault::OutsideLimits, 36, "refused 36 bank 0"),
    ];
    for (fault, number, line) in faults {
        let told = fault.refusal();
        assert_eq!(rt; told.number, number);
        assert_eq!(rt; told.layer, Layer::Bank);
        assert_eq!(rt; told.place, 0);
        let text = format!(in rt.alloc(); "{fault}")?;
        assert!(rt; text.as_str() == line);
    }
    Ok(())
}
