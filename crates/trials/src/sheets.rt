// Damaged sheets, one for each refusal and for each pair that could both apply; sheets at the limits and one past them.
use crate::case::Case;
use backread::{Fault, Rack, Sheet, SheetReading};
use std::alloc::{AllocError, Global};
use std::process::Abort;
use std::test::Fail;

// The name ends at 17, where `G` stands; the first `D` is at 21, and with one block the first `R` or `E` at 23.
const DAMAGED: [Case; 39] = [
    // the bytes run out: no letter, in the name, in the geometry, in a disk, in a request, before the end
    Case {
        bytes: b"",
        slots: 6,
        told: "refused 1 sheet 0",
    },
    Case {
        bytes: b"NFIGURE-ONE-CASE",
        slots: 6,
        told: "refused 1 sheet 16",
    },
    Case {
        bytes: b"NFIGURE-ONE-CASE1G\x02\x04",
        slots: 6,
        told: "refused 1 sheet 20",
    },
    Case {
        bytes: b"NFIGURE-ONE-CASE1G\x02\x01\x02D",
        slots: 6,
        told: "refused 1 sheet 22",
    },
    Case {
        bytes: b"NFIGURE-ONE-CASE1G\x02\x01\x02D\x00R\x00",
        slots: 6,
        told: "refused 1 sheet 25",
    },
    Case {
        bytes: b"NFIGURE-ONE-CASE1G\x02\x01\x02D\x00R\x00\x00",
        slots: 6,
        told: "refused 1 sheet 26",
    },
    // a letter out of place: at the start, after the name, after the geometry, after a request; and bytes after the end
    Case {
        bytes: b"XFIGURE-ONE-CASE1",
        slots: 6,
        told: "refused 2 sheet 0",
    },
    Case {
        bytes: b"NFIGURE-ONE-CASE1NFIGURE-ONE-CASE1",
        slots: 6,
        told: "refused 2 sheet 17",
    },
    Case {
        bytes: b"NFIGURE-ONE-CASE1G\x02\x01\x02G\x02\x01\x02",
        slots: 6,
        told: "refused 2 sheet 21",
    },
    Case {
        bytes: b"NFIGURE-ONE-CASE1G\x02\x01\x02D\x00R\x00\x00D\x00E",
        slots: 6,
        told: "refused 2 sheet 26",
    },
    Case {
        bytes: b"NFIGURE-ONE-CASE1G\x02\x01\x02D\x00EE",
        slots: 6,
        told: "refused 2 sheet 24",
    },
    Case {
        bytes: b"NFIGURE-ONE-CASE1G\x02\x01\x02D\x00E\x00",
        slots: 6,
        told: "refused 2 sheet 24",
    },
    // disks, frames and fetch time just outside the limits
    Case {
        bytes: b"NFIGURE-ONE-CASE1G\x00\x01\x01",
        slots: 6,
        told: "refused 3 sheet 17",
    },
    Case {
        bytes: b"NFIGURE-ONE-CASE1G\x09\x01\x01",
        slots: 6,
        told: "refused 3 sheet 17",
    },
    Case {
        bytes: b"NFIGURE-ONE-CASE1G\x01\x00\x01",
        slots: 6,
        told: "refused 3 sheet 17",
    },
    Case {
        bytes: b"NFIGURE-ONE-CASE1G\x02\x41\x02",
        slots: 6,
        told: "refused 3 sheet 17",
    },
    Case {
        bytes: b"NFIGURE-ONE-CASE1G\x01\x01\x00",
        slots: 6,
        told: "refused 3 sheet 17",
    },
    Case {
        bytes: b"NFIGURE-ONE-CASE1G\x01\x01\x41",
        slots: 6,
        told: "refused 3 sheet 17",
    },
    // no such disk; no such block, by the low byte and by the high byte
    Case {
        bytes: b"NFIGURE-ONE-CASE1G\x02\x01\x02D\x02",
        slots: 6,
        told: "refused 4 sheet 21",
    },
    Case {
        bytes: b"NFIGURE-ONE-CASE1G\x02\x01\x02D\x00R\x01\x00E",
        slots: 6,
        told: "refused 4 sheet 23",
    },
    Case {
        bytes: b"NFIGURE-ONE-CASE1G\x02\x01\x02D\x00R\x00\x01E",
        slots: 6,
        told: "refused 4 sheet 23",
    },
    // fewer blocks than frames, at the first request and at the end; no block at all
    Case {
        bytes: b"NFIGURE-ONE-CASE1G\x02\x02\x02D\x00R\x00\x00E",
        slots: 6,
        told: "refused 6 sheet 23",
    },
    Case {
        bytes: b"NFIGURE-ONE-CASE1G\x02\x02\x02D\x00E",
        slots: 6,
        told: "refused 6 sheet 23",
    },
    Case {
        bytes: b"NFIGURE-ONE-CASE1G\x02\x01\x02R\x00\x00E",
        slots: 6,
        told: "refused 6 sheet 21",
    },
    Case {
        bytes: b"NFIGURE-ONE-CASE1G\x02\x01\x02E",
        slots: 6,
        told: "refused 6 sheet 21",
    },
    // a list with no slot left
    Case {
        bytes: b"NFIGURE-ONE-CASE1G\x02\x01\x02D\x00R\x00\x00E",
        slots: 0,
        told: "refused 17 sheet 23",
    },
    Case {
        bytes: b"NFIGURE-ONE-CASE1G\x02\x01\x02D\x00R\x00\x00R\x00\x00E",
        slots: 1,
        told: "refused 17 sheet 26",
    },
    // where two apply, the earlier of the order: 2 before 1, 3, 4, 17
    Case {
        bytes: b"G",
        slots: 6,
        told: "refused 2 sheet 0",
    },
    Case {
        bytes: b"NFIGURE-ONE-CASE1G\x02\x01\x02G\x09\x09\x09",
        slots: 6,
        told: "refused 2 sheet 21",
    },
    Case {
        bytes: b"NFIGURE-ONE-CASE1G\x02\x01\x02D\x00R\x00\x00D\x09",
        slots: 6,
        told: "refused 2 sheet 26",
    },
    Case {
        bytes: b"NFIGURE-ONE-CASE1G\x02\x01\x02D\x00ER\xff\xff",
        slots: 0,
        told: "refused 2 sheet 24",
    },
    // 1 before 6, 3, 4, 17
    Case {
        bytes: b"NFIGURE-ONE-CASE1G\x02\x02\x02D\x00R\x00",
        slots: 6,
        told: "refused 1 sheet 25",
    },
    Case {
        bytes: b"NFIGURE-ONE-CASE1G\x00\x41",
        slots: 6,
        told: "refused 1 sheet 20",
    },
    Case {
        bytes: b"NFIGURE-ONE-CASE1G\x02\x01\x02D\x00R\xff",
        slots: 6,
        told: "refused 1 sheet 25",
    },
    Case {
        bytes: b"NFIGURE-ONE-CASE1G\x02\x01\x02D\x00R\x00",
        slots: 0,
        told: "refused 1 sheet 25",
    },
    // 6 before 4, 17, and before what follows the end
    Case {
        bytes: b"NFIGURE-ONE-CASE1G\x02\x02\x02D\x00R\x09\x00",
        slots: 6,
        told: "refused 6 sheet 23",
    },
    Case {
        bytes: b"NFIGURE-ONE-CASE1G\x02\x02\x02D\x00R\x00\x00",
        slots: 0,
        told: "refused 6 sheet 23",
    },
    Case {
        bytes: b"NFIGURE-ONE-CASE1G\x02\x02\x02D\x00E\x00",
        slots: 6,
        told: "refused 6 sheet 23",
    },
    // 4 before 17
    Case {
        bytes: b"NFIGURE-ONE-CASE1G\x02\x01\x02D\x00R\x01\x00",
        slots: 0,
        told: "refused 4 sheet 23",
    },
];

// The line that tells the refusal, or `accepted`.
fn line(heap: Global, reading: &SheetReading) -> Result<String, AllocError> {
    match reading.outcome() {
        Ok(()) => String::from_str(heap, "accepted"),
        Err(fault) => {
            let fault = Fault::from(fault);
            format!(in heap; "{fault}")
        }
    }
}

fn reads_as(
    rt: &impl Abort,
    heap: Global,
    bytes: &[u8],
    slots: usize,
    expected: &str,
) -> Result<(), Fail> {
    let mut list = vec![in heap; 9u16; slots]?;
    let reading = SheetReading::new(bytes, list.as_mut_slice());
    let told = line(heap, &reading)?;
    assert_eq!(rt; told.as_str(), expected);
    Ok(())
}

#[test]
fn damaged_sheets(rt: HostRuntime) -> Result<(), Fail> {
    for case in DAMAGED {
        reads_as(&rt, rt.alloc(), case.bytes, case.slots, case.told)?;
    }
    Ok(())
}

// The bytes of a sheet with its blocks on all disks in turn, and requested in turn, without the end.
fn sheet(
    heap: Global,
    geometry: [u8; 3],
    blocks: u16,
    requests: usize,
) -> Result<Vec<u8>, AllocError> {
    let mut bytes = Vec::new(heap);
    let [disks, frames, fetch] = geometry;
    bytes.extend_from_slice(b"NSIXTEEN LETTERS!G")?;
    bytes.extend_from_slice(&[disks, frames, fetch])?;
    for disk in (0..disks).cycle().take(usize::from(blocks)) {
        bytes.extend_from_slice(&[b'D', disk])?;
    }
    for block in (0..blocks).cycle().take(requests) {
        bytes.push(b'R')?;
        bytes.extend_from_slice(&block.to_le_bytes())?;
    }
    Ok(bytes)
}

// Disks, frames and fetch time, how many blocks and requests, what follows them, and what is told.
// A tuple, so that a row is a line and the rows can be compared: with named fields each would take seven.
type Limits = ([u8; 3], u16, usize, &'static [u8], &'static str);

fn limits_read_as(rt: &impl Abort, heap: Global, table: &[Limits]) -> Result<(), Fail> {
    for &(geometry, blocks, requests, tail, told) in table {
        let mut bytes = sheet(heap, geometry, blocks, requests)?;
        bytes.extend_from_slice(tail)?;
        reads_as(rt, heap, bytes.as_slice(), 4096, told)?;
    }
    Ok(())
}

#[test]
fn limits_granted(rt: HostRuntime) -> Result<(), Fail> {
    let table: [Limits; 4] = [
        ([1, 1, 1], 1, 0, b"E", "accepted"),
        ([8, 64, 64], 64, 0, b"E", "accepted"),
        ([8, 64, 64], 64, 64, b"E", "accepted"),
        ([8, 64, 64], 1024, 4096, b"E", "accepted"),
    ];
    limits_read_as(&rt, rt.alloc(), &table)
}

#[test]
fn limits_passed(rt: HostRuntime) -> Result<(), Fail> {
    let table: [Limits; 6] = [
        // the 1,025th block, also on a disk that there is not; cut short it is bytes that run out
        ([8, 64, 64], 1024, 0, b"D\x00E", "refused 5 sheet 2069"),
        ([8, 64, 64], 1024, 0, b"D\x08E", "refused 5 sheet 2069"),
        ([8, 64, 64], 1024, 0, b"D", "refused 1 sheet 2070"),
        // the 4,097th request, also of a block that there is not, and with no slot left; cut short it is bytes that run out
        ([1, 1, 1], 1, 4096, b"R\x00\x00E", "refused 5 sheet 12311"),
        ([1, 1, 1], 1, 4096, b"R\x01\x00E", "refused 5 sheet 12311"),
        ([1, 1, 1], 1, 4096, b"R\x00", "refused 1 sheet 12313"),
    ];
    limits_read_as(&rt, rt.alloc(), &table)
}

// What a rack tells, against what was written into the sheet.
fn rack_tells(rt: &impl Abort, rack: &Rack) {
    assert_eq!(rt; rack.disks(), 2);
    assert_eq!(rt; rack.frames(), 2);
    assert_eq!(rt; rack.fetch(), 3);
    assert_eq!(rt; rack.blocks(), 3);
    assert_eq!(rt; rack.disk_of(1), Some(1));
    assert_eq!(rt; rack.disk_of(2), Some(0));
    assert_eq!(rt; rack.disk_of(3), None);
}

fn requests_in_order(rt: &impl Abort, sheet: Sheet, expected: [u16; 4]) {
    for (position, block) in expected.iter().enumerate() {
        assert_eq!(rt; sheet.request(position), Some(*block));
    }
    assert_eq!(rt; sheet.request(4), None);
}

const SMALL: &[u8] =
    b"NFIGURE-ONE-CASE1G\x02\x02\x03D\x00D\x01D\x00R\x02\x00R\x00\x00R\x01\x00R\x02\x00E";

#[test]
fn a_sheet_tells_what_was_read(rt: HostRuntime) {
    let mut slots = [9u16; 6];
    let reading = SheetReading::new(SMALL, &mut slots);
    let sheet = reading.sheet();
    assert_eq!(rt; sheet.name(), b"FIGURE-ONE-CASE1".as_slice());
    assert_eq!(rt; sheet.len(), 4);
    rack_tells(&rt, sheet.rack());
    requests_in_order(&rt, sheet, [2, 0, 1, 2]);
    requests_in_order(&rt, sheet.turned(), [2, 1, 0, 2]);
    requests_in_order(&rt, sheet.turned().turned(), [2, 0, 1, 2]);
    assert_eq!(rt; slots.as_slice(), [2u16, 0, 1, 2, 9, 9].as_slice());
}

// The third request is of no block: the two before it stand, and the other slots keep what they held.
#[test]
fn a_refusal_leaves_the_requests_before_it(rt: HostRuntime) {
    let bytes =
        b"NFIGURE-ONE-CASE1G\x02\x02\x03D\x00D\x01D\x00R\x02\x00R\x00\x00R\x03\x00R\x02\x00E";
    let mut slots = [9u16; 6];
    let reading = SheetReading::new(bytes, &mut slots);
    assert!(rt; reading.outcome().is_err());
    assert_eq!(rt; slots.as_slice(), [2u16, 0, 9, 9, 9, 9].as_slice());
}
