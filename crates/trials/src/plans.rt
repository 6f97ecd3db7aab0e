// Plans checked against the sample sheet: the worked ones, one for each refusal, and one for each pair that could both apply.
use crate::case::Case;
use backread::SheetReading;
use model::Exchange;
use plan::{Backward, Forward, Receipt, Side, check as check_plan};
use sheet::Sheet;
use std::alloc::{AllocError, Global};
use std::test::Fail;

// Six blocks on disks 0 1 0 1 0 0, four frames, a fetch time of 2, requests 0 to 5.
const SAMPLE: &[u8] =
    b"NFIGURE-ONE-CASE1G\x02\x04\x02D\x00D\x01D\x00D\x01D\x00D\x00R\x00\x00R\x01\x00R\x02\x00R\x03\x00R\x04\x00R\x05\x00E";

// The opening 0 1 3 5 ends at 12.
const ROWS: [Case; 42] = [
    // accepted: steps, waits, exchanges
    Case {
        bytes: b"O\x00\x00O\x01\x00O\x03\x00O\x05\x00X\x02\x00\x05\x00SSX\x04\x00\x00\x00SSX\x05\x00\x01\x00SWSE",
        slots: 4,
        told: "7 1 3",
    },
    Case {
        bytes: b"O\x00\x00O\x01\x00O\x03\x00O\x05\x00X\x02\x00\x03\x00SX\x03\x00\x00\x00SX\x04\x00\x01\x00SSSSE",
        slots: 4,
        told: "6 0 3",
    },
    Case {
        bytes: b"O\x00\x00O\x01\x00O\x03\x00O\x05\x00X\x02\x00\x03\x00SX\x03\x00\x00\x00SX\x04\x00\x01\x00SSX\x00\x00\x02\x00SSE",
        slots: 4,
        told: "6 0 4",
    },
    // the bytes run out: no letter, in the opening, after it, in an exchange
    Case {
        bytes: b"",
        slots: 4,
        told: "refused 7 plan 0",
    },
    Case {
        bytes: b"O\x00",
        slots: 4,
        told: "refused 7 plan 2",
    },
    Case {
        bytes: b"O\x00\x00O\x01\x00O\x03\x00O\x05\x00",
        slots: 4,
        told: "refused 7 plan 12",
    },
    Case {
        bytes: b"O\x00\x00O\x01\x00O\x03\x00O\x05\x00X\x02\x00",
        slots: 4,
        told: "refused 7 plan 15",
    },
    // a letter out of place: none, after the opening, the end after an exchange, bytes after the end
    Case {
        bytes: b"Z",
        slots: 4,
        told: "refused 8 plan 0",
    },
    Case {
        bytes: b"O\x00\x00O\x01\x00O\x03\x00O\x05\x00SO\x00\x00",
        slots: 4,
        told: "refused 8 plan 13",
    },
    Case {
        bytes: b"O\x00\x00O\x01\x00O\x03\x00O\x05\x00X\x02\x00\x05\x00E",
        slots: 4,
        told: "refused 8 plan 17",
    },
    Case {
        bytes: b"O\x00\x00O\x01\x00O\x03\x00O\x05\x00X\x02\x00\x03\x00SX\x03\x00\x00\x00SX\x04\x00\x01\x00SSSSEE",
        slots: 4,
        told: "refused 8 plan 34",
    },
    // the opening: does not rise, names no block, too many, too few
    Case {
        bytes: b"O\x01\x00O\x00\x00",
        slots: 4,
        told: "refused 9 plan 3",
    },
    Case {
        bytes: b"O\x06\x00",
        slots: 4,
        told: "refused 9 plan 0",
    },
    Case {
        bytes: b"O\x00\x00O\x01\x00O\x03\x00O\x05\x00O\x05\x00",
        slots: 4,
        told: "refused 9 plan 12",
    },
    Case {
        bytes: b"O\x00\x00S",
        slots: 4,
        told: "refused 9 plan 3",
    },
    // block in: unknown, resident, sent out here, brought in here
    Case {
        bytes: b"O\x00\x00O\x01\x00O\x03\x00O\x05\x00X\x06\x00\x05\x00",
        slots: 4,
        told: "refused 10 plan 12",
    },
    Case {
        bytes: b"O\x00\x00O\x01\x00O\x03\x00O\x05\x00X\x00\x00\x05\x00",
        slots: 4,
        told: "refused 10 plan 12",
    },
    Case {
        bytes: b"O\x00\x00O\x01\x00O\x03\x00O\x05\x00X\x02\x00\x05\x00X\x05\x00\x00\x00",
        slots: 4,
        told: "refused 10 plan 17",
    },
    Case {
        bytes: b"O\x00\x00O\x01\x00O\x03\x00O\x05\x00X\x02\x00\x05\x00X\x02\x00\x00\x00",
        slots: 4,
        told: "refused 10 plan 17",
    },
    // block out: unknown, absent, sent out here
    Case {
        bytes: b"O\x00\x00O\x01\x00O\x03\x00O\x05\x00X\x02\x00\x06\x00",
        slots: 4,
        told: "refused 11 plan 12",
    },
    Case {
        bytes: b"O\x00\x00O\x01\x00O\x03\x00O\x05\x00X\x02\x00\x04\x00",
        slots: 4,
        told: "refused 11 plan 12",
    },
    Case {
        bytes: b"O\x00\x00O\x01\x00O\x03\x00O\x05\x00X\x02\x00\x05\x00X\x04\x00\x05\x00",
        slots: 4,
        told: "refused 11 plan 17",
    },
    // the disk is busy
    Case {
        bytes: b"O\x00\x00O\x01\x00O\x03\x00O\x05\x00X\x02\x00\x05\x00X\x04\x00\x00\x00",
        slots: 4,
        told: "refused 12 plan 17",
    },
    // cannot be served: absent, in flight, none left
    Case {
        bytes: b"O\x00\x00O\x01\x00O\x03\x00O\x05\x00SSS",
        slots: 4,
        told: "refused 13 plan 14",
    },
    Case {
        bytes: b"O\x00\x00O\x01\x00O\x03\x00O\x05\x00SSX\x02\x00\x00\x00S",
        slots: 4,
        told: "refused 13 plan 19",
    },
    Case {
        bytes: b"O\x00\x00O\x01\x00O\x03\x00O\x05\x00X\x02\x00\x03\x00SX\x03\x00\x00\x00SX\x04\x00\x01\x00SSSSS",
        slots: 4,
        told: "refused 13 plan 33",
    },
    // requests left; an exchange not landed
    Case {
        bytes: b"O\x00\x00O\x01\x00O\x03\x00O\x05\x00E",
        slots: 4,
        told: "refused 14 plan 12",
    },
    Case {
        bytes: b"O\x00\x00O\x01\x00O\x03\x00O\x05\x00X\x02\x00\x03\x00SX\x03\x00\x00\x00SX\x04\x00\x01\x00SSSX\x00\x00\x02\x00SE",
        slots: 4,
        told: "refused 15 plan 38",
    },
    // the list is full
    Case {
        bytes: b"O\x00\x00O\x01\x00O\x03\x00O\x05\x00X\x02\x00\x05\x00",
        slots: 0,
        told: "refused 17 plan 12",
    },
    // where two apply, the earlier of the order: 8 before 7
    Case {
        bytes: b"O\x00\x00O\x01\x00O\x03\x00O\x05\x00SO",
        slots: 4,
        told: "refused 8 plan 13",
    },
    // 7 before 9
    Case {
        bytes: b"O\x06",
        slots: 4,
        told: "refused 7 plan 2",
    },
    Case {
        bytes: b"O\x00\x00X\x02",
        slots: 4,
        told: "refused 7 plan 5",
    },
    // 9 before 10, 13, 14
    Case {
        bytes: b"O\x00\x00X\x06\x00\x06\x00",
        slots: 4,
        told: "refused 9 plan 3",
    },
    Case {
        bytes: b"O\x01\x00S",
        slots: 4,
        told: "refused 9 plan 3",
    },
    Case {
        bytes: b"O\x01\x00E",
        slots: 4,
        told: "refused 9 plan 3",
    },
    // 10 before 11, 12, 17
    Case {
        bytes: b"O\x00\x00O\x01\x00O\x03\x00O\x05\x00X\x06\x00\x06\x00",
        slots: 4,
        told: "refused 10 plan 12",
    },
    Case {
        bytes: b"O\x00\x00O\x01\x00O\x03\x00O\x05\x00X\x02\x00\x05\x00X\x00\x00\x01\x00",
        slots: 4,
        told: "refused 10 plan 17",
    },
    Case {
        bytes: b"O\x00\x00O\x01\x00O\x03\x00O\x05\x00X\x06\x00\x05\x00",
        slots: 0,
        told: "refused 10 plan 12",
    },
    // 11 before 12, 17
    Case {
        bytes: b"O\x00\x00O\x01\x00O\x03\x00O\x05\x00X\x02\x00\x05\x00X\x04\x00\x02\x00",
        slots: 4,
        told: "refused 11 plan 17",
    },
    Case {
        bytes: b"O\x00\x00O\x01\x00O\x03\x00O\x05\x00X\x02\x00\x04\x00",
        slots: 0,
        told: "refused 11 plan 12",
    },
    // 12 before 17
    Case {
        bytes: b"O\x00\x00O\x01\x00O\x03\x00O\x05\x00X\x02\x00\x05\x00X\x04\x00\x00\x00",
        slots: 1,
        told: "refused 12 plan 17",
    },
    // 14 before 15
    Case {
        bytes: b"O\x00\x00O\x01\x00O\x03\x00O\x05\x00X\x02\x00\x05\x00SE",
        slots: 4,
        told: "refused 14 plan 18",
    },
];

fn told<S: Side>(
    heap: Global,
    sheet: Sheet,
    plan: &[u8],
    slots: usize,
) -> Result<String, AllocError> {
    let none = Exchange {
        brings: 9,
        sends: 9,
        start: 9,
    };
    let mut list = vec![in heap; none; slots]?;
    match check_plan::<S>(sheet, plan, list.as_mut_slice()) {
        Ok(counts) => { format!(in heap; "{} {} {}", counts.steps, counts.waits, counts.exchanges) }
        Err(fault) => format!(in heap; "{fault}"),
    }
}

// Lends the sample sheet to a test.
fn with_the_sample<F: FnOnce(Sheet<'_>) -> Result<(), Fail>>(test: F) -> Result<(), Fail>
    requires { F.IsAlwaysCallable test }
{
    let mut requests = [0u16; 6];
    let reading = SheetReading::new(SAMPLE, &mut requests);
    test(reading.sheet())
}

#[test]
fn plans_of_the_sample(rt: HostRuntime) -> Result<(), Fail> {
    with_the_sample(|sheet| {
        for row in ROWS {
            let line = told::<Forward>(rt.alloc(), sheet, row.bytes, row.slots)?;
            assert_eq!(rt; line.as_str(), row.told);
        }
        Ok(())
    })
}

// The backward plan of the turned sheet: opening 2 3 4 5, S X 1 5 S S X 0 4 S S S E.
const BACKWARD: &[u8] =
    b"O\x02\x00O\x03\x00O\x04\x00O\x05\x00SX\x01\x00\x05\x00SSX\x00\x00\x04\x00SSSE";

#[test]
fn a_backward_plan(rt: HostRuntime) -> Result<(), Fail> {
    with_the_sample(|sheet| {
        let line = told::<Backward>(rt.alloc(), sheet.turned(), BACKWARD, 4)?;
        assert_eq!(rt; line.as_str(), "6 0 2");
        Ok(())
    })
}

fn waits_to_the_limit(heap: Global, tail: &[u8]) -> Result<Vec<u8>, AllocError> {
    let mut plan = Vec::new(heap);
    plan.extend_from_slice(b"O\x00\x00O\x01\x00O\x03\x00O\x05\x00")?;
    plan.resize(1_048_576, b'W')?;
    plan.extend_from_slice(tail)?;
    Ok(plan)
}

// What is told of waits to the limit and a tail.
fn told_at_the_limit(heap: Global, sheet: Sheet, tail: &[u8]) -> Result<String, AllocError> {
    let plan = waits_to_the_limit(heap, tail)?;
    told::<Forward>(heap, sheet, plan.as_slice(), 4)
}

#[test]
fn the_limit_of_a_plan(rt: HostRuntime) -> Result<(), Fail> {
    let table: [(&[u8], &str); 3] = [
        (b"", "refused 7 plan 1048576"),
        (b"E", "refused 18 plan 1048576"),
        (b"Z", "refused 18 plan 1048576"),
    ];
    with_the_sample(|sheet| {
        for (tail, told) in table {
            let line = told_at_the_limit(rt.alloc(), sheet, tail)?;
            assert_eq!(rt; line.as_str(), told);
        }
        Ok(())
    })
}
