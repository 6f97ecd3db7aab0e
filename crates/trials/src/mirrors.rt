// Plans and their mirrors, written by hand: what is told, what is left in the area, and what in the list.
use backread::SheetReading;
use model::Exchange;
use plan::{Backward, Forward, Side, mirror};
use sheet::Sheet;
use std::alloc::{AllocError, Global};
use std::process::Abort;
use std::test::Fail;

// Six blocks on disks 0 1 0 1 0 0, four frames, a fetch time of 2, requests 0 to 5.
const SIX: &[u8] =
    b"NFIGURE-ONE-CASE1G\x02\x04\x02D\x00D\x01D\x00D\x01D\x00D\x00R\x00\x00R\x01\x00R\x02\x00R\x03\x00R\x04\x00R\x05\x00E";

// The same blocks, requests 0 1 2.
const THREE: &[u8] =
    b"NFIGURE-ONE-CASE1G\x02\x04\x02D\x00D\x01D\x00D\x01D\x00D\x00R\x00\x00R\x01\x00R\x02\x00E";

// The same blocks, no requests.
const NONE: &[u8] = b"NFIGURE-ONE-CASE1G\x02\x04\x02D\x00D\x01D\x00D\x01D\x00D\x00E";

// On the turned sheet of six: opening 2 3 4 5, S X 1 5 S S X 0 4 S S S E.
const BACK: &[u8] =
    b"O\x02\x00O\x03\x00O\x04\x00O\x05\x00SX\x01\x00\x05\x00SSX\x00\x00\x04\x00SSSE";

// Its mirror, on the sheet itself: opening 0 1 2 3, S X 4 0 S S X 5 1 S S S E.
const FORTH: &[u8] =
    b"O\x00\x00O\x01\x00O\x02\x00O\x03\x00SX\x04\x00\x00\x00SSX\x05\x00\x01\x00SSSE";

// Two exchanges of one boundary, and waits, on the sheet of three: opening 0 1 4 5, S S X 2 0 X 3 1 W W S E.
const PAIR: &[u8] = b"O\x00\x00O\x01\x00O\x04\x00O\x05\x00SSX\x02\x00\x00\x00X\x03\x00\x01\x00WWSE";

// Its mirror: opening 2 3 4 5, S X 1 3 X 0 2 W W S S E.
const PAIR_BACK: &[u8] =
    b"O\x02\x00O\x03\x00O\x04\x00O\x05\x00SX\x01\x00\x03\x00X\x00\x00\x02\x00WWSSE";

// A plan of no steps is its own mirror.
const STILL: &[u8] = b"O\x00\x00O\x02\x00O\x03\x00O\x05\x00E";

// A plan, the slots of the list, the bytes of the area, what is told, and what is written from the area's first byte on.
#[derive(Clone, Copy)]
struct Row {
    plan: &'static [u8],
    slots: usize,
    area: usize,
    told: &'static str,
    written: &'static [u8],
}

const UNTOUCHED: Exchange = Exchange {
    brings: 9,
    sends: 9,
    start: 9,
};

fn told<S: Side>(
    heap: Global,
    sheet: Sheet,
    plan: &[u8],
    slots: &mut [Exchange],
    area: &mut [u8],
) -> Result<String, AllocError> {
    match mirror::<S>(sheet, plan, slots, area) {
        Ok(counts) => { format!(in heap; "{} {} {}", counts.steps, counts.waits, counts.exchanges) }
        Err(fault) => format!(in heap; "{fault}"),
    }
}

// The area is full of dots before, and keeps them past what is written.
fn mirrors_as<S: Side>(rt: &impl Abort, heap: Global, sheet: Sheet, row: Row) -> Result<(), Fail> {
    let mut list = vec![in heap; UNTOUCHED; row.slots]?;
    let mut area = vec![in heap; b'.'; row.area]?;
    let line = told::<S>(
        heap,
        sheet,
        row.plan,
        list.as_mut_slice(),
        area.as_mut_slice(),
    )?;
    assert_eq!(rt; line.as_str(), row.told);
    let mut expected = Vec::new(heap);
    expected.extend_from_slice(row.written)?;
    expected.resize(row.area, b'.')?;
    assert_eq!(rt; area.as_slice(), expected.as_slice());
    Ok(())
}

const BACKWARDS: [Row; 12] = [
    // room for all, and more than that
    Row {
        plan: BACK,
        slots: 2,
        area: 29,
        told: "6 0 2",
        written: FORTH,
    },
    Row {
        plan: BACK,
        slots: 5,
        area: 40,
        told: "6 0 2",
        written: FORTH,
    },
    // one byte short, short inside an exchange, short inside the opening, and no byte at all
    Row {
        plan: BACK,
        slots: 2,
        area: 28,
        told: "refused 16 plan 0",
        written: b"O\x00\x00O\x01\x00O\x02\x00O\x03\x00SX\x04\x00\x00\x00SSX\x05\x00\x01\x00SSS",
    },
    Row {
        plan: BACK,
        slots: 2,
        area: 15,
        told: "refused 16 plan 0",
        written: b"O\x00\x00O\x01\x00O\x02\x00O\x03\x00SX\x04",
    },
    Row {
        plan: BACK,
        slots: 2,
        area: 5,
        told: "refused 16 plan 0",
        written: b"O\x00\x00O\x01",
    },
    Row {
        plan: BACK,
        slots: 2,
        area: 0,
        told: "refused 16 plan 0",
        written: b"",
    },
    // a list too short, with room and without
    Row {
        plan: BACK,
        slots: 1,
        area: 29,
        told: "refused 17 plan 20",
        written: b"",
    },
    Row {
        plan: BACK,
        slots: 0,
        area: 0,
        told: "refused 17 plan 13",
        written: b"",
    },
    // refused plans: bytes after the end, bytes that run out, an opening that falls, a forward plan
    Row {
        plan: b"O\x02\x00O\x03\x00O\x04\x00O\x05\x00SX\x01\x00\x05\x00SSX\x00\x00\x04\x00SSSEE",
        slots: 2,
        area: 40,
        told: "refused 8 plan 29",
        written: b"",
    },
    Row {
        plan: b"O\x02\x00O\x03\x00O\x04\x00O\x05\x00SX\x01\x00\x05\x00SSX\x00\x00\x04\x00SSS",
        slots: 2,
        area: 40,
        told: "refused 7 plan 28",
        written: b"",
    },
    Row {
        plan: b"O\x03\x00O\x02\x00",
        slots: 2,
        area: 40,
        told: "refused 9 plan 3",
        written: b"",
    },
    Row {
        plan: FORTH,
        slots: 2,
        area: 40,
        told: "refused 13 plan 12",
        written: b"",
    },
];

#[test]
fn backward_plans(rt: HostRuntime) -> Result<(), Fail> {
    let mut requests = [0u16; 6];
    let reading = SheetReading::new(SIX, &mut requests);
    let turned = reading.sheet().turned();
    for row in BACKWARDS {
        mirrors_as::<Backward>(&rt, rt.alloc(), turned, row)?;
    }
    Ok(())
}

#[test]
fn mirrored_again(rt: HostRuntime) -> Result<(), Fail> {
    let mut requests = [0u16; 6];
    let reading = SheetReading::new(SIX, &mut requests);
    let row = Row {
        plan: FORTH,
        slots: 3,
        area: 31,
        told: "6 0 2",
        written: BACK,
    };
    mirrors_as::<Forward>(&rt, rt.alloc(), reading.sheet(), row)
}

#[test]
fn two_exchanges_of_one_boundary(rt: HostRuntime) -> Result<(), Fail> {
    let mut requests = [0u16; 3];
    let reading = SheetReading::new(THREE, &mut requests);
    let sheet = reading.sheet();
    let there = Row {
        plan: PAIR,
        slots: 2,
        area: 30,
        told: "5 2 2",
        written: PAIR_BACK,
    };
    mirrors_as::<Forward>(&rt, rt.alloc(), sheet, there)?;
    let again = Row {
        plan: PAIR_BACK,
        slots: 2,
        area: 30,
        told: "5 2 2",
        written: PAIR,
    };
    mirrors_as::<Backward>(&rt, rt.alloc(), sheet.turned(), again)
}

#[test]
fn a_plan_of_no_steps(rt: HostRuntime) -> Result<(), Fail> {
    let mut requests = [0u16; 0];
    let reading = SheetReading::new(NONE, &mut requests);
    let sheet = reading.sheet();
    let row = Row {
        plan: STILL,
        slots: 0,
        area: 14,
        told: "0 0 0",
        written: STILL,
    };
    mirrors_as::<Forward>(&rt, rt.alloc(), sheet, row)?;
    mirrors_as::<Backward>(&rt, rt.alloc(), sheet.turned(), row)
}

// The list keeps the exchanges of the plan that was given, also where the area is too short, and its later slots.
#[test]
fn the_list_after_a_mirror(rt: HostRuntime) {
    let mut requests = [0u16; 6];
    let reading = SheetReading::new(SIX, &mut requests);
    let turned = reading.sheet().turned();
    let mut list = [UNTOUCHED; 3];
    let mut area = [0u8; 4];
    let fault = mirror::<Backward>(turned, BACK, &mut list, &mut area);
    assert!(rt; fault.is_err());
    let first = Exchange {
        brings: 1,
        sends: 5,
        start: 1,
    };
    let second = Exchange {
        brings: 0,
        sends: 4,
        start: 3,
    };
    assert_eq!(rt; list, [first, second, UNTOUCHED]);
    assert_eq!(rt; area.as_slice(), b"O\x00\x00O".as_slice());
}
