// Reads a sheet from standard input and tells what was read, or the one refusal.

#![tactic(auto)]

use backread::{Fault, MOST_REQUESTS, Sheet, SheetReading};
use std::io;
use std::io::{Read, Write};
use std::process::ExitCode;

fn input(rt: &HostRuntime) -> io::Result<Vec<u8>> {
    let mut bytes = Vec::new(rt.alloc());
    rt.stdin().read_to_end(&mut bytes)?;
    Ok(bytes)
}

fn report(rt: &HostRuntime, sheet: Sheet) -> io::Result<()> {
    rt.stdout().write_all(sheet.name())?;
    let rack = sheet.rack();
    println!(rt;
        "\ndisks {}\nframes {}\nfetch {}\nblocks {}\nrequests {}",
        rack.disks(),
        rack.frames(),
        rack.fetch(),
        rack.blocks(),
        sheet.len()
    )
}

// Tells of the sheet, or of the refusal, whose line says all.
fn main(rt: HostRuntime) -> anyhow::Result<ExitCode> {
    let bytes = input(&rt)?;
    let mut slots = vec![in rt.alloc(); 0u16; MOST_REQUESTS]?;
    let reading = SheetReading::new(bytes.as_slice(), slots.as_mut_slice());
    match reading.accepted() {
        Ok(sheet) => {
            report(&rt, sheet)?;
            Ok(ExitCode::SUCCESS)
        }
        Err(fault) => {
            println!(rt; "{}", Fault::from(fault))?;
            Ok(ExitCode::FAILURE)
        }
    }
}
