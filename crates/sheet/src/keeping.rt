// Reading a sheet and lending it.
ghost use Rattle.std.specs.Prelude.{◌≡◌, ℕ, List as ListOf};
ghost use Rattle.sheet.specs.Exact.{ReadsExactly, OneSheet};
ghost use Rattle.sheet.specs.Headers.{rack_of, sheet_of};
ghost use Rattle.sheet.specs.Reading.{reading};
ghost use Rattle.sheet.specs.Sheets.{kept_sheet, kept_answer, answer_meant, blank_sheet, fault_in, outcome_answer, sheet_after, meant};

use crate::command::Geometry;
use crate::fault::SheetFault;
use crate::header::Header;
use crate::homes::Homes;
use crate::rack::Rack;
use crate::reading::read_sheet;
use crate::requests::Requests;
use crate::result::SheetReading;
use crate::view::Sheet;

impl Rack {
    // One disk, one frame, a fetch time of 1, and one block.
    fn smallest() -> Rack
        ensures { rack_of result ≡ blank_sheet.rack }
    {
        let mut homes = Homes::new();
        homes.push(0);
        Rack {
            geometry: Geometry {
                disks: 1,
                frames: 1,
                fetch: 1,
            },
            homes,
        }
    }
}

impl Header {
    fn blank() -> Header
        ensures sheet { (slots : ListOf ℕ) → sheet_of result slots ≡ blank_sheet }
        ensures requests { result.requests ≡ 0 }
    {
        Header {
            name: [b' '; 16],
            rack: Rack::smallest(),
            requests: 0,
        }
    }
}

impl<'a> SheetReading<'a> {
    // Reads a sheet's bytes. The requests go into the slots, from the first one on; no other slot is changed.
    pub fn new(bytes: &[u8], slots: &'a mut [u16]) -> Self
        ensures outcome { result.outcome ≡ outcome_answer (fault_in (reading bytes.now slots.old).verdict) }
        ensures sheet { kept_sheet result ≡ sheet_after (reading bytes.now slots.old).verdict }
        ensures slots { result.slots.now ≡ (reading bytes.now slots.old).slots }
        ensures lent { result.slots.ghost_name ≡ slots.entry.ghost_name }
        ensures exact { ReadsExactly bytes.now slots.old }
        ensures one { OneSheet }
    {
        match read_sheet(bytes, slots) {
            Ok(header) => SheetReading {
                slots,
                header,
                outcome: Ok(()),
            },
            Err(fault) => SheetReading {
                slots,
                header: Header::blank(),
                outcome: Err(fault),
            },
        }
    }

    // Whether the bytes were accepted, or why and where they were refused.
    pub fn outcome(&self) -> Result<(), SheetFault>
        ensures { result ≡ self.now.outcome }
    {
        self.outcome // a refusal is told as it came
    }

    // The sheet that was read; blank if the bytes were refused.
    pub fn sheet(&self) -> Sheet<'_>
        ensures { meant result ≡ kept_sheet self.now }
    {
        let slots = &self.slots[0..self.header.requests];
        Sheet {
            name: &self.header.name,
            rack: &self.header.rack,
            requests: Requests {
                slots,
                turned: false,
            },
        }
    }

    // The sheet that was read, or why and where the bytes were refused.
    pub fn accepted(&self) -> Result<Sheet<'_>, SheetFault>
        ensures { answer_meant result ≡ kept_answer self.now }
    {
        self.outcome()?;
        Ok(self.sheet())
    }
}
