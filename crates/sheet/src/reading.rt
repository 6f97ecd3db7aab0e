// The commands of a sheet, one after the other, to its end.
ghost use Rattle.std.specs.Prelude.{◌≡◌, ℕ, ◌<◌, ◌≤◌, ◌&&◌, ◌==◌, List as ListOf, length, slice_index, IfOk};
ghost use Rattle.model.specs.Sheet.{RackFits};
ghost use Rattle.records.specs.Pushed.{OnlyPushed};
ghost use Rattle.sheet.specs.Drafts.{so_far};
ghost use Rattle.sheet.specs.Exact.{ReadsExactly, OneSheet};
ghost use Rattle.sheet.specs.Headers.{sheet_of, outcome_of};
ghost use Rattle.sheet.specs.Racks.{homes_of, rack_with};
ghost use Rattle.sheet.specs.Reading.{is_nothing, sheet_said, reading};

use crate::draft::Draft;
use crate::fault::SheetFault;
use crate::header::Header;
use crate::rack::Rack;
use crate::stage::Stage;
use commands::Reader;
use records::List;

impl Draft {
    // Whether the end was read and no byte is left.
    fn is_complete(&self, reader: Reader) -> bool
        ensures { result ≡ (is_nothing self.now.stage && (length reader.entry.rest.now == 0)) }
    {
        self.stage == Stage::Nothing && reader.rest.is_empty()
    }

    // What a whole sheet said.
    fn header(&self, requests: usize) -> Header
        requires rack { RackFits (rack_with self.now.geometry self.now.homes) }
        requires few { requests ≤ 4096 }
        ensures sheet { (slots : ListOf ℕ) → sheet_of result slots ≡ sheet_said (so_far self.now requests slots) }
        ensures requests { result.requests ≡ requests }
    {
        let rack = Rack {
            geometry: self.geometry,
            homes: self.homes,
        };
        Header {
            name: self.name,
            rack,
            requests,
        }
    }
}

// Reads a sheet's bytes, command by command, into a list that is empty.
// Apart from `read_sheet`: a proof can cite what the list's slots hold here, and no more once the list has given them back.
fn read_commands(bytes: &[u8], list: &mut List<u16>) -> Result<Header, SheetFault>
    requires { list.old.len ≡ 0 }
    ensures outcome { outcome_of result list.new.slots.now ≡ reading bytes.now list.old.slots.now }
    ensures room { IfOk result (λ h. h.requests ≤ length list.new.slots.now) }
    ensures known { IfOk result (λ h. (i : ℕ) → i < h.requests → slice_index list.new.slots.now i < length (homes_of h.rack.homes)) }
    ensures pushed { OnlyPushed list.old list.new }
{
    let mut draft = Draft::new();
    let mut reader = Reader::new(bytes);
    while !draft.is_complete(reader) {
        reader = draft.step(reader, list)?;
    }
    Ok(draft.header(list.len()))
}

// Reads a sheet's bytes. The requests go into the caller's slots, from the first one on.
#[tactic(auto, using(crate::proofs::Exactly::exactly, crate::proofs::Exactly::one_sheet))]
pub(crate) fn read_sheet(bytes: &[u8], slots: &mut [u16]) -> Result<Header, SheetFault>
    ensures outcome { outcome_of result slots.new ≡ reading bytes.now slots.old }
    ensures room { IfOk result (λ h. h.requests ≤ length slots.new) }
    ensures known { IfOk result (λ h. (i : ℕ) → i < h.requests → slice_index slots.new i < length (homes_of h.rack.homes)) }
    ensures exact { ReadsExactly bytes.now slots.old }
    ensures one { OneSheet }
{
    let mut list = List::new(slots);
    read_commands(bytes, &mut list)
}
