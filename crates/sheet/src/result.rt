ghost use Rattle.std.specs.Prelude.{◌≡◌, ℕ, ◌<◌, ◌≤◌, length, slice_index};
ghost use Rattle.sheet.specs.Racks.{homes_of};

use crate::fault::SheetFault;
use crate::header::Header;

// What reading a sheet's bytes came to: the sheet, with its requests in the slots that the caller lent, or a fault. Where there is a
// fault the sheet is blank: one disk, one frame, a fetch time of 1, one block, no request.
// The slots stand here and no list over them: where the bytes were refused, the list is longer than the blank sheet's requests.
#[derive(Drop)]
pub struct SheetReading<'a> {
    pub(crate) slots: &'a mut [u16],
    pub(crate) header: Header,
    // beside the header, and not in one Result: `sheet` lends the blank sheet too, and it borrows it from here
    pub(crate) outcome: Result<(), SheetFault>,
    ghost enough_slots: { header.requests ≤ length slots.now },
    ghost known: { (i : ℕ) → i < header.requests → slice_index slots.now i < length (homes_of header.rack.homes) },
}
