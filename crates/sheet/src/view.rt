ghost use Rattle.std.specs.Prelude.{◌≡◌, ℕ, ◌<◌, ◌≤◌, length, slice_index};
ghost use Rattle.sheet.specs.Racks.{homes_of};

use crate::rack::Rack;
use crate::requests::Requests;

// A sheet that was read. The requests lie in the caller's slots; a turned sheet reads the same slots from the far end.
#[derive(Clone, Copy, Debug)]
pub struct Sheet<'a> {
    pub(crate) name: &'a [u8; 16],
    pub(crate) rack: &'a Rack,
    pub(crate) requests: Requests<'a>,
    // a lemma about a sheet, outside any function, does not know the length from the array's type
    ghost sixteen: { length name.now ≡ 16 },
    ghost few_requests: { length requests.slots.now ≤ 4096 },
    ghost known: { (i : ℕ) → i < length requests.slots.now → slice_index requests.slots.now i < length (homes_of rack.now.homes) },
}
