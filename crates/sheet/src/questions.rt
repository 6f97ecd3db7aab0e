// What a sheet and its rack tell.
ghost use Rattle.std.specs.Prelude.{◌≡◌, ◌<◌, ◌≤◌, length, IfSome};
ghost use Rattle.std.specs.List.{slice_get};
ghost use Rattle.model.specs.Sheet.{turned};
ghost use Rattle.sheet.specs.Headers.{rack_of};
ghost use Rattle.sheet.specs.Sheets.{meant};

use crate::rack::Rack;
use crate::view::Sheet;

impl Rack {
    // How many disks there are.
    pub fn disks(&self) -> u8
        ensures { result ≡ (rack_of self.now).disks }
    {
        self.geometry.disks
    }

    // How many frames there are.
    pub fn frames(&self) -> u8
        ensures frames { result ≡ (rack_of self.now).frames }
        ensures few { result ≤ 64 }
    {
        self.geometry.frames
    }

    // How many steps a fetch takes.
    pub fn fetch(&self) -> u8
        ensures fetch { result ≡ (rack_of self.now).fetch }
        ensures some { 0 < result }
        ensures short { result ≤ 64 }
    {
        self.geometry.fetch
    }

    // How many blocks there are.
    pub fn blocks(&self) -> usize
        ensures blocks { result ≡ length (rack_of self.now).homes }
        ensures few { result ≤ 1024 }
    {
        self.homes.len()
    }

    // The disk of a block, if there is such a block.
    pub fn disk_of(&self, block: u16) -> Option<u8>
        ensures disk { result ≡ slice_get (rack_of self.now).homes block }
        ensures low { IfSome result (λ d. d < 8) }
    {
        self.homes.get(usize::from(block))
    }
}

impl<'a> Sheet<'a> {
    // The sixteen bytes of the name.
    pub fn name(&self) -> &'a [u8]
        ensures name { result.now ≡ (meant self.now).name }
        ensures sixteen { length result.now ≡ 16 }
    {
        self.name.as_slice()
    }

    // The rack that the sheet is read from.
    pub fn rack(&self) -> &'a Rack
        ensures { rack_of result.now ≡ (meant self.now).rack }
    {
        self.rack
    }

    // How many requests there are.
    pub fn len(&self) -> usize
        ensures requests { result ≡ length (meant self.now).requests }
        ensures few { result ≤ 4096 }
    {
        self.requests.len()
    }

    // The block that is requested at a position, counted from 0 in this sheet's own order.
    pub fn request(&self, position: usize) -> Option<u16>
        ensures { result ≡ slice_get (meant self.now).requests position }
    {
        self.requests.at(position)
    }

    // The turned sheet: the same requests, in the same slots, from the far end.
    pub fn turned(&self) -> Sheet<'a>
        ensures turned { meant result ≡ turned (meant self.now) }
        ensures back { turned (meant result) ≡ meant self.now }
        ensures same { result.requests.slots ≡ self.now.requests.slots }
    {
        Sheet {
            name: self.name,
            rack: self.rack,
            requests: self.requests.turned(),
        }
    }
}
