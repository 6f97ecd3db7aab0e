ghost use Rattle.std.specs.Prelude.{◌≤◌};

use crate::rack::Rack;

// What a sheet says besides the requests, and how many requests it has.
#[derive(Clone, Copy, Debug)]
pub(crate) struct Header {
    pub(crate) name: [u8; 16],
    pub(crate) rack: Rack,
    pub(crate) requests: usize,
    ghost few_requests: { requests ≤ 4096 },
}
