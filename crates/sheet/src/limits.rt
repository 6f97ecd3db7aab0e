// The limits of a sheet that callers size their memory by.

// A rack has at most this many blocks.
pub const MOST_BLOCKS: usize = 1024;

// A sheet has at most this many requests.
pub const MOST_REQUESTS: usize = 4096;
