// The public library: users import this crate alone.

#![tactic(auto)]

mod fault;

pub use fault::Fault;
pub use refusal::{Cause, Layer, Refusal, Refused};
pub use sheet::{MOST_BLOCKS, MOST_REQUESTS, Rack, Sheet, SheetCause, SheetFault, SheetReading};
