// Sheets: the rack, and the list of blocks that are requested, read from bytes.

#![tactic(auto)]

mod command;
mod draft;
mod fault;
mod header;
mod homes;
mod keeping;
mod letter;
mod limits;
mod questions;
mod rack;
mod reading;
mod requests;
mod result;
mod stage;
mod step;
mod taking;
mod view;

pub use fault::{SheetCause, SheetFault};
pub use limits::{MOST_BLOCKS, MOST_REQUESTS};
pub use rack::Rack;
pub use result::SheetReading;
pub use view::Sheet;
