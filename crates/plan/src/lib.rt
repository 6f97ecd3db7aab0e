// Plans: read command by command and checked against a sheet, on either side.

#![tactic(auto)]

mod admitting;
mod backwards;
mod checking;
mod counts;
mod ending;
mod fault;
mod following;
mod front;
mod giving;
mod judging;
mod mirror_fault;
mod mirroring;
mod noting;
mod passing;
mod places;
mod reader;
mod receipt;
mod rewind;
mod rewinding;
mod side;
mod step;
mod track;
mod verdict;
mod writer;
mod writing;

pub use checking::check;
pub use counts::Counts;
pub use fault::PlanFault;
pub use mirror_fault::MirrorFault;
pub use mirroring::mirror;
pub use places::Places;
pub use receipt::Receipt;
pub use side::{Backward, Forward, Headed, Heading, Lane, Side};
