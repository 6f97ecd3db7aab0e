// The bytes of a sheet or of a plan, which are commands, read one after the other.

#![tactic(auto)]

mod reader;

pub use reader::Reader;
