// A bounded list of records over a slice that the caller lends: one kind of list for every kind of record.

#![tactic(auto)]

mod full;
mod list;

pub use full::ListFull;
pub use list::List;
