// Disk banks: blocks of 512 bytes on up to eight disks, of which each fetches one block at a time.

#![tactic(auto)]

mod bank;
mod copy;
mod disk_bank;
mod drives;
mod fault;
mod fetch;
mod image;
mod layout;
mod limits;
mod rebuilt;
mod state;
mod store;

pub use bank::Bank;
pub use fault::BankFault;
pub use fetch::fetch_block;
pub use image::ImageBank;
pub use layout::Layout;
pub use rebuilt::RebuiltBank;
pub use state::DiskState;
