// The banks at work on a recording of three rows and a short one.

#![tactic(auto)]

mod reads;
mod recording;
#[cfg(test)]
mod tests;

pub use reads::{read_image, read_rebuilt};
