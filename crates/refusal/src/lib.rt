// What a caller is told when something is refused: a number, the layer that refused, and a place.

#![tactic(auto)]

mod refusal;
mod refused;

pub use refusal::{Layer, Refusal};
pub use refused::{Cause, Refused};
