// Planning: what a choosing rule sees, what it answers, and the pass that asks it at every boundary and tells a scribe.

#![tactic(auto)]

mod aggressive;
mod asking;
mod board;
mod chosen;
mod course;
mod demand;
mod finding;
mod opening;
mod planning;
mod rule;
mod scribe;
mod seeing;
mod starting;
mod turning;
mod uses;
mod view;

pub use aggressive::Aggressive;
pub use demand::Demand;
pub use opening::Opening;
pub use rule::Rule;
pub use view::View;
