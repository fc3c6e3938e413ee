// What the stages through the walks hand on to those after them.

#![tactic(auto)]

mod merged;
mod settled;

pub use merged::{Kept, Merged};
pub use settled::{Figures, Walks};
