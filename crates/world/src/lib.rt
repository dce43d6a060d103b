// Worlds, and the theorems on them: what is reached, what it weighs, and when two are alike.
#![tactic(auto)]

mod laws;
mod room;

pub use laws::{alike_equivalence, alike_weighs, reached_closed, weight_by_members};
pub use room::room_for;
