// The memory manager: one call, and a whole script, on lent words.
#![tactic(auto)]

mod calling;
mod core_calls;
mod playing;

pub use calling::{call, call_with};
pub use playing::{Turn, play, play_as, play_on};
