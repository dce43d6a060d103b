// The calls that a mutator makes of the manager.
#![tactic(auto)]

mod core_calls;

pub use core_calls::{clear, copy, get, read, same, set, sizes, write};
