// The plain world as code, to compare the manager with: nothing moves in it and nothing vanishes.
#![tactic(auto)]

mod object;
mod plain;
mod reach;

pub use plain::PlainWorld;
