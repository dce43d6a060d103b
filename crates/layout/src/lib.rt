// Rows of words: where objects lie, which rows are sound, and which world one stands for. Definitions and lemmas alone.
#![tactic(auto)]

mod laws;

pub use laws::sound_rows;
