// What the programs that play a script share: playing it line by line or reading it whole, printing its answers, and saying in which line a fault is.
#![tactic(auto)]

mod fault;
mod lent;
mod lines;
mod machine;
mod printing;
mod reading;

pub use fault::Fault;
pub use lent::lent_words;
pub use lines::play_line;
pub use machine::Machine;
pub use printing::{exit_code, open_output, print_answers, report};
pub use reading::{Script, open_input, read_script};
