// The text of scripts: a call is a line such as `New 0 2 1`, an answer is `CODE NUMBER`, and the first line is `WORDS SLOTS`.
#![tactic(auto)]

mod error;
mod numbers;
mod print;
mod read;
mod reader;
mod theorems;
mod tokens;

pub use error::LineError;
pub use print::{AnswerText, CallText};
pub use read::{
    HeapSize, MOST_WORDS, is_passed_over, read_call, read_heap_size, read_line, read_opening,
};
pub use theorems::{calls_are_read_back, calls_are_read_exactly, heap_sizes_are_read_exactly};
