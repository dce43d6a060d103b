// What a mutator asks and is told, and the theorems on calls and scripts.
#![tactic(auto)]

mod laws;
mod number;
mod refusal;
mod table;

pub use laws::{alike_answers, alike_step, staying_valid, table_holds, worked_scripts};
pub use number::{Number, Numbers};
pub use refusal::Refusal;
pub use table::{CALLS, Entry};

// What a mutator asks. Slots, places, words and sizes are numbers below 65,536.
#[derive(Clone, Copy, PartialEq, Eq, Debug)]
pub enum Ask {
    New(u16, u16, u16),
    Get(u16, u16, u16),
    Set(u16, u16, u16),
    Read(u16, u16),
    Write(u16, u16, u64),
    Copy(u16, u16),
    Clear(u16),
    Same(u16, u16),
    Sizes(u16),
    Collect,
}

// 0 full, 1 done, 2 no such slot, 3 nothing in the slot, 4 no such place or word; and a number. It crosses to C as it is.
#[repr(C)]
#[derive(Clone, Copy, PartialEq, Eq, Debug)]
pub struct Told {
    pub code: u8,
    pub val: u64,
}
