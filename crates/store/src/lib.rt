// The manager over a row of words, and how it reads and writes headers, references and words.
#![tactic(auto)]

mod access;
mod barriers;
mod cursor;
mod empty;
mod manager;
mod map;
mod objects;
mod roots;
mod slots;

pub use cursor::Objects;
pub use empty::{fits, none_header, start};
pub use manager::Manager;
pub use map::{ADDRESSES, NONE, OWN, ROOT};
pub use objects::Object;
pub use roots::Range;
