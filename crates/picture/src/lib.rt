// A picture of the heap: what stands at each word after a script's calls, and where in the picture.
#![tactic(auto)]

mod grid;
mod playing;
mod spot;
mod survey;
mod svg;

pub use grid::{Arrow, Point, corner, height};
pub use playing::{Moment, Unseen};
pub use spot::{Part, Spot};
pub use svg::{Counts, Picture};
