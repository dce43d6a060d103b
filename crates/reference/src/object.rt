// One object of the plain world: its places and its words.
ghost use Rattle.std.specs.Prelude.{◌≡◌, ◌<◌, vec_len};

use std::alloc::Global;

// A place holds an object's number, or 0 for none, as in the specification. There are fewer than 65,536 of each.
#[derive(Drop)]
pub struct Object {
    pub places: Vec<usize>,
    pub words: Vec<u64>,
    ghost few: { (vec_len places < 65536) × (vec_len words < 65536) },
}
