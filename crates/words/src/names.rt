// Numbers with a meaning, so that none is taken for another. Slots, places and words are fewer than 65,536; their
// numbers have 64 bits, as a caller may give them: one that is cut to 16 is masked wherever it is used.

// The number of a slot.
#[derive(Clone, Copy, PartialEq, Eq, Debug)]
pub struct Slot(pub u64);

// The number of a place that an object has.
#[derive(Clone, Copy, PartialEq, Eq, Debug)]
pub struct Place(pub u64);

// The number of a word that an object has.
#[derive(Clone, Copy, PartialEq, Eq, Debug)]
pub struct WordIndex(pub u64);

// Where an object lies: the index of its header in the row.
#[derive(Clone, Copy, PartialEq, Eq, Debug)]
pub struct Addr(pub usize);
