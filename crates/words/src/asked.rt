// What may be asked of words that outlast a stop.

// A word is put at an index, or all that was put is to last.
#[derive(Clone, Copy, PartialEq, Eq, Debug)]
pub enum Asked {
    Put(usize, u64),
    Sync,
}
