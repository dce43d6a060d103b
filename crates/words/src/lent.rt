// Words that are lent as a slice.
ghost use Rattle.std.specs.Prelude.{◌≡◌, ℕ, ◌+◌, ◌<◌, length, get_or, set};

use crate::Words;

// A lent slice, and how often a word of it was touched.
#[derive(Drop)]
pub struct Lent<'a> {
    pub words: &'a mut [u64],
    pub count: u64,
}

impl<'a> Words for Lent<'a> {
    ghost row = { λ s. s.words.now };

    ghost touched = { λ s. s.count };

    ghost lender = { λ s. s.words.ghost_name };

    // Memory: a stop leaves nothing of it.
    ghost past = { λ s p. ⊥ };

    fn count(&self) -> usize {
        self.words.len()
    }

    fn get(&mut self, i: usize) -> u64 {
        let word = self.words[i];
        self.count += 1;
        word
    }

    fn put(&mut self, i: usize, x: u64) {
        self.words[i] = x;
        self.count += 1;
    }
}
