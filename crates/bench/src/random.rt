// Numbers as if at random: each follows from the one before, so that a seed always gives the same ones.
ghost use Rattle.std.specs.Prelude.{◌≡◌};
ghost use Rattle.bench.specs.Draws.{next_of, drawn};

// Knuth's linear congruential generator modulo 2^64.
const FACTOR: u64 = 6364136223846793005;

const STEP: u64 = 1442695040888963407;

#[derive(Clone, Copy)]
pub struct Random {
    pub last: u64,
}

impl Random {
    // The next number.
    pub fn word(&mut self) -> u64
        ensures value { result ≡ next_of self.old.last }
        ensures after { self.new.last ≡ result }
    {
        self.last = FACTOR.wrapping_mul(self.last).wrapping_add(STEP);
        self.last
    }

    // A number below n, or 0 where n is 0. The upper half of a word is the better one.
    pub fn below(&mut self, n: u16) -> u16
        ensures value { result ≡ drawn self.new.last n }
        ensures after { self.new.last ≡ next_of self.old.last }
    {
        let upper = self.word() >> 32;
        // below a u16, so try_from would need an arm that no number takes
        (upper % n.max(1) as u64) as u16
    }
}
