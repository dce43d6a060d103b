// The numbers of a call: what each is, and how many there are.
ghost use Rattle.std.specs.Prelude.{◌≡◌, ◌≤◌};
ghost use Rattle.mutator.specs.Numbers.{value as value_of, most as most_of, like, at, index as index_of};
ghost use Rattle.mutator.specs.Listed.{listed};

// A number of a call, by what it is of.
#[derive(Clone, Copy, PartialEq, Eq, Debug)]
pub enum Number {
    Slot(u16),
    // of an object
    Place(u16),
    // of an object
    WordIndex(u16),
    // how many places or words
    Size(u16),
    // what a word shall hold
    Value(u64),
}

impl Number {
    pub fn value(self) -> u64
        ensures { result ≡ value_of self }
    {
        match self {
            Number::Slot(n) | Number::Place(n) | Number::WordIndex(n) | Number::Size(n) => n as u64,
            Number::Value(n) => n,
        }
    }

    // The most that a number of its kind may be.
    pub fn most(self) -> u64
        ensures { result ≡ most_of self }
    {
        match self {
            Number::Slot(_) | Number::Place(_) | Number::WordIndex(_) | Number::Size(_) => 65_535,
            Number::Value(_) => u64::MAX,
        }
    }

    // Another of its kind.
    pub fn like(self, n: u64) -> Number
        requires { n ≤ most_of self }
        ensures { result ≡ like self n }
    {
        // at most 65,535 but for a value, so try_from would need an arm that no number takes
        match self {
            Number::Slot(_) => Number::Slot(n as u16),
            Number::Place(_) => Number::Place(n as u16),
            Number::WordIndex(_) => Number::WordIndex(n as u16),
            Number::Size(_) => Number::Size(n as u16),
            Number::Value(_) => Number::Value(n),
        }
    }

    fn index(self) -> u16
        ensures { result ≡ index_of self }
    {
        match self {
            Number::Slot(n) | Number::Place(n) | Number::WordIndex(n) | Number::Size(n) => n,
            Number::Value(_) => 0,
        }
    }
}

// All numbers of a call, from the left: so many kinds of rows, since the manager's crates have no arrays.
#[derive(Clone, Copy, PartialEq, Eq, Debug)]
pub enum Numbers {
    Zero,
    One(Number),
    Two(Number, Number),
    Three(Number, Number, Number),
}

impl Numbers {
    // The number at this place; a value of 0 where there is none.
    fn at(self, i: usize) -> Number
        ensures { result ≡ at (listed self) i }
    {
        match (self, i) {
            (Numbers::One(a) | Numbers::Two(a, _) | Numbers::Three(a, _, _), 0) => a,
            (Numbers::Two(_, b) | Numbers::Three(_, b, _), 1) => b,
            (Numbers::Three(_, _, c), 2) => c,
            _ => Number::Value(0),
        }
    }

    pub(crate) fn index(self, i: usize) -> u16
        ensures { result ≡ index_of (at (listed self) i) }
    {
        self.at(i).index()
    }

    pub(crate) fn value(self, i: usize) -> u64
        ensures { result ≡ value_of (at (listed self) i) }
    {
        self.at(i).value()
    }
}
