// Words of its own that keep a trace, for tests and measurements.
#![tactic(auto)]

ghost use Rattle.std.specs.Prelude.{◌≡◌, ℕ, ◌+◌, ◌<◌, [], vec_len, vec_capacity, None, IfSome, IsSome, IsSomeAnd};
ghost use Rattle.traced.specs.Trace.{Noted};

use std::alloc::Global;
use words::Words;

// A row of words, how often one was touched, and which, in order and with repeats, so a list.
#[derive(Drop)]
pub struct Traced {
    pub words: Vec<u64>,
    pub count: u64,
    // none once there was no memory for it
    pub trace: Option<Vec<usize>>,
    // and what it was until then
    pub cut: Option<Vec<usize>>,
}

impl Traced {
    // Over these words, of which none was touched yet.
    pub fn over(heap: Global, words: Vec<u64>) -> Traced
        ensures row { result.words ≡ words }
        ensures count { result.count ≡ 0 }
        ensures trace { IsSomeAnd result.trace (λ t. t.items ≡ []) }
        ensures uncut { result.cut ≡ None }
    {
        Traced {
            words,
            count: 0,
            trace: Some(Vec::new(heap)),
            cut: None,
        }
    }

    // Counts a touch of the word i, and puts it into the trace.
    fn note(&mut self, i: usize)
        requires { self.old.count < 9223372036854775808 }
        ensures words { self.new.words ≡ self.old.words }
        ensures count { self.new.count ≡ self.old.count + 1 }
        ensures trace { Noted i self.old.trace self.old.cut self.new.trace self.new.cut }
        ensures room { IfSome self.old.trace
            (λ t. vec_len t < vec_capacity t → IsSome self.new.trace) }
    {
        self.count += 1;
        if let Some(trace) = &mut self.trace
            && trace.push(i).is_err()
        {
            self.cut = self.trace.take();
        }
    }
}

impl Words for Traced {
    ghost row = { λ s. s.words.items };

    ghost touched = { λ s. s.count };

    // Its own.
    ghost lender = { λ s. 0 };

    // Memory: a stop leaves nothing of it.
    ghost past = { λ s p. ⊥ };

    fn count(&self) -> usize {
        self.words.len()
    }

    fn get(&mut self, i: usize) -> u64 {
        let word = self.words[i];
        self.note(i);
        word
    }

    fn put(&mut self, i: usize, x: u64) {
        self.words[i] = x;
        self.note(i);
    }
}
