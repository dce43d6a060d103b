// How many words were touched: in all, and in the worst call.
ghost use Rattle.std.specs.Prelude.{◌≡◌, ◌+◌, ◌-◌, ◌*◌, ◌/◌, ◌^◌, min, max, fold};
ghost use Rattle.bench.specs.Tallies.{none, and_one, of_kind};

use crate::kind::CallKind;
use mutator::Ask;

#[derive(Clone, Copy, Default)]
pub struct Tally {
    pub calls: u64,
    pub total: u64,
    pub worst: u64,
}

impl Tally {
    // One call more, which touched so many words.
    pub fn add(self, touched: u64) -> Tally
        ensures { result ≡ and_one self touched }
    {
        Tally {
            calls: self.calls.saturating_add(1),
            total: self.total.saturating_add(touched),
            worst: self.worst.max(touched),
        }
    }

    // Of calls that touched so many words each. No From: a slice of numbers is no tally.
    pub fn of(touches: &[u64]) -> Tally
        ensures { result ≡ fold and_one none touches.now }
    {
        touches
            .iter()
            .fold(Tally::default(), |tally, touched| tally.add(*touched))
    }

    // Of the calls of one kind, where touches has a number for each call, as the manager is handed calls and a row for answers.
    pub fn of_kind(kind: CallKind, calls: &[Ask], touches: &[u64]) -> Tally
        ensures { result ≡ of_kind kind.name.now none calls.now touches.now }
    {
        calls
            .iter()
            .zip(touches)
            .filter(|(ask, _)| kind.is_of(ask))
            .fold(Tally::default(), |tally, (_, touched)| tally.add(*touched))
    }

    // The words touched in a call on average, in tenths or hundredths of a word or the like; 0 where there was no call.
    pub fn mean(self, parts: u64) -> u64
        ensures { result ≡ min (self.total * parts) (2 ^ 64 - 1) / max self.calls 1 }
    {
        self.total.saturating_mul(parts) / self.calls.max(1)
    }
}
