// The leaves of the manager: a row of words that counts what is touched, and what single words say.
#![tactic(auto)]

ghost use Rattle.std.specs.Prelude.{◌≡◌, ℕ, ◌+◌, ◌<◌, List, length, slice_index, slice_set};
ghost use Rattle.std.specs.Borrow.{GName};
ghost use Rattle.words.specs.Past.{Past, Notes, NotesNothing};

pub mod asked;
pub mod edges;
pub mod header;
pub mod kind;
pub mod lent;
pub mod names;
pub mod reference;

pub use asked::Asked;

// A row of words. Whoever has it by this trait alone is counted, word by word.
pub trait Words {
    ghost row: { Self → List ℕ };

    ghost touched: { Self → ℕ };

    // Who lent them: no touch changes that, so that the lender finds them as they were left.
    ghost lender: { Self → GName };

    // What was asked of them may be this. Words of which a stop leaves nothing have no past: a relation, so that none has to
    // keep its past as data.
    ghost past: { Self → Past → Type 0 };

    fn count(&self) -> usize
        ensures { result ≡ length (row self.now) };

    fn get(&mut self, i: usize) -> u64
        requires { (i < length (row self.old)) × (touched self.old < 9223372036854775808) }
        ensures value { result ≡ slice_index (row self.old) i }
        ensures same { row self.new ≡ row self.old }
        ensures one { touched self.new ≡ touched self.old + 1 }
        ensures lender { lender self.new ≡ lender self.old }
        ensures past { NotesNothing (past self.old) (past self.new) };

    // An index with the word for it, as slices are written.
    fn put(&mut self, i: usize, x: u64)
        requires { (i < length (row self.old)) × (touched self.old < 9223372036854775808) }
        ensures after { row self.new ≡ slice_set (row self.old) i x }
        ensures one { touched self.new ≡ touched self.old + 1 }
        ensures lender { lender self.new ≡ lender self.old }
        ensures past { Notes (Asked.Put i x) (past self.old) (past self.new) };
}
