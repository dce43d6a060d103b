// The table of calls: what each is called, what its numbers are, and the call that is made of its numbers.
ghost use Rattle.std.specs.Prelude.{◌≡◌};
ghost use Rattle.mutator.specs.Listed.{listed, Lists};
ghost use Rattle.mutator.specs.Table.{call_at, calls, entry as entry_of};

use crate::Ask;
use crate::number::Number::{Place, Size, Slot, Value, WordIndex};
use crate::number::Numbers;
use crate::number::Numbers::{One, Three, Two, Zero};
use crate::refusal::Refusal;
use crate::refusal::Refusal::{Full, Nothing};

// A call's name and its numbers, and what comes of it where there is no room and each of its slots is there and empty.
#[derive(Clone, Copy)]
pub struct Entry {
    pub name: &'static str,
    pub numbers: Numbers,
    pub empty: Result<u64, Refusal>,
}

// How many calls there are.
pub const CALLS: usize = 10;

impl Ask {
    // What the table says of the call. Compiled into its callers, of which most want one part of it.
    #[inline(always)]
    pub fn entry(&self) -> Entry
        ensures { Lists result (entry_of self.now) }
    {
        let (name, numbers, empty) = match *self {
            Ask::New(s, r, n) => ("New", Three(Slot(s), Size(r), Size(n)), Err(Full)),
            Ask::Get(t, s, i) => ("Get", Three(Slot(t), Slot(s), Place(i)), Err(Nothing)),
            Ask::Set(s, i, t) => ("Set", Three(Slot(s), Place(i), Slot(t)), Err(Nothing)),
            Ask::Read(s, i) => ("Read", Two(Slot(s), WordIndex(i)), Err(Nothing)),
            Ask::Write(s, i, x) => (
                "Write",
                Three(Slot(s), WordIndex(i), Value(x)),
                Err(Nothing),
            ),
            Ask::Copy(t, s) => ("Copy", Two(Slot(t), Slot(s)), Ok(0)),
            Ask::Clear(t) => ("Clear", One(Slot(t)), Ok(0)),
            Ask::Same(s, t) => ("Same", Two(Slot(s), Slot(t)), Ok(1)),
            Ask::Sizes(s) => ("Sizes", One(Slot(s)), Err(Nothing)),
            Ask::Collect => ("Collect", Zero, Ok(0)),
        };
        Entry {
            name,
            numbers,
            empty,
        }
    }

    // The call at a place of the table, of these numbers; the kinds of its numbers are the same for all of them. Compiled into
    // its callers: a search by name makes ten calls without numbers.
    #[inline(always)]
    pub fn made(place: usize, ns: Numbers) -> Option<Ask>
        ensures { result ≡ call_at calls place (listed ns) }
    {
        Some(match place {
            0 => Ask::New(ns.index(0), ns.index(1), ns.index(2)),
            1 => Ask::Get(ns.index(0), ns.index(1), ns.index(2)),
            2 => Ask::Set(ns.index(0), ns.index(1), ns.index(2)),
            3 => Ask::Read(ns.index(0), ns.index(1)),
            4 => Ask::Write(ns.index(0), ns.index(1), ns.value(2)),
            5 => Ask::Copy(ns.index(0), ns.index(1)),
            6 => Ask::Clear(ns.index(0)),
            7 => Ask::Same(ns.index(0), ns.index(1)),
            8 => Ask::Sizes(ns.index(0)),
            9 => Ask::Collect,
            _ => return None,
        })
    }
}
