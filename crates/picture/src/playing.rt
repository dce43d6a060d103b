// A script's calls on a manager over lent words, and what then stands at each word.
ghost use Rattle.std.specs.Prelude.{◌≡◌, ◌*◌, ◌<◌, length, MatchResult};
ghost use Rattle.store.specs.Frame.{Frame, IsAmid, TouchesAtMost};
ghost use Rattle.picture.specs.Played.{Shows, Sweeps, Unshown};

use crate::spot::Spot;
use crate::survey::survey;
use collector::collect;
use heap::play_on;
use mutator::Ask;
use std::alloc::{AllocError, Global};
use store::{Manager, fits, start};
use words::Words;
use words::lent::Lent;

// Why there is no heap to show.
#[derive(Clone, Copy, PartialEq, Eq, Debug)]
pub enum Unseen {
    // to start: the manager's own and one for each slot
    TooFewWords,
    NoMemory,
}

impl From<AllocError> for Unseen {
    ghost use Rattle.picture.specs.declared.playing.Unseen.TheVariants.{NoMemory};

    ghost from_gives = { λ e unseen. unseen ≡ NoMemory };

    fn from(_: AllocError) -> Unseen {
        Unseen::NoMemory
    }
}

// A collection, if one is wanted.
fn sweep<W: Words>(m: &mut Manager<W>, wanted: bool)
    requires { IsAmid W.Words m.old }
    ensures sweeps { Sweeps wanted m.old.slots (W.Words.row m.old.words) (W.Words.row m.new.words) }
    ensures frame { Frame W.Words m.old m.new }
    ensures touches { TouchesAtMost (8 * length (W.Words.row m.old.words)) W.Words m.old m.new }
{
    if wanted {
        collect(m);
    }
}

// When these calls are played, and before or after a collection made then.
#[derive(Clone, Copy)]
pub struct Moment<'a> {
    pub slots: u16,
    pub calls: &'a [Ask],
    pub collected: bool,
}

impl Moment<'_> {
    // What stands at each word of lent words then, behind the manager's own.
    pub fn spots(&self, mem: &mut [u64], heap: Global) -> Result<Vec<Spot>, Unseen>
        requires { length mem.old < 72057594037927936 }
        ensures { let n = length mem.old in let at = self.now in
            MatchResult result (λ v. Shows n at.slots at.calls.now at.collected v.items)
            (λ e. Unshown n at.slots e) }
    {
        let mut m = Manager {
            words: Lent {
                words: mem,
                count: 0,
            },
            slots: self.slots,
        };
        if !fits(&m.words, m.slots) {
            return Err(Unseen::TooFewWords);
        }
        start(&mut m);
        // The facade's loop; what is answered is not shown, and is not kept.
        let mut none = vec![in heap; (); self.calls.len()]?;
        play_on(self.calls, &mut m, true, none.as_mut_slice());
        m.words.count = 0;
        sweep(&mut m, self.collected);
        let spots = survey(&mut m, heap)?;
        Ok(spots)
    }
}
