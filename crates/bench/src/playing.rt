// A script that is played on the manager, over words of the program's own: what is answered, and the words touched in each call.
ghost use Rattle.std.specs.Prelude.{◌≡◌, map, length, IfOk, vec_len};
ghost use Rattle.world.specs.World.{blank};
ghost use Rattle.mutator.specs.Script.{answers};
ghost use Rattle.world.specs.Room.{room};
ghost use Rattle.mutator.specs.Refusals.{answer_of};
ghost use Rattle.bench.specs.Touches.{Bounded};

use driver::lent_words;
use heap::{play, play_as};
use mutator::{Ask, Told};
use std::alloc::{AllocError, Global};

// A script, and how many words and slots it is played on.
#[derive(Clone, Copy)]
pub struct Game<'a> {
    pub words: u64,
    pub slots: u16,
    pub calls: &'a [Ask],
}

impl Game<'_> {
    // What the calls are answered.
    pub fn answers(&self, heap: Global) -> Result<Vec<Told>, AllocError>
        ensures { IfOk result (λ told. let cap = room self.now.words self.now.slots in
            map answer_of told.items ≡ answers cap (blank self.now.slots) self.now.calls.now) }
    {
        let mut words = lent_words(heap, self.words)?;
        let mut told = vec![in heap; Told { code: 0, val: 0 }; self.calls.len()]?;
        play(
            self.calls,
            words.as_mut_slice(),
            self.slots,
            told.as_mut_slice(),
        );
        Ok(told)
    }

    // The words touched in each call; none where there are too few to start.
    pub fn touches(&self, heap: Global) -> Result<Vec<u64>, AllocError>
        ensures { IfOk result (λ t.
            (vec_len t ≡ length self.now.calls.now) × Bounded self.now.words t.items) }
    {
        let mut words = lent_words(heap, self.words)?;
        let mut touches = vec![in heap; 0u64; self.calls.len()]?;
        play_as(
            self.calls,
            words.as_mut_slice(),
            self.slots,
            touches.as_mut_slice(),
        );
        Ok(touches)
    }
}
