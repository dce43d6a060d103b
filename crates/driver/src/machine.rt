// What answers the calls of a script.
ghost use Rattle.driver.specs.Memories.{Memory, Answers};

use mutator::{Ask, Told};
use std::alloc::AllocError;

// A memory with its slots.
pub trait Machine {
    ghost memory: { Self → Memory };

    fn answer(&mut self, ask: &Ask) -> Result<Told, AllocError>
        ensures { Answers (memory self.old) ask.now (memory self.new) result };
}
