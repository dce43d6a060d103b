// What stands at one word of a heap.
ghost use Rattle.std.specs.Prelude.{◌≡◌};
ghost use Rattle.picture.specs.Spots.{spot_of};
ghost use Rattle.picture.specs.Texts.{class_of, number_of, target_of};

use store::OWN;
use words::names::Addr;

// A word of an object.
#[derive(Clone, Copy, PartialEq, Eq, Debug)]
pub enum Part {
    Header,
    Second,
    Place(Option<Addr>),
    Word(u64),
}

// A word behind the manager's own.
#[derive(Clone, Copy, PartialEq, Eq, Debug)]
pub enum Spot {
    Slot(Option<Addr>),
    // of an object that the slots come to
    Reached(Part),
    // of an object that nothing comes to
    Dead(Part),
    Free,
}

impl Spot {
    // A word of an object that is reached, or that is not.
    pub(crate) fn of(reached: bool, part: Part) -> Spot
        ensures { result ≡ spot_of reached part }
    {
        if reached {
            Spot::Reached(part)
        } else {
            Spot::Dead(part)
        }
    }

    // How the picture names what stands there, so that it has a look of its own.
    pub fn class(self) -> &'static str
        ensures { result.now ≡ class_of self }
    {
        match self {
            Spot::Slot(_) => "slot",
            Spot::Reached(Part::Header) => "reached header",
            Spot::Reached(Part::Second) => "reached second",
            Spot::Reached(Part::Place(_)) => "reached place",
            Spot::Reached(Part::Word(_)) => "reached word",
            Spot::Dead(Part::Header) => "dead header",
            Spot::Dead(Part::Second) => "dead second",
            Spot::Dead(Part::Place(_)) => "dead place",
            Spot::Dead(Part::Word(_)) => "dead word",
            Spot::Free => "free",
        }
    }

    // What it leads to.
    pub fn target(self) -> Option<Addr>
        ensures { result ≡ target_of self }
    {
        match self {
            Spot::Slot(target)
            | Spot::Reached(Part::Place(target))
            | Spot::Dead(Part::Place(target)) => target,
            _ => None,
        }
    }

    // The number that is written there: a slot's own, or what a word holds.
    pub fn number(self, at: Addr) -> Option<u64>
        ensures { result ≡ number_of self at }
    {
        match self {
            Spot::Slot(_) => Some(at.0.saturating_sub(OWN) as u64),
            Spot::Reached(Part::Word(word)) | Spot::Dead(Part::Word(word)) => Some(word),
            _ => None,
        }
    }
}
