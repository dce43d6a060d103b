// Which of the calls a call is.
ghost use Rattle.std.specs.Prelude.{◌≡◌, [], Some};
ghost use Rattle.mutator.specs.Table.{call_at, calls, name};
ghost use Rattle.std.specs.Str.{bytes_eq};
ghost use Rattle.bench.specs.Named.{NamedAt};

use mutator::{Ask, Numbers};
use std::fmt;

// By its name in the table of calls, and its place there.
#[derive(Clone, Copy)]
pub struct CallKind {
    pub name: &'static str,
    place: usize,
    ghost stands: { NamedAt place name.now },
}

// The place of a call in the table. A number, since a call's name would have to be compared byte by byte.
fn place_of(ask: &Ask) -> usize
    ensures { NamedAt result (name ask.now) }
{
    match ask {
        Ask::New(..) => 0,
        Ask::Get(..) => 1,
        Ask::Set(..) => 2,
        Ask::Read(..) => 3,
        Ask::Write(..) => 4,
        Ask::Copy(..) => 5,
        Ask::Clear(_) => 6,
        Ask::Same(..) => 7,
        Ask::Sizes(_) => 8,
        Ask::Collect => 9,
    }
}

impl CallKind {
    ghost use Rattle.bench.specs.Kinds.{IsAt};

    // The one at a place of the table.
    pub fn at(place: usize) -> Option<CallKind>
        ensures { IsAt (call_at calls place []) result }
    {
        let ask = Ask::made(place, Numbers::Zero)?;
        Some(CallKind::from(&ask))
    }

    // Is a call of this kind?
    pub fn is_of(self, ask: &Ask) -> bool
        ensures { result ≡ bytes_eq (name ask.now) self.name.now }
    {
        place_of(ask) == self.place
    }
}

impl From<&Ask> for CallKind {
    ghost from_gives = { λ ask kind. kind.name.now ≡ name ask.now };

    fn from(ask: &Ask) -> CallKind {
        let name = ask.entry().name;
        let place = place_of(ask);
        CallKind { name, place }
    }
}

impl fmt::Display for CallKind {
    ghost output = { λ kind. Some kind.name.now };

    fn fmt<W: fmt::Write>(&self, f: &mut fmt::Formatter<W>) -> fmt::Result {
        let name = self.name;
        write!(f, "{name}")
    }
}
