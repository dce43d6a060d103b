// Where the words of a heap stand in its picture, in lines of sixteen, and which way arrows go.
ghost use Rattle.std.specs.Prelude.{◌≡◌};
ghost use Rattle.picture.specs.Grid.{arrow_of, away_of, corner_of, height_of, line_of, middle_of};

use store::OWN;
use words::names::Addr;

// So many words stand in a line.
pub const COLUMNS: usize = 16;

// A word's box, and how far apart lines are.
pub const WIDTH: u128 = 44;

pub const HEIGHT: u128 = 24;

pub const PITCH: u128 = 56;

// Left of the lines stand addresses, above them the title and the legend.
pub const LEFT: u128 = 60;

pub const TOP: u128 = 116;

// How far an arrow goes on before it turns.
pub const BEND: u128 = 26;

// From the upper left corner, to the right and down. With 128 bits no address is too large.
#[derive(Clone, Copy, PartialEq, Eq, Debug)]
pub struct Point {
    pub x: u128,
    pub y: u128,
}

// The line in which a word stands; the manager's own words are not shown.
fn line(at: Addr) -> usize
    ensures { result ≡ line_of at }
{
    (at.0 / COLUMNS).saturating_sub(OWN / COLUMNS)
}

// The upper left corner of a word's box.
pub fn corner(at: Addr) -> Point
    ensures { result ≡ corner_of at }
{
    Point {
        x: LEFT + WIDTH * (at.0 % COLUMNS) as u128,
        y: TOP + PITCH * line(at) as u128,
    }
}

// How high the picture of so many words is, from the first slot on.
pub fn height(words: usize) -> u128
    ensures { result ≡ height_of words }
{
    TOP + PITCH * words.div_ceil(COLUMNS) as u128
}

// A curve from the middle of a box's edge to that of another; it leaves and comes straight up or down.
#[derive(Clone, Copy, PartialEq, Eq, Debug)]
pub struct Arrow {
    pub from: Point,
    pub leaving: Point,
    pub coming: Point,
    pub to: Point,
}

// The two edges of a box that arrows touch.
#[derive(Clone, Copy, PartialEq, Eq, Debug)]
enum Edge {
    Upper,
    Lower,
}

impl Edge {
    // The middle of the edge of a word's box.
    fn middle(self, at: Addr) -> Point
        ensures { result ≡ middle_of self at }
    {
        let Point { x, y } = corner(at);
        let x = x + WIDTH / 2;
        match self {
            Edge::Upper => Point { x, y },
            Edge::Lower => Point { x, y: y + HEIGHT },
        }
    }

    // The same, but a bend away from the box.
    fn away(self, at: Addr) -> Point
        ensures { result ≡ away_of self at }
    {
        let Point { x, y } = self.middle(at);
        match self {
            Edge::Upper => Point { x, y: y - BEND },
            Edge::Lower => Point { x, y: y + BEND },
        }
    }
}

impl Arrow {
    // Down to a line further below, up to one above, and over the boxes within a line.
    pub fn between(from: Addr, to: Addr) -> Arrow
        ensures { result ≡ arrow_of from to }
    {
        let (leaves, comes) = if line(from) < line(to) {
            (Edge::Lower, Edge::Upper)
        } else if line(to) < line(from) {
            (Edge::Upper, Edge::Lower)
        } else {
            (Edge::Upper, Edge::Upper)
        };
        Arrow {
            from: leaves.middle(from),
            leaving: leaves.away(from),
            coming: comes.away(to),
            to: comes.middle(to),
        }
    }
}
