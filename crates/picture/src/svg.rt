// The picture as SVG: a title, a legend, a box for each word, and an arrow for each slot and place that leads to an object.
ghost use Rattle.std.specs.Prelude.{◌≡◌, Some, fold};
ghost use Rattle.picture.specs.Texts.{and_one, curve_text, label_text, none, point_text, rect_text, short_text};

use crate::grid::{Arrow, COLUMNS, HEIGHT, LEFT, Point, WIDTH, corner, height};
use crate::spot::{Part, Spot};
use std::fmt;
use store::OWN;
use words::names::Addr;

// What stands in a heap, to be drawn under a title that has no character of XML's own.
#[derive(Clone, Copy)]
pub struct Picture<'a, T> {
    pub title: T,
    pub spots: &'a [Spot],
}

// How many objects are reached, how many are not, and how many words are free.
#[derive(Clone, Copy, Default, PartialEq, Eq, Debug)]
pub struct Counts {
    pub reached: usize,
    pub dead: usize,
    pub free: usize,
}

impl Counts {
    // One word more; an object is counted at its header.
    fn and(self, spot: Spot) -> Counts
        ensures { result ≡ and_one self spot }
    {
        match spot {
            Spot::Reached(Part::Header) => Counts {
                reached: self.reached.saturating_add(1),
                ..self
            },
            Spot::Dead(Part::Header) => Counts {
                dead: self.dead.saturating_add(1),
                ..self
            },
            Spot::Free => Counts {
                free: self.free.saturating_add(1),
                ..self
            },
            _ => self,
        }
    }

    // Of all words. No From: a slice of spots is no count.
    pub fn of(spots: &[Spot]) -> Counts
        ensures { result ≡ fold and_one none spots.now }
    {
        spots
            .iter()
            .fold(Counts::default(), |counts, spot| counts.and(*spot))
    }
}

// A number that fits its box.
#[derive(Clone, Copy)]
struct Short(u64);

impl fmt::Display for Short {
    ghost output = { λ n. Some (short_text n.0) };

    fn fmt<W: fmt::Write>(&self, f: &mut fmt::Formatter<W>) -> fmt::Result {
        let n = self.0;
        if n < 1_000_000 {
            write!(f, "{n}")
        } else {
            write!(f, "...")
        }
    }
}

// A word's box.
#[derive(Clone, Copy)]
struct Rect {
    at: Addr,
    class: &'static str,
}

impl fmt::Display for Rect {
    ghost output = { λ r. Some (rect_text r.class.now r.at) };

    fn fmt<W: fmt::Write>(&self, f: &mut fmt::Formatter<W>) -> fmt::Result {
        let class = self.class;
        let Point { x, y } = corner(self.at);
        write!(f, "<rect class='{class}' x='{x}' y='{y}'")?;
        write!(f, " width='{WIDTH}' height='{HEIGHT}'/>")
    }
}

// The number in a word's box.
#[derive(Clone, Copy)]
struct Label {
    at: Addr,
    number: Short,
}

impl fmt::Display for Label {
    ghost output = { λ l. Some (label_text l.number.0 l.at) };

    fn fmt<W: fmt::Write>(&self, f: &mut fmt::Formatter<W>) -> fmt::Result {
        let Point { x, y } = corner(self.at);
        let x = x + WIDTH / 2;
        let y = y + BASE;
        let number = self.number;
        write!(f, "<text x='{x}' y='{y}'>{number}</text>")
    }
}

// An arrow as the data of a path.
impl fmt::Display for Arrow {
    ghost output = { λ a. Some (curve_text a) };

    fn fmt<W: fmt::Write>(&self, f: &mut fmt::Formatter<W>) -> fmt::Result {
        let Arrow {
            from,
            leaving,
            coming,
            to,
        } = self;
        write!(f, "M{from}C{leaving} {coming} {to}")
    }
}

impl fmt::Display for Point {
    ghost output = { λ p. Some (point_text p) };

    fn fmt<W: fmt::Write>(&self, f: &mut fmt::Formatter<W>) -> fmt::Result {
        let Point { x, y } = self;
        write!(f, "{x} {y}")
    }
}

// How far below a box's upper edge its text stands.
pub const BASE: u128 = 16;

const STYLE: &str =
    "text{font:11px monospace;text-anchor:middle;fill:#1f2328}.title,.legend text{font-family:sans-serif;text-anchor:start}.title{font-size:14px}.address{text-anchor:end;fill:#57606a}rect{stroke:#fff;stroke-width:1}.back{fill:#fff;stroke:none}rect.slot{fill:#f5d65b}rect.reached.header{fill:#0969da}rect.reached.second{fill:#54aeff}rect.reached.place{fill:#a5d6ff}rect.reached.word{fill:#ddf4ff}rect.dead.header{fill:#6e7781}rect.dead.second{fill:#a4acb5}rect.dead.place{fill:#c8ced5}rect.dead.word{fill:#e6e9ed}rect.free{fill:#fff;stroke:#c8ced5;stroke-dasharray:2 2}.arrows path{fill:none;stroke-width:1.5;opacity:.75}.arrows .slot{stroke:#9a6700;marker-end:url(#slot)}.arrows .reached{stroke:#0a3069;marker-end:url(#reached)}.arrows .dead{stroke:#6e7781;stroke-dasharray:4 3;marker-end:url(#dead)}#slot{fill:#9a6700}#reached{fill:#0a3069}#dead{fill:#6e7781}";

// The heads of the three kinds of arrows.
const HEADS: [&str; 3] = ["slot", "reached", "dead"];

// What a look stands for, and where it says so.
#[derive(Clone, Copy)]
struct Sample {
    class: &'static str,
    x: u16,
    y: u16,
    means: &'static str,
}

const LEGEND: [Sample; 10] = [
    Sample {
        class: "reached header",
        x: 60,
        y: 58,
        means: "header of a reached object",
    },
    Sample {
        class: "reached second",
        x: 270,
        y: 58,
        means: "second word",
    },
    Sample {
        class: "reached place",
        x: 400,
        y: 58,
        means: "place",
    },
    Sample {
        class: "reached word",
        x: 500,
        y: 58,
        means: "word",
    },
    Sample {
        class: "slot",
        x: 600,
        y: 58,
        means: "slot",
    },
    Sample {
        class: "dead header",
        x: 60,
        y: 78,
        means: "header of a dead object",
    },
    Sample {
        class: "dead second",
        x: 270,
        y: 78,
        means: "second word",
    },
    Sample {
        class: "dead place",
        x: 400,
        y: 78,
        means: "place",
    },
    Sample {
        class: "dead word",
        x: 500,
        y: 78,
        means: "word",
    },
    Sample {
        class: "free",
        x: 600,
        y: 78,
        means: "free word",
    },
];

fn write_heads<W: fmt::Write>(f: &mut fmt::Formatter<W>) -> fmt::Result {
    for id in HEADS {
        writeln!(
            f,
            "<marker id='{id}' viewBox='0 0 8 8' refX='7' refY='4' markerWidth='6' markerHeight='6' orient='auto'><path d='M0 0L8 4L0 8z'/></marker>"
        )?;
    }
    Ok(())
}

fn write_legend<W: fmt::Write>(f: &mut fmt::Formatter<W>) -> fmt::Result {
    writeln!(f, "<g class='legend'>")?;
    for Sample { class, x, y, means } in LEGEND {
        let right = x + 24;
        let base = y + 11;
        writeln!(
            f,
            "<rect class='{class}' x='{x}' y='{y}' width='18' height='14'/><text x='{right}' y='{base}'>{means}</text>"
        )?;
    }
    writeln!(f, "</g>")
}

// The address of a line's first word, beside it.
fn write_address<W: fmt::Write>(f: &mut fmt::Formatter<W>, at: usize) -> fmt::Result {
    let y = corner(Addr(at)).y + BASE;
    let x = LEFT - 8;
    writeln!(f, "<text class='address' x='{x}' y='{y}'>{at}</text>")
}

fn write_boxes<W: fmt::Write>(f: &mut fmt::Formatter<W>, spots: &[Spot]) -> fmt::Result {
    for (at, spot) in (OWN..).zip(spots) {
        if at % COLUMNS == 0 {
            write_address(f, at)?;
        }
        let class = spot.class();
        let rect = Rect {
            at: Addr(at),
            class,
        };
        writeln!(f, "{rect}")?;
        if let Some(number) = spot.number(Addr(at)).map(Short) {
            let label = Label {
                at: Addr(at),
                number,
            };
            writeln!(f, "{label}")?;
        }
    }
    Ok(())
}

fn write_arrows<W: fmt::Write>(f: &mut fmt::Formatter<W>, spots: &[Spot]) -> fmt::Result {
    writeln!(f, "<g class='arrows'>")?;
    for (at, spot) in (OWN..).zip(spots) {
        if let Some(to) = spot.target() {
            let class = spot.class();
            let arrow = Arrow::between(Addr(at), to);
            writeln!(f, "<path class='{class}' d='{arrow}'/>")?;
        }
    }
    writeln!(f, "</g>")
}

impl<T: fmt::Display> fmt::Display for Picture<'_, T> {
    fn fmt<W: fmt::Write>(&self, f: &mut fmt::Formatter<W>) -> fmt::Result {
        let width = LEFT + WIDTH * COLUMNS as u128 + 20;
        let height = height(self.spots.len());
        let title = &self.title;
        let Counts {
            reached,
            dead,
            free,
        } = Counts::of(self.spots);
        writeln!(
            f,
            "<svg xmlns='http://www.w3.org/2000/svg' width='{width}' height='{height}' viewBox='0 0 {width} {height}'>"
        )?;
        writeln!(f, "<title>{title}</title>")?;
        writeln!(f, "<style>{STYLE}</style>")?;
        write_heads(f)?;
        writeln!(f, "<rect class='back' width='{width}' height='{height}'/>")?;
        writeln!(f, "<text class='title' x='{LEFT}' y='24'>{title}</text>")?;
        writeln!(
            f,
            "<text class='title' x='{LEFT}' y='44'>{reached} objects reached, {dead} dead, {free} words free</text>"
        )?;
        write_legend(f)?;
        write_boxes(f, self.spots)?;
        write_arrows(f, self.spots)?;
        write!(f, "</svg>")
    }
}
