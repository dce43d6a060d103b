// Why a script is not played to its end.
ghost use Rattle.driver.specs.Faults.{fault_text};

use script::LineError;
use std::{fmt, io};

#[derive(Drop)]
pub enum Fault {
    // the line with this number is refused
    Line(usize, LineError),
    // the line with this number cannot be read: it is no text, or the input fails
    Unread(usize, io::Error),
    // the line with this number finds no memory
    NoMemory(usize),
    NoFirstLine,
    // the answers cannot be written
    Unwritten(io::Error),
}

// Written by hand: what thiserror derives promises nothing of the text.
impl fmt::Display for Fault {
    ghost output = { λ f. fault_text f };

    fn fmt<W: fmt::Write>(&self, f: &mut fmt::Formatter<W>) -> fmt::Result {
        match self {
            Fault::Line(line, why) => write!(f, "line {line}: {why}"),
            Fault::Unread(line, why) => write!(f, "line {line}: {why}"),
            Fault::NoMemory(line) => write!(f, "line {line}: no memory is left"),
            Fault::NoFirstLine => write!(f, "line 1: expected the number of words and of slots"),
            Fault::Unwritten(why) => write!(f, "the answers cannot be written: {why}"),
        }
    }
}
