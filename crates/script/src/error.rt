// Why a line is refused.
ghost use Rattle.std.specs.Prelude.{◌≡◌, Some};
ghost use Rattle.script.specs.Text.{error_text};

use std::fmt;

#[derive(Clone, Copy, PartialEq, Eq, Debug)]
pub enum LineError {
    UnknownCall,
    TooFewNumbers,
    TooManyNumbers,
    NotANumber,
    // above this
    NumberTooLarge(u64),
    // how many words there are
    WordsTooLarge,
}

// Written by hand: what thiserror derives promises nothing of the text. The names of the calls are those of the table.
impl fmt::Display for LineError {
    ghost output = { λ e. Some (error_text e) };

    fn fmt<W: fmt::Write>(&self, f: &mut fmt::Formatter<W>) -> fmt::Result {
        match self {
            LineError::UnknownCall => write!(
                f,
                "expected New, Get, Set, Read, Write, Copy, Clear, Same, Sizes or Collect"
            ),
            LineError::TooFewNumbers => write!(f, "expected one more number"),
            LineError::TooManyNumbers => write!(f, "expected nothing behind the last number"),
            LineError::NotANumber => write!(f, "expected a number of decimal digits"),
            LineError::NumberTooLarge(most) => {
                let below = *most as u128 + 1;
                write!(f, "expected a number below {below}")
            }
            LineError::WordsTooLarge => write!(f, "expected fewer than 72057594037927936 words"),
        }
    }
}
