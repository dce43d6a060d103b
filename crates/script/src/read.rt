// Lines of a script as calls. A line is taken apart once.
ghost use Rattle.std.specs.Prelude.{◌≡◌, ◌<◌, [], ◌∷◌, true, false, length, MatchOption};
ghost use Rattle.script.specs.Tokens.{tokens};
ghost use Rattle.script.specs.Reading.{StandsAt, body as body_of, call_of, called, heap_size_of, line_of, opening_of, passed_over, sized};

use crate::error::LineError;
use crate::numbers::number;
use crate::reader::{ended, next_number, numbers_like};
use crate::tokens::split_token;
use mutator::{Ask, CALLS, Numbers};

// The most words that can have addresses.
pub const MOST_WORDS: u64 = 0xff_ffff_ffff_ffff;

// What the first line of a script says.
#[derive(Clone, Copy, PartialEq, Eq, Debug)]
pub struct HeapSize {
    pub words: u64,
    pub slots: u16,
}

// The line without the carriage return that may end it.
fn body(line: &str) -> &str
    ensures { result.now ≡ body_of line.now }
{
    line.strip_suffix('\r').unwrap_or(line)
}

// The first token of a line and what follows it, unless the line is blank.
fn split_line(line: &str) -> Option<(&str, &str)>
    ensures { let ts = tokens (body_of line.now) in
        MatchOption result (ts ≡ []) (λ p. ts ≡ p.0.now ∷ tokens p.1.now) }
{
    split_token(body(line))
}

// The first token of a line and what follows it, unless the line is blank or a comment.
fn first_token(line: &str) -> Option<(&str, &str)>
    ensures { MatchOption result (passed_over line.now ≡ true)
        (λ p. (passed_over line.now ≡ false)
        × (tokens (body_of line.now) ≡ p.0.now ∷ tokens p.1.now)) }
{
    if line.starts_with('#') {
        return None;
    }
    split_line(line)
}

// The place in the table of the call with this name. Apart from reading its numbers, so that each step compares names alone.
fn place_of(name: &str) -> Option<usize>
    ensures { StandsAt name.now result }
{
    for place in 0..CALLS {
        let Some(ask) = Ask::made(place, Numbers::Zero) else {
            return None;
        };
        if name == ask.entry().name {
            return Some(place);
        }
    }
    None
}

// The call with this name, of the numbers in the rest of its line.
fn named_call(name: &str, rest: &str) -> Result<Ask, LineError>
    ensures { result ≡ called name.now (tokens rest.now) }
{
    let place = place_of(name).ok_or(LineError::UnknownCall)?;
    let ask = Ask::made(place, Numbers::Zero).ok_or(LineError::UnknownCall)?;
    let numbers = numbers_like(ask.entry().numbers, rest)?;
    Ask::made(place, numbers).ok_or(LineError::UnknownCall)
}

// How many words and slots there are, of the first token and the rest of the line.
fn heap_size(words: &str, rest: &str) -> Result<HeapSize, LineError>
    requires { 0 < length words.now }
    ensures { result ≡ sized (words.now ∷ tokens rest.now) }
{
    let words = number(words, MOST_WORDS, LineError::WordsTooLarge)?;
    let (slots, rest) = next_number(rest, 65_535, LineError::NumberTooLarge(65_535))?;
    ended(rest)?;
    // at most 65,535, so try_from would need an arm that no number takes
    let slots = slots as u16;
    Ok(HeapSize { words, slots })
}

// Reads a call, as `Write 0 3 18446744073709551615`. A blank line is no call.
pub fn read_call(line: &str) -> Result<Ask, LineError>
    ensures { result ≡ call_of line.now }
{
    let Some((name, rest)) = split_line(line) else {
        return Err(LineError::UnknownCall);
    };
    named_call(name, rest)
}

// Reads how many words and slots there are, `WORDS SLOTS`.
pub fn read_heap_size(line: &str) -> Result<HeapSize, LineError>
    ensures { result ≡ heap_size_of line.now }
{
    let Some((words, rest)) = split_line(line) else {
        return Err(LineError::TooFewNumbers);
    };
    heap_size(words, rest)
}

// Whether a line is blank or a comment.
pub fn is_passed_over(line: &str) -> bool
    ensures { result ≡ passed_over line.now }
{
    first_token(line).is_none()
}

// Reads the first line of a script, `WORDS SLOTS`. It says nothing where it is blank or a comment.
pub fn read_opening(line: &str) -> Result<Option<HeapSize>, LineError>
    ensures { result ≡ opening_of line.now }
{
    let Some((words, rest)) = first_token(line) else {
        return Ok(None);
    };
    heap_size(words, rest).map(Some)
}

// Reads a line after the first, as `Write 0 3 18446744073709551615`. There is no call where it is blank or a comment.
pub fn read_line(line: &str) -> Result<Option<Ask>, LineError>
    ensures { result ≡ line_of line.now }
{
    let Some((name, rest)) = first_token(line) else {
        return Ok(None);
    };
    named_call(name, rest).map(Some)
}
