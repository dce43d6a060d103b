// The numbers of a line, from the left to the end.
ghost use Rattle.std.specs.Prelude.{◌≡◌, ◌≤◌, [], IfOk, Ok};
ghost use Rattle.mutator.specs.Listed.{listed};
ghost use Rattle.script.specs.Tokens.{tokens};
ghost use Rattle.script.specs.Reading.{bind, next, next_like, ended as ended_of, reads, seen};

use crate::error::LineError;
use crate::numbers::number;
use crate::tokens::split_token;
use mutator::Numbers::{One, Three, Two, Zero};
use mutator::{Number, Numbers};

// The next number and what follows it.
pub fn next_number(line: &str, most: u64, over: LineError) -> Result<(u64, &str), LineError>
    ensures value { seen result ≡ next most over (tokens line.now) }
    ensures small { IfOk result (λ p. p.0 ≤ most) }
{
    let (token, rest) = split_token(line).ok_or(LineError::TooFewNumbers)?;
    let n = number(token, most, over)?;
    Ok((n, rest))
}

// The next number of a call, of this kind.
fn number_like(kind: Number, line: &str) -> Result<(Number, &str), LineError>
    ensures { seen result ≡ next_like kind (tokens line.now) }
{
    let most = kind.most();
    let (n, rest) = next_number(line, most, LineError::NumberTooLarge(most))?;
    Ok((kind.like(n), rest))
}

// Is nothing left?
pub fn ended(line: &str) -> Result<(), LineError>
    ensures { result ≡ ended_of (tokens line.now) }
{
    match split_token(line) {
        Some(_) => Err(LineError::TooManyNumbers),
        None => Ok(()),
    }
}

// All numbers of a call, of these kinds.
pub fn numbers_like(kinds: Numbers, line: &str) -> Result<Numbers, LineError>
    ensures { bind result (λ ns. Ok (listed ns)) ≡ reads [] (listed kinds) (tokens line.now) }
{
    match kinds {
        Zero => {
            ended(line)?;
            Ok(Zero)
        }
        One(a) => {
            let (a, line) = number_like(a, line)?;
            ended(line)?;
            Ok(One(a))
        }
        Two(a, b) => {
            let (a, line) = number_like(a, line)?;
            let (b, line) = number_like(b, line)?;
            ended(line)?;
            Ok(Two(a, b))
        }
        Three(a, b, c) => {
            let (a, line) = number_like(a, line)?;
            let (b, line) = number_like(b, line)?;
            let (c, line) = number_like(c, line)?;
            ended(line)?;
            Ok(Three(a, b, c))
        }
    }
}
