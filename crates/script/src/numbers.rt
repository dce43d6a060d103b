// A token as a number in decimal.
ghost use Rattle.std.specs.Prelude.{◌≡◌, ◌<◌, ◌≤◌, IfOk, length};
ghost use Rattle.std.specs.Str.{all_ascii_digits};
ghost use Rattle.script.specs.Numbers.{number as number_of};

use crate::error::LineError;

fn all_digits(token: &[u8]) -> bool
    ensures { result ≡ all_ascii_digits token.now }
{
    token.iter().all(|byte| byte.is_ascii_digit())
}

// The number that a token writes, if it is at most `most`: no FromStr, which has no limit and no error for it. No token is
// empty, as the one caller shows.
pub(crate) fn number(token: &str, most: u64, over: LineError) -> Result<u64, LineError>
    requires { 0 < length token.now }
    ensures value { result ≡ number_of most over token.now }
    ensures small { IfOk result (λ n. n ≤ most) }
{
    // The standard parse takes a sign too.
    if !all_digits(token.as_bytes()) {
        return Err(LineError::NotANumber);
    }
    token.parse::<u64>().ok().filter(|n| *n <= most).ok_or(over)
}
