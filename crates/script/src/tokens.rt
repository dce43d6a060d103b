// A line's tokens, one after the other: its longest runs without a space or a tab.
ghost use Rattle.std.specs.Prelude.{◌≡◌, [], ◌∷◌, MatchOption};
ghost use Rattle.script.specs.Tokens.{blank as blank_byte, run, tokens};

fn is_blank(byte: u8) -> bool
    ensures { result ≡ blank_byte byte }
{
    byte == b' ' || byte == b'\t'
}

// How many bytes at the front are blanks, or are none. By bytes: a blank is one, and a search by characters takes each apart.
fn run_len(line: &[u8], blank: bool) -> usize
    ensures { result ≡ run blank line.now }
{
    line.iter()
        .position(|byte| is_blank(*byte) != blank)
        .unwrap_or(line.len())
}

// The first token and what follows it, unless the line is blank.
pub fn split_token(line: &str) -> Option<(&str, &str)>
    ensures { let ts = tokens line.now in
        MatchOption result (ts ≡ []) (λ p. ts ≡ p.0.now ∷ tokens p.1.now) }
{
    let (_, line) = line.split_at(run_len(line.as_bytes(), true));
    let (token, rest) = line.split_at(run_len(line.as_bytes(), false));
    if token.is_empty() {
        return None;
    }
    Some((token, rest))
}
