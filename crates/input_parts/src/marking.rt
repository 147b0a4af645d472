//! The input's two parts: the file, and the step text behind the line `%steps`.

ghost use Rattle.std.specs.Prelude.{◌≡◌, ◌≤◌, ◌<◌, ℕ, false, true, length, take, drop, ◌+◌, MatchOption};
ghost use Rattle.input_parts.specs.Split.{line_begins, line_ends, is_mark, IsFirstMark, Splits};

/// Whether a line begins at a position.
fn line_begins(input: &[u8], at: usize) -> bool
    requires { at ≤ length input.now }
    ensures { result ≡ line_begins input.now at }
{
    at == 0 || input[at - 1] == b'\n'
}

/// Whether a line ends before a position.
fn line_ends(input: &[u8], at: usize) -> bool
    requires { at ≤ length input.now }
    ensures { result ≡ line_ends input.now at }
{
    at == input.len() || input[at] == b'\n'
}

/// Whether the line `%steps` stands at a position.
#[tactic(auto, unfolding(crate::specs::Split::is_mark))]
fn is_mark(input: &[u8], at: usize) -> bool
    requires { at ≤ length input.now }
    ensures { result ≡ is_mark input.now at }
{
    input[at..].starts_with(b"%steps") && line_begins(input, at) && line_ends(input, at + 6)
}

/// The position of the first line `%steps`, if there is one.
fn mark(input: &[u8]) -> Option<usize>
    ensures { MatchOption result
        ((k : ℕ) → k < length input.now → is_mark input.now k ≡ false)
        (λ at. IsFirstMark input.now at) }
{
    for at in 0..input.len() {
        if is_mark(input, at) {
            return Some(at);
        }
    }
    None
}

/// The two parts of an input: the file, and the step text behind the first line `%steps`. Where
/// there is no such line, all is the file.
pub fn split(input: &[u8]) -> (&[u8], &[u8])
    ensures { Splits input.now result.0.now result.1.now }
{
    match mark(input) {
        Some(at) => (&input[..at], behind(input, at)),
        None => (input, &[]),
    }
}

/// What stands behind the line `%steps` at a position.
fn behind(input: &[u8], at: usize) -> &[u8]
    ensures { result.now ≡ drop (at + 7) input.now }
{
    if at < input.len() && input.len() - at > 7 {
        &input[at + 7..]
    } else {
        &[]
    }
}
