//! The words that spell numbers.

ghost use Rattle.std.specs.Prelude.{◌≡◌, ◌≤◌, ◌↔◌, IsTrue, MatchOption, get_or};
ghost use Rattle.command_words.specs.Numbers.{IsNumber, IsNoNumber};

/// The number up to the greatest one that a word spells, decimal without leading zeros, if it spells one.
pub(crate) fn number_upto(word: &str, most: u32) -> Option<u32>
    ensures { MatchOption result (IsNoNumber most word.now) (λ n. IsNumber most word.now n) }
{
    if word == "0" {
        return Some(0);
    }
    if !begins_above_zero(word) {
        return None;
    }
    match word.parse::<u32>() {
        Ok(n) => { if n <= most { Some(n) } else { None } }
        Err(_) => None,
    }
}

// Whether the first byte is a digit above 0.
fn begins_above_zero(word: &str) -> bool
    ensures { IsTrue result ↔ ((49 ≤ get_or word.now 0 0) × (get_or word.now 0 0 ≤ 57)) }
{
    match word.as_bytes().first() {
        Some(byte) => b'1' <= *byte && *byte <= b'9',
        None => false,
    }
}
