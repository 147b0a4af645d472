//! The words that spell the numbers of generated files.

ghost use Rattle.std.specs.Prelude.{◌≡◌, ◌≤◌, ◌↔◌, IsTrue, MatchOption, get_or};
ghost use Rattle.rss_workload.specs.Spelling.{HasFile, IsSpelling, SpellsNone};

/// The most turns that a stage of a generated file takes.
const MOST_TURNS: u32 = 1000;

/// The number from 1 to 1000 that a word spells, decimal without leading zeros, if it spells one.
pub fn number_of(word: &str) -> Option<u32>
    ensures { MatchOption result (SpellsNone word.now) (λ n. IsSpelling word.now n) }
{
    if !begins_above_zero(word) {
        return None;
    }
    match word.parse::<u32>() {
        Ok(n) => { if has_file(n) { Some(n) } else { None } }
        Err(_) => None,
    }
}

/// Whether there is a generated file of this number.
pub(crate) fn has_file(n: u32) -> bool
    ensures { IsTrue result ↔ HasFile n }
{
    1 <= n && n <= MOST_TURNS
}

// Whether the first byte is a digit above 0.
fn begins_above_zero(word: &str) -> bool
    ensures { IsTrue result ↔ ((49 ≤ get_or word.now 0 0) × (get_or word.now 0 0 ≤ 57)) }
{
    match word.as_bytes().first() {
        Some(byte) => b'1' <= *byte && *byte <= b'9',
        None => false,
    }
}
