//! The words `gen N`.

ghost use Rattle.std.specs.Prelude.{map, MatchOption};
ghost use Rattle.std.specs.String.{string_bytes};
ghost use Rattle.command_words.specs.Generated.{IsGen, IsNoGen};

use rss_workload::number_of;

/// The number that the words `gen N` name, if the words are that: from 1 to 1000, decimal without leading
/// zeros.
pub fn gen_number(words: &[String]) -> Option<u32>
    ensures { MatchOption result
        (IsNoGen (map string_bytes words.now))
        (λ n. IsGen (map string_bytes words.now) n) }
{
    match words {
        [name, number] => {
            if name.as_str() == "gen" {
                number_of(number.as_str())
            } else {
                None
            }
        }
        _ => None,
    }
}
