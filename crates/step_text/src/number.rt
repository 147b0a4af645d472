//! Words and numbers at the front of a text.

ghost use Rattle.std.specs.Prelude.{◌≡◌, ◌≤◌, ◌<◌, ◌+◌, ◌-◌, ◌^◌, length, IfOk, cond, Some, None};
ghost use Rattle.step_text.specs.Reading.{Gives, Near, after_word};
ghost use Rattle.step_text.specs.Numbers.{is_digit, digits_at, number_from, number_at};

/// What stands behind this word, or how much is left at the first byte that is not of it.
#[tactic(auto, using(crate::proofs::Lengths::word_over), unfolding(crate::specs::Reading::after_word))]
pub fn skip_word<'a>(word: &[u8], bytes: &'a [u8]) -> Result<&'a [u8], usize>
    ensures gives { Gives (λ rest. rest.now) result (after_word word.now bytes.now) }
    ensures near { Near (λ rest. length rest.now) (length word.now) (length word.now) (length bytes.now) result }
{
    let mut rest = bytes;
    for letter in word {
        match rest.split_first() {
            Some((byte, behind)) => {
                if byte != letter {
                    return Err(rest.len());
                }
                rest = behind;
            }
            None => return Err(0),
        }
    }
    Ok(rest)
}

/// The value of a decimal digit.
fn digit_of(byte: u8) -> Option<u64>
    ensures { result ≡ cond (is_digit byte) (Some (byte - 48)) None }
{
    if byte.is_ascii_digit() {
        Some((byte - b'0') as u64)
    } else {
        None
    }
}

/// The number that goes on with the digits at the front, behind the number `first` above 0, and
/// what stands behind them.
#[tactic(auto, unfolding(crate::specs::Numbers::digits_at))]
fn digits_of(most: u64, first: u64, bytes: &[u8]) -> Result<(u64, &[u8]), usize>
    requires positive { 1 ≤ first }
    requires first { first ≤ most }
    requires most { most < 2 ^ 62 }
    ensures gives { Gives (λ r. (r.0, r.1.now)) result (digits_at most first bytes.now) }
    ensures near { Near (λ r. length r.1.now) 0 61 (length bytes.now) result }
    ensures range { IfOk result (λ r. (first ≤ r.0) × (r.0 ≤ most)) }
{
    let mut number = first;
    let mut rest = bytes;
    while let Some((byte, behind)) = rest.split_first() {
        match digit_of(*byte) {
            Some(digit) => {
                let longer = number.saturating_mul(10).saturating_add(digit);
                if longer > most {
                    return Err(rest.len());
                }
                number = longer;
                rest = behind;
            }
            None => break,
        }
    }
    Ok((number, rest))
}

/// The number from `least`, which is 0 or 1, to `most` at the front, and what stands behind it; or
/// how much is left at the first byte that carries it out of the range or is no digit of it.
#[tactic(auto, unfolding(crate::specs::Numbers::number_at))]
pub fn number_of(least: u64, most: u64, bytes: &[u8]) -> Result<(u64, &[u8]), usize>
    requires most { (9 ≤ most) × (most < 2 ^ 62) }
    ensures gives { Gives (λ r. (r.0, r.1.now)) result (number_at least most bytes.now) }
    ensures near { Near (λ r. length r.1.now) 1 62 (length bytes.now) result }
    ensures range { IfOk result (λ r. (least ≤ r.0) × (r.0 ≤ most)) }
{
    let Some((byte, behind)) = bytes.split_first() else {
        return Err(0);
    };
    match digit_of(*byte) {
        Some(digit) => {
            if digit < least {
                Err(bytes.len())
            } else if digit == 0 {
                Ok((0, behind))
            } else {
                digits_of(most, digit, behind)
            }
        }
        None => Err(bytes.len()),
    }
}
