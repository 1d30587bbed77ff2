//! Decimal numbers, as words of the command line and of scripts have them.

ghost use Rattle.std.specs.Prelude.{◌≡◌, ◌≢◌, ◌<◌, ◌≤◌, ◌+◌, ◌-◌, ◌*◌, ◌^◌, ℕ, IfSome, IfNone, decimal};
ghost use Rattle.std.specs.Str.Parse.{digits_value};
ghost use Rattle.trace_script.specs.Digits.{AreDigits};
ghost use Rattle.trace_script.specs.Words.{number_of};

/// The number with one more digit behind it, if `byte` is a digit and the number stays below 2^32.
fn with_digit(number: u32, byte: u8) -> Option<u32>
    ensures some { IfSome result (λ made. (48 ≤ byte) × (byte ≤ 57) × (made ≡ number * 10 + (byte - 48))) }
    ensures none { IfNone result (48 ≤ byte → byte ≤ 57 → 2 ^ 32 ≤ number * 10 + (byte - 48)) }
{
    if !byte.is_ascii_digit() {
        return None;
    }
    number.checked_mul(10)?.checked_add(u32::from(byte - b'0'))
}

/// The number that digits write, if it is below 2^32 and there are nothing but digits.
fn read_digits(word: &[u8]) -> Option<u32>
    ensures digits { IfSome result (λ number. AreDigits word.now × (digits_value 10 word.now ≡ number)) }
    ensures none { IfNone result (AreDigits word.now → 2 ^ 32 ≤ digits_value 10 word.now) }
{
    let mut number = 0;
    for byte in word {
        match with_digit(number, *byte) {
            Some(more) => number = more,
            None => return None,
        }
    }
    Some(number)
}

/// The number that `word` is the decimal text of, if it is below 2^32. There is neither a sign nor a
/// leading zero.
#[tactic(auto, using(crate::proofs::Decimals::numerals, crate::proofs::NumberWords::numbers))]
pub fn read_number(word: &[u8]) -> Option<u32>
    ensures some { IfSome result (λ number. word.now ≡ decimal number) }
    ensures none { IfNone result ((number : ℕ) → number < 2 ^ 32 → word.now ≢ decimal number) }
    ensures read { result ≡ number_of word.now }
{
    if word.is_empty() {
        return None;
    }
    if word[0] == b'0' && word.len() > 1 {
        return None;
    }
    read_digits(word)
}
