ghost use Rattle.std.specs.Prelude.{◌≡◌, ◌↔◌, ◌+◌, ◌<◌, ◌≤◌, ◌^◌, ℕ, IfSome, IfNone, IsTrue};
ghost use Rattle.dd_words.specs.Values.{IsNumber, IsNumberIn, IsName};

/// The value of one to ten decimal digits.
pub(crate) fn read_number(text: &str) -> Option<u64>
    ensures some { IfSome result (λ n. IsNumber text.now n) }
    ensures none { IfNone result ((n : ℕ) → IsNumber text.now n → ⊥) }
{
    let digits = text.as_bytes();
    if digits.is_empty() || digits.len() > 10 {
        return None;
    }
    let mut value = 0;
    for digit in digits {
        if !digit.is_ascii_digit() {
            return None;
        }
        value = 10 * value + u64::from(*digit - b'0');
    }
    Some(value)
}

/// The value of a number that is in a range.
pub(crate) fn read_number_in(text: &str, low: u32, high: u32) -> Option<u32>
    ensures some { IfSome result (λ n. IsNumberIn low high text.now n) }
    ensures none { IfNone result ((n : ℕ) → IsNumberIn low high text.now n → ⊥) }
{
    let number = read_number(text)?;
    if number < u64::from(low) {
        return None;
    }
    if number > u64::from(high) {
        return None;
    }
    Some(number as u32)
}

/// Returns whether a word may name a file: it is not empty and does not begin with a dash.
pub(crate) fn is_name(word: &str) -> bool
    ensures { IsTrue result ↔ IsName word.now }
{
    match word.as_bytes().first() {
        Some(byte) => *byte != b'-',
        None => false,
    }
}
