//! Decimal numbers.
ghost use Rattle.std.specs.Prelude.{◌≡◌, ◌+◌, ◌*◌, ◌^◌, ◌≤◌, MatchOption};
ghost use Rattle.tag_lines.specs.Lines.{number_below};

/// Parses a word of decimal digits only, if its value fits in 64 bits. The words of a line are never empty.
pub fn number(word: &[u8]) -> Option<u64>
    ensures { result ≡ number_below (2 ^ 64) word.now }
{
    let mut value = 0u64;
    for byte in word {
        if !byte.is_ascii_digit() {
            return None;
        }
        value = match with_digit(value, *byte - b'0') {
            Some(longer) => longer,
            None => return None,
        };
    }
    Some(value)
}

/// The number with one more digit, if it fits.
fn with_digit(value: u64, digit: u8) -> Option<u64>
    ensures { MatchOption result (2 ^ 64 ≤ value * 10 + digit) (λ longer. longer ≡ value * 10 + digit) }
{
    match value.checked_mul(10) {
        Some(tens) => tens.checked_add(u64::from(digit)),
        None => None,
    }
}

/// Parses a word of decimal digits only, if its value fits in 32 bits.
pub fn short_number(word: &[u8]) -> Option<u32>
    ensures { result ≡ number_below (2 ^ 32) word.now }
{
    let value = number(word)?;
    u32::try_from(value).ok()
}
