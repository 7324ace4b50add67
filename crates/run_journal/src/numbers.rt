//! Numbers in front of a text.

ghost use Rattle.std.specs.Prelude.{◌≡◌, IfNone, IfSome, ℕ, List};
ghost use Rattle.std.specs.Char.{is_ascii_digit};
ghost use Rattle.std.specs.List.{prefix_len};
ghost use Rattle.run_journal.specs.Numbers.{IsNumbered};

/// How many digits a text begins with.
fn count_digits(text: &[u8]) -> usize
    ensures { result ≡ prefix_len is_ascii_digit text.now }
{
    for (place, byte) in text.iter().enumerate() {
        if !byte.is_ascii_digit() {
            return place;
        }
    }
    text.len()
}

/// The number of 64 bits that a text begins with, and what stands behind it. A number has no leading zeros.
pub(crate) fn number_at(text: &[u8]) -> Option<(u64, &[u8])>
    ensures some { IfSome result (λ r. IsNumbered text.now r.0 r.1.now) }
    ensures none { IfNone result ((n : ℕ) (rest : List ℕ) → ¬ IsNumbered text.now n rest) }
{
    let (digits, rest) = text.split_at(count_digits(text));
    if digits.len() > 1 && digits[0] == b'0' {
        return None;
    }
    let word = str::from_utf8(digits).ok()?;
    let number = word.parse::<u64>().ok()?;
    Some((number, rest))
}
