//! Numbers in messages: decimal, without leading zeros, read in one pass over their digits.

ghost use Rattle.std.specs.Prelude.{◌≡◌, ◌≤◌, ℕ, List, IfSome, MatchOption, option_map};
ghost use Rattle.line_text.specs.Numbers.{Leads, number_in, number_before};

/// The number at the front, of at most ten digits, and the bytes after its last digit. None if no digit is there, if a
/// zero comes before further digits, and if there are more than ten digits.
#[inline(always)]
fn leading_number(bytes: &[u8]) -> Option<(u64, &[u8])>
    ensures { MatchOption result ((n : ℕ) (rest : List ℕ) → ¬ Leads bytes.now n rest)
        (λ p. Leads bytes.now p.0 p.1.now) }
{
    let mut number: u64 = 0;
    for (i, b) in bytes.iter().enumerate() {
        if !b.is_ascii_digit() {
            return if i == 0 {
                None
            } else {
                Some((number, &bytes[i..]))
            };
        }
        if i == 10 {
            return None;
        }
        if number == 0 && i > 0 {
            return None;
        }
        number = number * 10 + u64::from(*b - b'0');
    }
    if bytes.is_empty() {
        None
    } else {
        Some((number, &[]))
    }
}

/// The same as `leading_number`, for a number of this range, which includes its ends.
#[inline(always)]
fn number_at_front(bytes: &[u8], low: u32, high: u32) -> Option<(u32, &[u8])>
    ensures { MatchOption result
        ((n : ℕ) (rest : List ℕ) → low ≤ n → n ≤ high → ¬ Leads bytes.now n rest)
        (λ p. (low ≤ p.0) × (p.0 ≤ high) × Leads bytes.now p.0 p.1.now) }
{
    match leading_number(bytes) {
        Some((n, rest)) if u64::from(low) <= n && n <= u64::from(high) => Some((n as u32, rest)),
        _ => None,
    }
}

/// The number of this range before the first comma, and the bytes after that comma. The number is read as by `number`.
/// None too if no comma follows the digits.
#[inline(always)]
pub fn number_before_comma(bytes: &[u8], low: u32, high: u32) -> Option<(u32, &[u8])>
    ensures exact { option_map (λ p. (p.0, p.1.now)) result ≡ number_before low high bytes.now }
    ensures range { IfSome result (λ p. (low ≤ p.0) × (p.0 ≤ high)) }
{
    let (n, rest) = number_at_front(bytes, low, high)?;
    match rest {
        [b',', rest @ ..] => Some((n, rest)),
        _ => None,
    }
}

/// The number of this range that the field spells: only decimal digits, without leading zeros (`0` itself has one
/// digit). None for an empty field, for any other byte, and for a number outside the range, which includes its ends.
#[inline(always)]
pub fn number(field: &[u8], low: u32, high: u32) -> Option<u32>
    ensures exact { result ≡ number_in low high field.now }
    ensures range { IfSome result (λ n. (low ≤ n) × (n ≤ high)) }
{
    match number_at_front(field, low, high) {
        Some((n, rest)) if rest.is_empty() => Some(n),
        _ => None,
    }
}
