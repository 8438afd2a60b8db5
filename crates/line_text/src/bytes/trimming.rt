//! Records without the zeros at their ends.
ghost use Rattle.std.specs.Prelude.{◌≡◌, ◌≢◌, ◌⊎◌, ◌≤◌, ◌-◌, ℕ, length, slice_index};
ghost use Rattle.line_text.specs.bytes.Texts.{trimmed};

/// How many of the bytes there are up to the last one that isn't 0.
fn end_of(bytes: &[u8]) -> usize
    ensures high { result ≤ length bytes.now }
    ensures zeros { (i : ℕ) → result ≤ i → slice_index bytes.now i ≡ 0 }
    ensures last { (result ≡ 0) ⊎ (slice_index bytes.now (result - 1) ≢ 0) }
{
    let mut end = bytes.len();
    while end > 0 && bytes[end - 1] == 0 {
        end -= 1;
    }
    end
}

/// The bytes up to the last one that isn't 0: none if all are 0.
pub fn trim(bytes: &[u8]) -> &[u8]
    ensures { result.now ≡ trimmed bytes.now }
{
    &bytes[..end_of(bytes)]
}
