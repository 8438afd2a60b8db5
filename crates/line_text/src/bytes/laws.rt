//! Laws of texts and lines, each the contract of a function that does nothing: a text that was written is read back,
//! and no other bytes have it.
ghost use Rattle.std.specs.Prelude.{◌≡◌, ◌≤◌, ◌++◌, ◌∷◌, [], ℕ, List, length};
ghost use Rattle.line_text.specs.bytes.Lines.{IsLineOf, padded};
ghost use Rattle.line_text.specs.bytes.Texts.{AreBytes, record_line, text_of, trimmed};

/// Bytes that have one text are one list of bytes. `read_text` finds the bytes that have the given text, if there are
/// any. So it finds the bytes that were written as a text, and it finds them in no other text.
pub fn texts_differ()
    ensures { (xs ys : List ℕ) → AreBytes xs → AreBytes ys → text_of xs ≡ text_of ys → xs ≡ ys }
{}

/// The line that is written for a record is, without its LF, a line only of that record. The bytes in it, with zeros
/// up to the record's length, are the record.
pub fn lines_give_records()
    ensures line { (n : ℕ) (r : List ℕ) → (line : List ℕ) → line ++ (10 ∷ []) ≡ record_line n r
        → IsLineOf line n (trimmed r) }
    ensures one { (line : List ℕ) (m n : ℕ) (xs ys : List ℕ) → 1 ≤ m → m ≤ 182880 → 1 ≤ n → n ≤ 182880
        → IsLineOf line m xs → IsLineOf line n ys → (m ≡ n) × (xs ≡ ys) }
    ensures padded { (r : List ℕ) → padded (length r) (trimmed r) ≡ r }
{}
