//! The grammar of lines, as the contract of a function that does nothing.
ghost use Rattle.std.specs.Prelude.{◌≡◌, ℕ, List, Some};
ghost use Rattle.line_text.specs.scripts.Resets.{IsLine, Line, line_of};

/// A line is bad exactly if the grammar has no line with its bytes, and no bytes are two lines.
pub fn line_grammar()
    ensures found { (bytes : List ℕ) (l : Line) → IsLine bytes l → line_of bytes ≡ Some l }
    ensures spelled { (bytes : List ℕ) (l : Line) → line_of bytes ≡ Some l → IsLine bytes l }
{}
