//! Laws of columns, each the contract of a function that does nothing: what is written is read back.
ghost use Rattle.std.specs.Prelude.{◌≡◌, ◌≢◌, ◌<◌, ◌++◌, ◌∷◌, ℕ, List, [], false, true, flat_map, length, replicate};
ghost use Rattle.std.specs.List.{AllByRecursion};
ghost use Rattle.line_text.specs.bytes.Texts.{text_of, trimmed};
ghost use Rattle.line_text.specs.columns.Columns.{IsField, columns_of, columns_of_fields, columns_text, ended, mark_of};
ghost use Rattle.line_text.specs.columns.Pieces.{IsTooLong, cut, piece_columns, pieces_text};
ghost use Rattle.line_text.specs.columns.Positions.{ArePositions};

/// The columns that are written of a record stand for its text, also with any number of commas after them, as of empty
/// columns that a spreadsheet adds. No other record has that text (`texts_differ`).
pub fn columns_come_back()
    ensures { (bytes : List ℕ) (added : ℕ) → columns_text (columns_of bytes ++ replicate added 44) ≡ text_of bytes }
{}

/// The columns of a record that ends with a carriage return are its fields: what stands before each carriage return, a
/// column for each, and the last column says so.
pub fn columns_have_fields()
    ensures { (fields : List (List ℕ)) → AllByRecursion IsField fields → fields ≢ []
        → columns_of (flat_map ended fields) ≡ columns_of_fields fields ++ 44 ∷ mark_of true }
{}

/// The columns that are written of a record's pieces are read as that record, whatever positions these have and however
/// long it is: its text is that of its bytes up to the last one that isn't 0.
pub fn positions_come_back()
    ensures { (ps bytes : List ℕ) → ArePositions ps → pieces_text ps (piece_columns ps bytes) ≡ text_of (trimmed bytes) }
{}

/// No bytes have the text of a line that has more columns than there are positions.
pub fn more_columns_are_refused()
    ensures { (ps line bytes : List ℕ) → length ps < length (cut false line) → pieces_text ps line ≢ text_of bytes }
{}

/// No bytes have the text of a line with a column that goes beyond the position of the next one.
pub fn long_columns_are_refused()
    ensures { (ps line bytes : List ℕ) (k : ℕ) → IsTooLong ps line k → pieces_text ps line ≢ text_of bytes }
{}
