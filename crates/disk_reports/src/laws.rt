//! Laws, as the contracts of functions that do nothing.
ghost use Rattle.std.specs.Prelude.{ℕ, List, flat_map};
ghost use Rattle.disk_reports.specs.Json.{Spells, json_char};
ghost use Rattle.disk_reports.specs.SideLaws.{AreExactUnlessTold, AreToldOfSides};

/// What is written of bytes between quotation marks is read by JSON's rules as these bytes.
pub fn strings_are_read_back()
    ensures { (bytes : List ℕ) → Spells (flat_map json_char bytes) bytes }
{}

/// Each sector that is named with `BADSIDE` is a side sector, or the directory sector of an entry that names none; and
/// on a sound disk `check` may name it.
pub fn named_sides_hold()
    ensures told { AreToldOfSides }
    // If none is named of a relative entry whose chain is whole, its side sectors are exact and enough.
    ensures exact { AreExactUnlessTold }
{}
