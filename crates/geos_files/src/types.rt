//! What GEOS calls the structures and the types of its files.
ghost use Rattle.std.specs.Prelude.{◌≡◌};
ghost use Rattle.geos_files.specs.Types as types;

/// What GEOS calls the type of a file with this number, which byte 24 of its entry has: 1 to 15. `unknown` if it has no such type.
pub fn geos_type_name(kind: u8) -> &'static str
    ensures { result.now ≡ types.geos_type_name kind }
{
    match kind {
        1 => "BASIC",
        2 => "Assembler",
        3 => "Data",
        4 => "System",
        5 => "Desk Accessory",
        6 => "Application",
        7 => "Application Data",
        8 => "Font",
        9 => "Printer Driver",
        10 => "Input Driver",
        11 => "Disk Driver",
        12 => "System Boot",
        13 => "Temporary",
        14 => "Auto Exec",
        15 => "Input 128",
        _ => "unknown",
    }
}

/// What GEOS calls the structure of a file with records, or of one without.
pub fn structure_name(has_records: bool) -> &'static str
    ensures { result.now ≡ types.structure_name has_records }
{
    if has_records { "VLIR" } else { "sequential" }
}
