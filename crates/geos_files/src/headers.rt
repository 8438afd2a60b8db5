//! How a CVT begins.
ghost use Rattle.std.specs.Prelude.{◌≡◌};
ghost use Rattle.geos_files.specs.Cvt as cvt;

/// What the CVT of a file calls itself, by whether the file has records.
pub fn cvt_signature(has_records: bool) -> &'static [u8; 28]
    ensures { result.now ≡ cvt.signature has_records }
{
    if has_records {
        b"PRG formatted GEOS file V1.0"
    } else {
        b"SEQ formatted GEOS file V1.0"
    }
}
