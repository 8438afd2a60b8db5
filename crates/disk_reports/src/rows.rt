//! Rows of a table of images, written as comma-separated values.
ghost use Rattle.std.specs.Prelude.{◌++◌, OnOk, Some, codes, decimal, flat_map};
ghost use Rattle.std.specs.Io.KnownBytes.{Appends};
ghost use Rattle.disk_reports.specs.Json.{digits};
ghost use Rattle.sha1.specs.Sha1.{sha1};
ghost use Rattle.sha2.specs.Sha256.{sha256};
ghost use Rattle.disk_reports.specs.Rows.{disk_cells, field, field_char, lack_cells, refused_row, row_hashes, row_head, row_text};
ghost use Rattle.disk_reports.specs.Rows.{missing_cells, refused_as_is, row_as_is, size_cell, verdict_cells};

use crate::json::{print_control, print_hex};
use damaged_files::{Shortfall, disk_name};
use disk_layout::{BamView, Fault};
use line_text::Text;
use sha1::Sha1;
use sha2::{Digest, Sha256};
use std::fmt::{self, Display, Formatter};
use std::io::{self, Write};

/// What a check finds: as it prints it, and the track and the sector of a fault.
#[derive(Clone, Copy)]
struct VerdictCells(Option<Fault>);

impl Display for VerdictCells {
    ghost output = { λ cells. Some (verdict_cells cells.0) };

    fn fmt<W: fmt::Write>(&self, f: &mut Formatter<W>) -> fmt::Result {
        match self.0 {
            None => f.write_str("OK,,"),
            Some(fault) => {
                let place = fault.place();
                write!(f, "{fault},{},{}", place.track(), place.sector())
            }
        }
    }
}

/// What 18/0 says of the disk: its free blocks, name and id.
#[derive(Clone, Copy)]
struct DiskCells<'a>(&'a [u8; 256]);

impl<'a> Display for DiskCells<'a> {
    ghost output = { λ cells. Some (disk_cells cells.0.now) };

    fn fmt<W: fmt::Write>(&self, f: &mut Formatter<W>) -> fmt::Result {
        let map = BamView::new(self.0);
        write!(
            f,
            "{},\"{}\",\"{}\"",
            map.blocks_free(),
            Text(disk_name(self.0)),
            Text(map.id())
        )
    }
}

/// Where the file ends that is cut short, or that has fewer blocks than its entry says.
#[derive(Clone, Copy)]
pub(crate) struct LackCells(pub(crate) Option<Shortfall>);

impl Display for LackCells {
    ghost output = { λ cells. Some (lack_cells cells.0) };

    fn fmt<W: fmt::Write>(&self, f: &mut Formatter<W>) -> fmt::Result {
        match self.0 {
            None => f.write_str(","),
            Some(Shortfall::Short(place)) => write!(f, "{}/{},", place.track(), place.sector()),
            Some(Shortfall::Fewer(place)) => write!(f, ",{}/{}", place.track(), place.sector()),
        }
    }
}

/// Writes a byte of a field. A quotation mark stands twice, and a control byte is written by its number, as in JSON.
fn print_field_char<W: Write>(out: &mut W, byte: u8) -> io::Result<()>
    ensures { OnOk result (Appends (W.contents out.old) (W.contents out.new) (field_char byte)) }
{
    if byte == b'"' {
        return out.write_all(b"\"\"");
    }
    if byte < 32 || byte == 127 {
        return print_control(out, byte);
    }
    out.write_all(&[byte])
}

/// Writes the bytes of a field.
pub(crate) fn print_field_chars<W: Write>(out: &mut W, bytes: &[u8]) -> io::Result<()>
    ensures { OnOk result (Appends (W.contents out.old) (W.contents out.new) (flat_map field_char bytes.now)) }
{
    for &byte in bytes {
        print_field_char(out, byte)?;
    }
    Ok(())
}

/// Writes bytes as a field between quotation marks.
pub(crate) fn print_field<W: Write>(out: &mut W, bytes: &[u8]) -> io::Result<()>
    ensures { OnOk result (Appends (W.contents out.old) (W.contents out.new) (field bytes.now)) }
{
    out.write_all(b"\"")?;
    print_field_chars(out, bytes)?;
    out.write_all(b"\"")
}

/// Writes the row of an image up to its hashes.
fn print_row_head<W: Write>(
    out: &mut W,
    name: &[u8],
    found: Option<Fault>,
    map: &[u8; 256],
    lack: Option<Shortfall>,
) -> io::Result<()>
    ensures { OnOk result (Appends (W.contents out.old) (W.contents out.new) (row_head name.now found map.now lack)) }
{
    print_field(out, name)?;
    write!(
        out,
        ",174848,{},{},{},",
        VerdictCells(found),
        DiskCells(map),
        LackCells(lack)
    )
}

/// Writes the hashes of an image, and the end of its row.
fn print_row_hashes<W: Write>(out: &mut W, image: &[u8]) -> io::Result<()>
    ensures { OnOk result (Appends (W.contents out.old) (W.contents out.new) (row_hashes image.now)) }
{
    print_hex(out, &Sha1::digest(image))?;
    out.write_all(b",")?;
    print_hex(out, &Sha256::digest(image))?;
    out.write_all(b"\n")
}

/// Writes the row of an image of which a check finds this, with the bytes of 18/0, what the files lack, and the image's
/// hashes.
pub(crate) fn print_row<W: Write>(
    out: &mut W,
    name: &[u8],
    found: Option<Fault>,
    map: &[u8; 256],
    lack: Option<Shortfall>,
    image: &[u8],
) -> io::Result<()>
    ensures { OnOk result (Appends (W.contents out.old) (W.contents out.new) (row_text name.now found map.now lack image.now)) }
{
    print_row_head(out, name, found, map, lack)?;
    print_row_hashes(out, image)
}

/// Writes a size between commas, if it is known.
fn print_size_cell<W: Write>(out: &mut W, size: Option<u64>) -> io::Result<()>
    ensures { OnOk result (Appends (W.contents out.old) (W.contents out.new) (size_cell size)) }
{
    match size {
        None => out.write_all(b",,"),
        Some(size) => write!(out, ",{size},"),
    }
}

/// Writes the row of an image that is refused for this reason.
pub(crate) fn print_refused_row<W: Write>(
    out: &mut W,
    name: &[u8],
    size: Option<u64>,
    why: &[u8],
) -> io::Result<()>
    ensures { OnOk result (Appends (W.contents out.old) (W.contents out.new) (refused_row name.now size why.now)) }
{
    print_field(out, name)?;
    print_size_cell(out, size)?;
    out.write_all(why)?;
    out.write_all(b",,,,,,,,,\n")
}

/// What an image that is described as it is hasn't on its first 35 tracks.
#[derive(Clone, Copy, Debug, PartialEq, Eq)]
pub struct Missing {
    /// How many sectors of them weren't read.
    pub errors: usize,
    /// At how many places files go on past them.
    pub beyond: usize,
}

/// Writes the row of an image of this size up to its hashes.
fn print_sized_head<W: Write>(
    out: &mut W,
    name: &[u8],
    size: usize,
    found: Option<Fault>,
    map: &[u8; 256],
    lack: Option<Shortfall>,
) -> io::Result<()>
    ensures { OnOk result (Appends (W.contents out.old) (W.contents out.new) (field name.now ++ (codes "," ++ (decimal size
        ++ (codes "," ++ (verdict_cells found ++ (codes "," ++ (disk_cells map.now ++ (codes "," ++ (lack_cells lack
        ++ codes ",")))))))))) }
{
    print_field(out, name)?;
    write!(
        out,
        ",{size},{},{},{},",
        VerdictCells(found),
        DiskCells(map),
        LackCells(lack)
    )
}

/// Writes the hashes of an image.
fn print_hashes<W: Write>(out: &mut W, image: &[u8]) -> io::Result<()>
    ensures { OnOk result (Appends (W.contents out.old) (W.contents out.new)
        (flat_map digits (sha1 image.now) ++ (codes "," ++ flat_map digits (sha256 image.now)))) }
{
    print_hex(out, &Sha1::digest(image))?;
    out.write_all(b",")?;
    print_hex(out, &Sha256::digest(image))
}

/// Writes what an image lacks, and the end of its row.
fn print_missing<W: Write>(out: &mut W, missing: Missing) -> io::Result<()>
    ensures { OnOk result (Appends (W.contents out.old) (W.contents out.new) (missing_cells missing.errors missing.beyond)) }
{
    let Missing { errors, beyond } = missing;
    writeln!(out, ",{errors},{beyond}")
}

/// Writes the hashes of an image, what it lacks, and the end of its row.
fn print_row_end<W: Write>(out: &mut W, image: &[u8], missing: Missing) -> io::Result<()>
    ensures { OnOk result (Appends (W.contents out.old) (W.contents out.new)
        ((flat_map digits (sha1 image.now) ++ (codes "," ++ flat_map digits (sha256 image.now)))
        ++ missing_cells missing.errors missing.beyond)) }
{
    print_hashes(out, image)?;
    print_missing(out, missing)
}

/// Writes the row of an image that is described as it is, of which a check of its first 35 tracks finds this, with the bytes of 18/0,
/// what the files lack, the image's hashes, and what isn't on these tracks.
pub(crate) fn print_row_as_is<W: Write>(
    out: &mut W,
    name: &[u8],
    found: Option<Fault>,
    map: &[u8; 256],
    lack: Option<Shortfall>,
    image: &[u8],
    missing: Missing,
) -> io::Result<()>
    ensures { OnOk result (Appends (W.contents out.old) (W.contents out.new)
        (row_as_is name.now found map.now lack image.now missing.errors missing.beyond)) }
{
    print_sized_head(out, name, image.len(), found, map, lack)?;
    print_row_end(out, image, missing)
}

/// Writes the row of an image that is refused for this reason, among those that are described as they are.
pub(crate) fn print_refused_as_is<W: Write>(
    out: &mut W,
    name: &[u8],
    size: Option<u64>,
    why: &[u8],
) -> io::Result<()>
    ensures { OnOk result (Appends (W.contents out.old) (W.contents out.new) (refused_as_is name.now size why.now)) }
{
    print_field(out, name)?;
    print_size_cell(out, size)?;
    out.write_all(why)?;
    out.write_all(b",,,,,,,,,,,\n")
}
