//! The directory of an image, as an object.
ghost use Rattle.std.specs.Prelude.{◌≡◌, ◌≢◌, IfErr, IfOk, OnOk};
ghost use Rattle.command_faults.specs.declared.faults.CommandFault.TheVariants as faults;
ghost use Rattle.json_looks.specs.Listings.{IsListFault, IsListed, list_data};
ghost use Rattle.serde_json.specs.View.{view};

use crate::entries::entry_values;
use crate::printing::print_object;
use arrayvec::ArrayVec;
use command_faults::{CommandFault, load};
use damaged_files::disk_name;
use disk_layout::{BamView, Slot, map_place, read_directory};
use line_text::Text;
use serde_json::{Value, json};
use std::alloc::{AllocError, Global};
use std::io::Write;

/// The object of an image: what 18/0 says of the disk, and its entries.
fn list_value(
    alloc: Global,
    name: &str,
    map: &[u8; 256],
    slots: &[Slot],
) -> Result<Value, AllocError>
    ensures { IfOk result (λ value. view value ≡ list_data name.now map.now slots.now) }
{
    let entries = entry_values(alloc, slots)?;
    let view = BamView::new(map);
    let Ok(disk) = format!(in alloc; "{}", Text(disk_name(map))) else {
        return Err(AllocError);
    };
    let Ok(id) = format!(in alloc; "{}", Text(view.id())) else {
        return Err(AllocError);
    };
    let Ok(dos_type) = format!(in alloc; "{}", Text(view.version())) else {
        return Err(AllocError);
    };
    json!(in alloc; {
        "disk": disk,
        "dos_type": dos_type,
        "entries": entries,
        "free": view.blocks_free(),
        "id": id,
        "name": name,
        "refused": null
    })
}

/// Prints the directory of the image, which has this name, as an object of JSON in a line: what 18/0 says of the disk, and each
/// entry. The directory is read and checked whole before anything is printed.
///
/// `ImageSize` if the image hasn't the size of a disk; `Layout` if the directory's sectors aren't a chain on track 18
/// outside 18/0; `NoMemory`. `File` if the output failed, which may then have a part.
pub fn list_object<W: Write>(
    alloc: Global,
    name: &str,
    image: &[u8],
    out: &mut W,
) -> Result<(), CommandFault>
    ensures ok { OnOk result (IsListed W.contents name.now image.now out.old out.new) }
    ensures err { IfErr result (IsListFault image.now) }
    // At a refusal something was printed only if the output failed.
    ensures untouched { IfErr result (λ fault. (fault ≢ faults.File) → out.new ≡ out.old) }
{
    let mut disk = load(alloc, image)?;
    let mut slots = ArrayVec::new();
    if let Err(fault) = read_directory(&mut disk, &mut slots) {
        return Err(CommandFault::Layout(fault));
    }
    let Ok(value) = list_value(alloc, name, disk.sector(map_place()), slots.as_slice()) else {
        return Err(CommandFault::NoMemory);
    };
    print_object(alloc, &value, out)
}
