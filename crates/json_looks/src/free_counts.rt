//! The free sectors of an image, as an object.
ghost use Rattle.std.specs.Prelude.{◌≡◌, ◌≢◌, ◌≤◌, ◌∷◌, [], IfErr, IfOk, OnOk, map as mapped};
ghost use Rattle.command_faults.specs.declared.faults.CommandFault.TheVariants as faults;
ghost use Rattle.json_looks.specs.FreeCounts.{AreFreePrinted, IsFreeFault, free_data, track_data};
ghost use Rattle.json_looks.specs.Objects.{up_to};
ghost use Rattle.serde_json.specs.View.{view};

use crate::printing::print_object;
use command_faults::{CommandFault, load};
use d64_image::TRACKS;
use disk_layout::{BamView, map_place};
use serde_json::{Value, json};
use std::alloc::{AllocError, Global};
use std::io::Write;

/// The object of a track: how many of its sectors are free.
fn track_value(alloc: Global, map: &[u8; 256], track: u8) -> Result<Value, AllocError>
    requires first { 1 ≤ track }
    requires last { track ≤ 35 }
    ensures { IfOk result (λ value. view value ≡ track_data map.now track) }
{
    json!(in alloc; {"free": BamView::new(map).free_on(track), "track": track})
}

/// The objects of all tracks.
fn track_values(alloc: Global, map: &[u8; 256]) -> Result<Vec<Value>, AllocError>
    ensures { IfOk result (λ values. mapped view values.items ≡ up_to 35 (λ track. track_data map.now track ∷ [])) }
{
    let mut values = Vec::new(alloc);
    for below in 0..TRACKS {
        values.push(track_value(alloc, map, below + 1)?)?;
    }
    Ok(values)
}

/// The object of an image: the free sectors of each track, and how many blocks are free for files.
fn free_value(alloc: Global, name: &str, map: &[u8; 256]) -> Result<Value, AllocError>
    ensures { IfOk result (λ value. view value ≡ free_data name.now map.now) }
{
    let tracks = track_values(alloc, map)?;
    json!(in alloc; {
        "free": BamView::new(map).blocks_free(),
        "name": name,
        "refused": null,
        "tracks": tracks
    })
}

/// Prints how many sectors of each track are free in the image of this name, as the map in 18/0 counts them, and how many
/// blocks are free for files, as an object of JSON in a line. The rest of the image isn't checked.
///
/// `ImageSize` and `NoMemory`: nothing was printed. `File` if the output failed, which may then have a part.
pub fn free_object<W: Write>(
    alloc: Global,
    name: &str,
    image: &[u8],
    out: &mut W,
) -> Result<(), CommandFault>
    ensures ok { OnOk result (AreFreePrinted W.contents name.now image.now out.old out.new) }
    ensures err { IfErr result (IsFreeFault image.now) }
    ensures untouched { IfErr result (λ fault. (fault ≢ faults.File) → out.new ≡ out.old) }
{
    let disk = load(alloc, image)?;
    let Ok(value) = free_value(alloc, name, disk.sector(map_place())) else {
        return Err(CommandFault::NoMemory);
    };
    print_object(alloc, &value, out)
}
