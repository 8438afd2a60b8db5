//! Which entry of another disk is the counterpart of an entry.
ghost use Rattle.std.specs.Prelude.{◌≡◌, ◌≤◌, ◌∷◌, [], length, map, option_map, slice_get};
ghost use Rattle.disk_pictures.specs.Comparisons.{called, counterpart as counterpart_of, is_called as called_so};
ghost use Rattle.disk_pictures.specs.Drawings.{file_in};

use crate::drawn_file::DrawnFile;
use damaged_files::entry_name;

/// Whether an entry has this name.
fn is_called(file: &DrawnFile, name: &[u8]) -> bool
    ensures { result ≡ called_so name.now (file_in file.now) }
{
    entry_name(&file.slot) == name
}

/// How many entries an entry counts for, among those of this name: one or none.
fn count_of(file: &DrawnFile, name: &[u8]) -> usize
    ensures value { result ≡ length (called name.now (file_in file.now ∷ [])) }
    ensures few { result ≤ 1 }
{
    if is_called(file, name) { 1 } else { 0 }
}

/// How many of these entries have this name.
fn count_called(files: &[DrawnFile], name: &[u8]) -> usize
    ensures { result ≡ length (called name.now (map file_in files.now)) }
{
    let mut count = 0;
    for file in files {
        count += count_of(file, name);
    }
    count
}

/// That of these entries with this name which has so many others of it before it.
fn nth_called<'a>(files: &'a [DrawnFile], name: &[u8], number: usize) -> Option<&'a DrawnFile>
    ensures { option_map (λ file. file_in file.now) result ≡ slice_get (called name.now (map file_in files.now)) number }
{
    let mut left = number;
    for file in files {
        if is_called(file, name) {
            if left == 0 {
                return Some(file);
            }
            left -= 1;
        }
    }
    None
}

/// The counterpart of entry `number` of these files among others: it has the same name, and as many entries of that name
/// before it.
pub(crate) fn counterpart<'a>(
    others: &'a [DrawnFile],
    files: &[DrawnFile],
    number: usize,
    file: &DrawnFile,
) -> Option<&'a DrawnFile>
    requires { number ≤ length files.now }
    ensures { option_map (λ other. file_in other.now) result
        ≡ counterpart_of (map file_in others.now) (map file_in files.now) number (file_in file.now) }
{
    let name = entry_name(&file.slot);
    nth_called(others, name, count_called(&files[..number], name))
}
