//! A file on two disks, before and after: in which bytes and records it differs.
ghost use Rattle.std.specs.Prelude.{◌≡◌, ◌≤◌, ◌+◌, ◌*◌, ◌&&◌, IfSome, None, Some, if◌then◌else◌};
ghost use Rattle.disk_layout.specs.Layout.{record_length};
ghost use Rattle.disk_pictures.specs.Comparisons.{are_bytes_changed as bytes_changed, file_byte, file_length};
ghost use Rattle.disk_pictures.specs.Comparisons.{have_same_records, is_changed_within as changed_within, is_other as other};
ghost use Rattle.disk_pictures.specs.Comparisons.{is_record_changed as record_changed, is_record_changed_before};
ghost use Rattle.disk_pictures.specs.Comparisons.{most_records};
ghost use Rattle.disk_pictures.specs.Drawings.{file_in};

use crate::comparison::compared::Compared;
use crate::drawn_file::DrawnFile;
use disk_layout::{DATA, EntryView};

/// A file of the first disk and its counterpart on the second one.
#[derive(Clone, Copy)]
pub(crate) struct Versions<'a> {
    /// The first disk.
    pub(crate) before: &'a Compared<'a>,
    /// The second disk.
    pub(crate) after: &'a Compared<'a>,
    /// The file of the first one.
    pub(crate) former: &'a DrawnFile,
    /// The file of the second one.
    pub(crate) file: &'a DrawnFile,
}

/// How many bytes a file has: 254 in each block, but in the last one those up to its last index.
fn length_of(file: &DrawnFile) -> usize
    ensures value { result ≡ file_length (file_in file.now) }
    ensures few { result ≤ 182880 }
{
    DATA * file.blocks.as_slice().len().saturating_sub(1) + (file.last as usize).max(1) - 1
}

/// Byte `index` of a file, from 0; None past its end.
fn byte_at(disk: &Compared<'_>, file: &DrawnFile, index: usize) -> Option<u8>
    ensures { result ≡ file_byte disk.now.sectors.now (file_in file.now) index }
{
    if index >= length_of(file) {
        return None;
    }
    match file.blocks.as_slice().get(index / DATA) {
        Some(&place) => Some(disk.sector(place)[2 + index % DATA]),
        None => None,
    }
}

/// Whether the two are different bytes, or only one is there.
fn is_other(former: Option<u8>, byte: Option<u8>) -> bool
    ensures { result ≡ other former byte }
{
    match (former, byte) {
        (None, None) => false,
        (Some(former), Some(byte)) => former != byte,
        _ => true,
    }
}

impl Versions<'_> {
    /// Whether byte `index`, from 0, differs.
    fn is_byte_changed(&self, index: usize) -> bool
        ensures { result ≡ other (file_byte self.now.before.now.sectors.now (file_in self.now.former.now) index)
            (file_byte self.now.after.now.sectors.now (file_in self.now.file.now) index) }
    {
        let former = byte_at(self.before, self.former, index);
        let byte = byte_at(self.after, self.file, index);
        is_other(former, byte)
    }

    /// Whether one of so many bytes from `start` on differs.
    fn is_changed_within(&self, start: usize, count: usize) -> bool
        requires low { start ≤ 100000000 }
        requires few { count ≤ 200000 }
        ensures { result ≡ changed_within self.now.before.now.sectors.now self.now.after.now.sectors.now
            (file_in self.now.former.now) (file_in self.now.file.now) start count }
    {
        let mut found = false;
        for index in 0..count {
            let here = self.is_byte_changed(start + index);
            found = found || here;
        }
        found
    }

    /// Whether the contents differ.
    pub(crate) fn are_bytes_changed(&self) -> bool
        ensures { result ≡ bytes_changed self.now.before.now.sectors.now self.now.after.now.sectors.now
            (file_in self.now.former.now) (file_in self.now.file.now) }
    {
        self.is_changed_within(0, length_of(self.former).max(length_of(self.file)))
    }

    /// Whether record `number`, from 0, differs.
    pub(crate) fn is_record_changed(&self, number: usize) -> bool
        requires { number ≤ 200000 }
        ensures { result ≡ record_changed self.now.before.now.sectors.now self.now.after.now.sectors.now
            (file_in self.now.former.now) (file_in self.now.file.now) number }
    {
        let length = EntryView::new(&self.file.slot.bytes).record_length() as usize;
        self.is_changed_within(number * length, length)
    }

    /// Whether the record before `number` differs; false if there is none.
    pub(crate) fn is_record_changed_before(&self, number: usize) -> bool
        requires { number ≤ 200000 }
        ensures { result ≡ is_record_changed_before self.now.before.now.sectors.now self.now.after.now.sectors.now
            (file_in self.now.former.now) (file_in self.now.file.now) number }
    {
        if number == 0 {
            return false;
        }
        self.is_record_changed(number - 1)
    }

    /// How many records the longer of two relative files has, if both have records of one length.
    pub(crate) fn records(&self) -> Option<usize>
        ensures value { result ≡ (if have_same_records (file_in self.now.former.now) (file_in self.now.file.now)
            then Some (most_records (file_in self.now.former.now) (file_in self.now.file.now)) else None) }
        ensures few { IfSome result (λ count. count ≤ 182880) }
    {
        match (self.former.records(), self.file.records()) {
            (Some((former, count)), Some((length, records))) if former == length => {
                Some(count.max(records))
            }
            _ => None,
        }
    }
}
