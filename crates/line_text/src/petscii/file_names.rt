//! Names of files, one for each entry of a disk.
ghost use Rattle.std.specs.Prelude.{◌≡◌, ◌≤◌, ◌+◌, ◌++◌, length, map};
ghost use Rattle.arrayvec.specs.ArrayVec.{array_vec_len};
ghost use Rattle.line_text.specs.petscii.FileNames as names;
ghost use Rattle.line_text.specs.petscii.FileNames.{ending_of, ending_text, file_name_of, is_file_byte, number_text};

use arrayvec::ArrayVec;

/// The greatest number of bytes of a name: three digits, a hyphen, sixteen bytes of the entry's name, and an ending of
/// four.
pub const NAME_ROOM: usize = 24;

/// The name of a file, in bytes of ASCII.
pub type FileName = ArrayVec<u8, 24>;

/// The ending of a file's name.
#[derive(Clone, Copy, Debug, PartialEq, Eq)]
pub enum Ending {
    /// `.del`
    Del,
    /// `.seq`
    Seq,
    /// `.prg`
    Prg,
    /// `.usr`
    Usr,
    /// `.rel`
    Rel,
    /// `.bin`, for an unknown type
    Other,
    /// `.csv`, the records of a relative file as lines
    Records,
}

impl Ending {
    /// The ending for an entry with this type byte, closed or not, locked or not. The byte's low four bits are 0 for DEL,
    /// 1 for SEQ, 2 for PRG, 3 for USR and 4 for REL (1541 User's Guide, directory format).
    pub fn of_type(type_byte: u8) -> Ending
        ensures { result ≡ ending_of type_byte }
    {
        match type_byte % 16 {
            0 => Ending::Del,
            1 => Ending::Seq,
            2 => Ending::Prg,
            3 => Ending::Usr,
            4 => Ending::Rel,
            _ => Ending::Other,
        }
    }

    /// Its text, with the full stop.
    fn text(self) -> &'static [u8; 4]
        ensures { result.now ≡ ending_text self }
    {
        match self {
            Ending::Del => b".del",
            Ending::Seq => b".seq",
            Ending::Prg => b".prg",
            Ending::Usr => b".usr",
            Ending::Rel => b".rel",
            Ending::Other => b".bin",
            Ending::Records => b".csv",
        }
    }
}

/// A byte of an entry's name in a file's name: the byte itself, or a low line if a system refuses it there.
fn file_byte(byte: u8) -> u8
    ensures { result ≡ names.file_byte byte }
{
    match byte {
        b'"' | b'*' | b'/' | b':' | b'<' | b'>' | b'?' | b'\\' => b'_',
        b' '..=b'z' => byte,
        _ => b'_',
    }
}

/// Appends the entry's number: two digits, or three from 100 on.
fn push_number(text: &mut FileName, number: u8)
    requires { array_vec_len text.old ≤ 21 }
    ensures items { text.new.items ≡ text.old.items ++ number_text number }
    ensures room { array_vec_len text.new ≤ array_vec_len text.old + 3 }
{
    if number >= 100 {
        text.push(b'0' + number / 100);
    }
    text.push(b'0' + number / 10 % 10);
    text.push(b'0' + number % 10);
}

/// Appends an entry's name.
fn push_name(text: &mut FileName, name: &[u8])
    requires { array_vec_len text.old + length name.now ≤ 24 }
    ensures items { text.new.items ≡ text.old.items ++ map names.file_byte name.now }
    ensures room { array_vec_len text.new ≡ array_vec_len text.old + length name.now }
{
    for &byte in name {
        text.push(file_byte(byte));
    }
}

/// Appends an ending.
fn push_ending(text: &mut FileName, ending: Ending)
    requires { array_vec_len text.old ≤ 20 }
    ensures { text.new.items ≡ text.old.items ++ ending_text ending }
{
    for &byte in ending.text() {
        text.push(byte);
    }
}

/// The name of the file for an entry: the entry's number, a hyphen, its name, which has at most sixteen bytes, and the
/// ending, such as `01-LETTER 02.prg`. Bytes of the name outside $20 to $7A, and `" * / : < > ? \`, become low lines,
/// because not every system allows them in a file's name.
///
/// Entries with different numbers have different names (`names_differ`), and each name is one of a file in the folder
/// that it is used in (`names_are_safe`).
pub fn file_name(number: u8, name: &[u8], ending: Ending) -> FileName
    requires { length name.now ≤ 16 }
    ensures { result.items ≡ file_name_of number name.now ending }
{
    let mut text = ArrayVec::new();
    push_number(&mut text, number);
    text.push(b'-');
    push_name(&mut text, name);
    push_ending(&mut text, ending);
    text
}
