//! Laws of records that are stored, of repairs, and of directory art, each the contract of a function that does nothing.
ghost use Rattle.std.specs.Prelude.{◌≡◌, ◌≤◌, ◌⊎◌, ◌++◌, ℕ, Bool, List, [], drop, length};
ghost use Rattle.std.specs.Io.KnownBytes.{Appends};
ghost use Rattle.line_text.specs.bytes.Texts.{AreBytes, trimmed};
ghost use Rattle.line_text.specs.petscii.Quoted.{one_line};
ghost use Rattle.line_text.specs.declared.petscii.characters.CharacterSet.{CharacterSet};
ghost use Rattle.d64_image.specs.History.{WritesNothing};
ghost use Rattle.d64_image.specs.Images.{Image};
ghost use Rattle.d64_image.specs.Memory.{sectors_in};
ghost use Rattle.disk_layout.specs.Layout.{File, IsSound, record_length};
ghost use Rattle.disk_layout.specs.Records.{records};
ghost use Rattle.disk_layout.specs.declared.slot.Slot.{Slot};
ghost use Rattle.disk_changes.specs.Art.{HasArt};
ghost use Rattle.disk_changes.specs.lines.ColumnLines.{plain_text};
ghost use Rattle.disk_changes.specs.lines.TypedLines.{AreMadeOf, IsOfRecord};
ghost use Rattle.file_rescues.specs.Forms.{HasPositions, records_as};
ghost use Rattle.file_rescues.specs.Printed.{AreRecordsPrinted};
ghost use Rattle.file_rescues.specs.Records.{IsRecordFile, records_text};
ghost use Rattle.file_rescues.specs.declared.forms.RecordForm.TheVariants.{Columns, Lines, Text};
ghost use Rattle.file_rescues.specs.declared.forms.ColumnForm.{ColumnForm};
ghost use Rattle.disk_changes.specs.mended.Repairs.{IsMendedAs, mended_text};
ghost use Rattle.disk_changes.specs.lines.Stores.{
  AreApart,
  AreLinesOf,
  AreRecords,
  AreSo,
  CanHave,
  NewRecord,
  changed_text,
  greatest,
  last_ones,
  numbered,
  stored,
};
ghost use Rattle.disk_changes.specs.lines.Storing.{IsStoreDone, IsStoredDisk, put_over};
ghost use Rattle.rel_records.specs.Others.{HasRecords};
ghost use Rattle.rel_records.specs.growth.Growth.{blocks_for, full, records_had};
ghost use Rattle.line_text.specs.scripts.Lines.{lines};

use d64_image::Sectors;
use std::io::Write;

/// If two lines are of one record, the last counts. No two of the lines that count are of one record. All lines count if
/// no two of them are of one record. Stored without the others, the lines that count leave what all leave.
pub fn last_lines_count()
    ensures apart { (xs : List NewRecord) → AreApart (last_ones xs) }
    ensures all { (xs : List NewRecord) → AreApart xs → last_ones xs ≡ xs }
    ensures stored { (L had : ℕ) (lines : List (List ℕ)) (xs : List NewRecord) (rs : List (List ℕ))
        → AreLinesOf L had lines xs → stored L (last_ones xs) rs ≡ stored L xs rs }
{}

/// Each record that was stored has what the last line that is of it says. Nothing is printed for a record that has that
/// already.
pub fn stored_records_are_so()
    ensures so { (L had : ℕ) (lines : List (List ℕ)) (xs : List NewRecord) (rs : List (List ℕ))
        → AreLinesOf L had lines xs
        → greatest xs ≤ length rs → AreSo L (stored L xs rs) (last_ones xs) }
    ensures unprinted { (L : ℕ) (xs : List NewRecord) (rs : List (List ℕ)) → AreSo L rs xs → changed_text L xs rs ≡ [] }
{}

/// What `records_image` prints of a file is stored as that file's records. Its lines are of them, by their numbers from 1
/// on, and of no others; no two are of one record. This holds in any file of the record length that has or can have the
/// last of them. Stored over as many records or more of this length, they are the first ones then, and those after them
/// stay.
pub fn printed_records_are_stored()
    ensures lines { (L had : ℕ) (rs : List (List ℕ)) → AreRecords L rs → length rs ≤ 182880 → CanHave L had (length rs)
        → AreLinesOf L had (lines (records_text rs)) (numbered 1 rs) }
    ensures apart { (rs : List (List ℕ)) → AreApart (numbered 1 rs) }
    ensures last { (rs : List (List ℕ)) → greatest (numbered 1 rs) ≡ length rs }
    ensures only { (L had : ℕ) (rs : List (List ℕ)) (xs : List NewRecord) → length rs ≤ 182880
        → AreLinesOf L had (lines (records_text rs)) xs → xs ≡ numbered 1 rs }
    ensures first { (L : ℕ) (rs ts : List (List ℕ)) → AreRecords L rs → length rs ≤ length ts
        → stored L (numbered 1 rs) ts ≡ rs ++ drop (length rs) ts }
{}

/// What `records_image` prints of one image's file, `store_image` puts into any file of that record length. Then that
/// file has these records first, and after them those that it had there. `records_image` prints that text of it first,
/// and nothing else if it has no more: if it had as many, or fewer and these fill the blocks that they need.
pub fn records_come_back<D: Sectors, W: Write>()
    ensures stored { (source from image to : List ℕ) (file : File) (old new : D) → AreBytes source
        → IsRecordFile source from file
        → (done : IsStoredDisk D.history image to (records_text (records (sectors_in source) file)) old new)
        → record_length done.run.file.slot ≡ record_length file.slot
        → HasRecords (D.history.image old) (D.history.image new) done.run.layout done.run.number
        (put_over (records (sectors_in source) file) (D.history.image old) done.run.file) }
    ensures printed { (source from image to : List ℕ) (file : File) (old new : D) → AreBytes source
        → IsRecordFile source from file
        → (done : IsStoredDisk D.history image to (records_text (records (sectors_in source) file)) old new)
        → record_length done.run.file.slot ≡ record_length file.slot
        → (after : List ℕ) (before out : W) → sectors_in after ≡ D.history.image new
        → AreRecordsPrinted W.contents Lines after to before out
        → Appends (W.contents before) (W.contents out)
        (records_text (put_over (records (sectors_in source) file) (D.history.image old) done.run.file)) }
    ensures front { (rs ts : List (List ℕ)) → (more : List ℕ) × (records_text (rs ++ ts) ≡ records_text rs ++ more) }
    ensures same { (d : D) (f : File) (rs : List (List ℕ)) → records_had f ≤ length rs
        → (records_had f ≡ length rs)
        ⊎ (length rs ≡ full (record_length f.slot) (blocks_for (record_length f.slot) (length rs)))
        → put_over rs (D.history.image d) f ≡ rs }
{}

/// `plain_lines` turns what `records_image` prints of a file with several columns into what it prints of that file with one
/// column for each record: with a column for each field, and with columns at any positions. So `store_image` stores the
/// one as the other (`records_come_back`).
pub fn columns_come_back()
    ensures { (form : ColumnForm) (rs : List (List ℕ)) → HasPositions form → length rs ≤ 182880
        → plain_text form (records_as (Columns form) rs) ≡ records_text rs }
{}

/// What `records_image` prints of a file in the characters of a set, and is stored again in these, changes nothing: the lines that are
/// made of it over the file's records are those that `records_image` prints without a set (`records_come_back`).
pub fn shown_records_come_back()
    ensures { (set : CharacterSet) (L : ℕ) (rs : List (List ℕ)) (plain : List ℕ) → L ≤ 254 → AreRecords L rs → length rs ≤ 182880
        → AreMadeOf set rs (lines (records_as (Text set) rs)) plain → plain ≡ records_text rs }
{}

/// A line that is typed is made the line of a record that reads as it does.
pub fn typed_records_read_so()
    ensures { (set : CharacterSet) (rs : List (List ℕ)) (line made : List ℕ) → (x : IsOfRecord set rs line made)
        → (x.text ≡ one_line set (trimmed x.bytes)) ⊎ (x.text ≡ one_line set x.bytes) }
{}

/// Two repairs of one image print one text, and leave as many sectors: what a repair of a copy prints, one of the disk
/// prints.
pub fn repairs_print_the_same()
    ensures text { (free : Bool) (image one other : Image) (m n : ℕ) → IsMendedAs free image one m
        → IsMendedAs free image other n → mended_text image one m ≡ mended_text image other n }
    ensures left { (free : Bool) (image one other : Image) (m n : ℕ) → IsMendedAs free image one m
        → IsMendedAs free image other n → m ≡ n }
{}

/// A text that was stored, stored once more on the disk that was left, writes and prints nothing.
pub fn stored_again_is_quiet<D: Sectors, W: Write>()
    ensures unwritten { (image again name text : List ℕ) (a b c d : D) → D.history.image c ≡ D.history.image b
        → IsStoredDisk D.history image name text a b → IsStoredDisk D.history again name text c d
        → WritesNothing D.history c d }
    ensures unprinted { (image again name text : List ℕ) (a b c d : D) (before out : W)
        → D.history.image c ≡ D.history.image b → IsStoredDisk D.history image name text a b
        → IsStoreDone D.history W.contents again name text c d before out
        → Appends (W.contents before) (W.contents out) [] }
{}

/// A sound disk has no directory art at 18/0, so a change is made of it as it is.
pub fn sound_disks_have_no_art()
    ensures { (image : List ℕ) (entries : List Slot) → IsSound (sectors_in image) → ¬ (HasArt image entries) }
{}
