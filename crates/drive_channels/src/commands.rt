//! Commands.
ghost use Rattle.std.specs.Prelude.{◌≡◌, ◌≤◌, ◌+◌, ◌⊎◌, ◌↔◌, Bool, IsTrue, List, MatchOption, OnOk, Some, ℕ};
ghost use Rattle.std.specs.Prelude.{length};
ghost use Rattle.d64_image.specs.History.{OnlyReads, WritesNothing};
ghost use Rattle.d64_image.specs.Images.{Image};
ghost use Rattle.disk_layout.specs.Clean.{IsClean};
ghost use Rattle.disk_layout.specs.Layout.{IsSound};
ghost use Rattle.drive_channels.specs.Calls.{Validates};
ghost use Rattle.drive_channels.specs.Inside.{IsFound, IsKnown, IsSpot, at_spot, shown};
ghost use Rattle.drive_channels.specs.Serving.{Serves};
ghost use Rattle.drive_channels.specs.Spelling.{IsInitialize, IsValidate, wanted_channel, wanted_position};
ghost use Rattle.drive_channels.specs.Spelling.{wanted_record};
ghost use Rattle.drive_channels.specs.State.{view_of};
ghost use Rattle.drive_channels.specs.Tables.{Commands, InFile, Moves, MovesTo};
ghost use Rattle.drive_channels.specs.declared.open_files.OpenFiles.{OpenFiles};
ghost use Rattle.drive_channels.specs.declared.status.Status as statuses;
ghost use Rattle.layout_check.specs.Repaired.{MendsFrom};

use crate::drive::Drive;
use crate::faults::Dead;
use crate::open_file::{NamedFile, OpenFile, Position};
use crate::open_files::OpenFiles;
use crate::status::Status;
use d64_image::Sectors;
use disk_layout::Fault;
use layout_check::repair;
use rel_records::{blocks_for, has_records};

/// Whether the command is this word.
fn is_word(text: &[u8], word: &[u8]) -> bool
    ensures { IsTrue result ↔ (text.now ≡ word.now) }
{
    text == word
}

/// Whether the command is one to repair the disk.
fn is_validate(text: &[u8]) -> bool
    ensures { IsTrue result ↔ IsValidate text.now }
{
    is_word(text, b"V")
        || is_word(text, b"V0")
        || is_word(text, b"VALIDATE")
        || is_word(text, b"VALIDATE0")
}

/// Whether the command is one that does nothing here.
fn is_initialize(text: &[u8]) -> bool
    ensures { IsTrue result ↔ IsInitialize text.now }
{
    is_word(text, b"I")
        || is_word(text, b"I0")
        || is_word(text, b"INITIALIZE")
        || is_word(text, b"INITIALIZE0")
}

/// The place that a `P` names. None if its length isn't that of a `P`.
fn place_of(text: &[u8]) -> Option<Position>
    ensures { MatchOption result (¬ ((length text.now ≡ 4) ⊎ (length text.now ≡ 5))) (λ spot.
        ((length text.now ≡ 4) ⊎ (length text.now ≡ 5)) × (spot.channel ≡ wanted_channel text.now)
        × (spot.record_number ≡ wanted_record text.now) × (spot.position ≡ wanted_position text.now)) }
{
    if text.len() != 4 && text.len() != 5 {
        return None;
    }
    let number = text[2] as u32 + 256 * text[3] as u32;
    let position = if text.len() == 5 { text[4] } else { 1 };
    Some(Position {
        channel: text[1] % 16,
        position: position.max(1),
        record_number: number.max(1),
    })
}

/// Moves to a place in the file, on the same channel. Returns the status.
fn go_to(found: &NamedFile, spot: &mut Position, wanted: Position) -> Status
    requires record_low { 1 ≤ wanted.record_number }
    requires record_high { wanted.record_number ≤ 65535 }
    requires position { 1 ≤ wanted.position }
    ensures row { (img : Image) → (s : statuses.Status) → (b : Bool) → IsFound img found.now
        → InFile (at_spot img found.now spot.old s b)
        (MovesTo (at_spot img found.now spot.old s b) wanted.record_number wanted.position
        (at_spot img found.now spot.new result b)) }
    ensures spot { IsSpot found.now spot.old → IsSpot found.now spot.new }
{
    let length = found.file.length();
    if wanted.position > length {
        return Status::Overflow;
    }
    if blocks_for(wanted.record_number, length).is_none() {
        return Status::FileTooLarge;
    }
    spot.record_number = wanted.record_number;
    spot.position = wanted.position;
    if !has_records(&found.file, wanted.record_number) {
        return Status::RecordNotPresent;
    }
    Status::Ok
}

impl OpenFile {
    /// Moves to a place, if the `P` names the open channel. Returns the status.
    fn position(&mut self, wanted: Position) -> Status
        requires record_low { 1 ≤ wanted.record_number }
        requires record_high { wanted.record_number ≤ 65535 }
        requires position { 1 ≤ wanted.position }
        ensures row { (img : Image) → (k : OpenFiles) → (text : List ℕ) → (s : statuses.Status)
            → k.last ≡ Some self.old → IsKnown img k → (length text ≡ 4) ⊎ (length text ≡ 5)
            → wanted.channel ≡ wanted_channel text → wanted.record_number ≡ wanted_record text
            → wanted.position ≡ wanted_position text
            → Moves (shown img k s) text (shown img (record {
              last = Some self.new;
              before = k.before;
              checked = k.checked;
            }) result) }
        ensures known { (img : Image) → (k : OpenFiles) → k.last ≡ Some self.old → IsKnown img k
            → IsKnown img (record { last = Some self.new; before = k.before; checked = k.checked }) }
    {
        if let Some(spot) = &mut self.spot {
            if spot.channel == wanted.channel {
                return go_to(&self.found, spot, wanted);
            }
        }
        Status::NoChannel
    }
}

impl OpenFiles {
    /// Moves the open channel, if the `P` names it. Returns the status.
    fn position(&mut self, text: &[u8]) -> Status
        ensures row { (img : Image) → (s : statuses.Status) → IsKnown img self.old
            → Moves (shown img self.old s) text.now (shown img self.new result) }
        ensures known { (img : Image) → IsKnown img self.old → IsKnown img self.new }
    {
        let Some(wanted) = place_of(text) else {
            return Status::SyntaxError;
        };
        if let Some(opened) = &mut self.last {
            return opened.position(wanted);
        }
        Status::NoChannel
    }

    /// Does a command that isn't for the disk. Returns the status.
    fn command(&mut self, text: &[u8]) -> Status
        requires other { ¬ (IsValidate text.now) }
        ensures row { (img : Image) → (s : statuses.Status) → IsKnown img self.old
            → Commands (shown img self.old s) text.now (shown img self.new result) }
        ensures known { (img : Image) → IsKnown img self.old → IsKnown img self.new }
    {
        if text.is_empty() {
            return Status::SyntaxError;
        }
        if is_initialize(text) {
            return Status::Ok;
        }
        if text[0] == b'P' {
            return self.position(text);
        }
        Status::UnknownCommand
    }
}

/// Repairs the disk. Returns the status.
fn validate<D: Sectors>(disk: &mut D) -> Result<Status, Dead>
    ensures { Validates D.history disk.old disk.new result }
{
    match repair(disk) {
        Ok(_) => Ok(Status::Ok),
        Err(fault) => match fault {
            Fault::Device(_) => Err(Dead),
            _ => Ok(Status::DirError),
        },
    }
}

impl<D: Sectors> Drive<D> {
    /// Does a command, and sets the status:
    ///
    /// - `V`, `V0`, `VALIDATE` and `VALIDATE0` repair the disk: 00, or 71 if it isn't sound. An open channel keeps its
    ///   place.
    /// - `I`, `I0`, `INITIALIZE` and `INITIALIZE0` do nothing: 00.
    /// - `P` moves the open channel. After it come the channel (modulo 16), the record's low and high byte and, if
    ///   given, the position. The status is 00, or 50 if the file has no such record yet. It is 51 if the position is
    ///   past the record's end, 52 if the record would need more than 720 blocks, and 70 if the channel isn't the open
    ///   one. At 51, 52 and 70 the place stays.
    /// - An empty command, or a `P` of another length: 30.
    /// - Any other command: 31.
    ///
    /// At `Dead` the disk holds what it held at one of the moments of the repair. At most 4179 sectors are read.
    pub fn command(&mut self, text: &[u8]) -> Result<(), Dead>
        ensures serves { Serves D.history self.old self.new result }
        ensures row { OnOk result (Commands (view_of D.history self.old) text.now (view_of D.history self.new)) }
        // only `V` reads or writes
        ensures silent { ¬ (IsValidate text.now) → self.new.disk ≡ self.old.disk }
        // and each image held is one of the repair
        ensures moments { MendsFrom D.history self.old.disk self.new.disk 883 }
        ensures unsound { (IsSound (D.history.image self.old.disk) → ⊥)
            → OnlyReads D.history self.old.disk self.new.disk 2114 }
        ensures quiet { IsClean (D.history.image self.old.disk) → WritesNothing D.history self.old.disk self.new.disk }
        ensures reads { D.history.reads self.new.disk ≤ D.history.reads self.old.disk + 4179 }
    {
        if self.dead {
            return Err(Dead);
        }
        if is_validate(text) {
            let Ok(status) = validate(&mut self.disk) else {
                self.dead = true;
                return Err(Dead);
            };
            self.status = status;
            return Ok(());
        }
        self.status = self.known.command(text);
        Ok(())
    }
}
