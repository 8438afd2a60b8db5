//! Records that are there, written through the drive.
ghost use Rattle.std.specs.Prelude.{ℕ, ◌≡◌, ◌≤◌, OnErr, length};
ghost use Rattle.d64_image.specs.History.{FailsInOneStep};
ghost use Rattle.disk_layout.specs.Layout.{File, Layout, record_length};
ghost use Rattle.disk_layout.specs.Records as records_of;
ghost use Rattle.host_session.specs.shop.Putting.{IsPlaced};
ghost use Rattle.host_session.specs.shop.Puts.{Puts};
ghost use Rattle.host_session.specs.shop.Selecting.{IsReady};
ghost use Rattle.host_session.specs.shop.Channels.{name_of};
ghost use Rattle.rel_records.specs.Others.{HasRecords};
ghost use Rattle.rel_records.specs.Written.{IsInOneBlock, IsWriting, touched, with_written};
ghost use Rattle.host_session.specs.shop.Putting.{HasAnswer, HasCard, IsPuttingAnswer, IsPuttingCard};
ghost use Rattle.host_session.specs.shop.Files.{Files, HasFiles};

use crate::shop::shop_drive::{ShopDrive, ShopFile};
use d64_image::Sectors;
use drive_channels::Dead;

/// Writes a record that is there, whole.
// In line: if the file and the length of the text are known, the compiler works out most of a `P`.
#[inline(always)]
fn write_record<D: Sectors>(
    drive: &mut ShopDrive<D>,
    file: ShopFile,
    number: u16,
    text: &[u8],
) -> Result<(), Dead>
    requires ready { IsReady D.history drive.old }
    requires placed { (l : Layout) × (n : ℕ) × (f : File)
        × IsPlaced (D.history.image drive.old.disk) (name_of file) number l n f }
    requires some { 1 ≤ length text.now }
    ensures puts { Puts D.history drive.old drive.new result
        (λ (p : Layout × ℕ × File). IsPlaced (D.history.image drive.old.disk) (name_of file) number p.0 p.1 p.2)
        (λ p is. touched (record_length p.2.slot) number 1)
        (λ p. IsWriting (D.history.image drive.old.disk) p.0 p.1 p.2 0 number 1 text.now)
        (λ p i. HasRecords (D.history.image drive.old.disk) i p.0 p.1
        (with_written (record_length p.2.slot) number 1 text.now
        (records_of.records (D.history.image drive.old.disk) p.2))) }
    // a record that lies in one block is written in one step: at an error no write was counted, and nothing is taken back
    ensures one_step { (l : Layout) (n : ℕ) (f : File)
        → IsPlaced (D.history.image drive.old.disk) (name_of file) number l n f
        → IsInOneBlock (record_length f.slot) number
        → OnErr result (FailsInOneStep D.history drive.old.disk drive.new.disk) }
{
    drive.select(file, number)?;
    drive.write(text)
}

/// Writes a stock card whose record is there.
pub(crate) fn write_card<D: Sectors>(
    drive: &mut ShopDrive<D>,
    item: u16,
    text: &[u8],
) -> Result<(), Dead>
    requires ready { IsReady D.history drive.old }
    requires there { (f : Files) × HasFiles (D.history.image drive.old.disk) f × (1 ≤ item) × (item ≤ length f.stock) }
    requires long { length text.now ≡ 18 }
    ensures { Puts D.history drive.old drive.new result (HasFiles (D.history.image drive.old.disk))
        (λ f h. touched 18 item 1) (λ f. IsPuttingCard f item text.now) (λ f. HasCard f item text.now) }
{
    write_record(drive, ShopFile::Stock, item, text)
}

/// Writes a till's card whose record is there.
pub(crate) fn write_answer<D: Sectors>(
    drive: &mut ShopDrive<D>,
    till: u8,
    text: &[u8],
) -> Result<(), Dead>
    requires ready { IsReady D.history drive.old }
    requires there { (f : Files) × HasFiles (D.history.image drive.old.disk) f × (1 ≤ till) × (till ≤ 64)
        × (till ≤ length f.requests) }
    requires long { length text.now ≡ 127 }
    ensures puts { Puts D.history drive.old drive.new result (HasFiles (D.history.image drive.old.disk))
        (λ f h. 1) (λ f. IsPuttingAnswer f till text.now) (λ f. HasAnswer f till text.now) }
    // it is written in one step: at an error no write was counted, and what was shown of it isn't taken back
    ensures one_step { OnErr result (FailsInOneStep D.history drive.old.disk drive.new.disk) }
{
    write_record(drive, ShopFile::Requests, u16::from(till), text)
}
