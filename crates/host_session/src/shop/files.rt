//! The two files of a ledger on a disk, and how far STOCK can grow.
ghost use Rattle.std.specs.Prelude.{◌≡◌, IfErr, IfNone, IfOk, IfSome};
ghost use Rattle.d64_image.specs.History.{Failed, OnlyReads, TellsFailure};
ghost use Rattle.disk_layout.specs.Layout.{IsLayout, IsSound, Layout};
ghost use Rattle.disk_layout.specs.Room.{IsTop};
ghost use Rattle.host_session.specs.declared.faults.OpenFault.TheVariants.{Device};
ghost use Rattle.host_session.specs.session.Opening.{LacksFileOf, Refuses, TellsJudging};
ghost use Rattle.host_session.specs.shop.Channels.{length_of, name_of};
ghost use Rattle.host_session.specs.shop.Files.{Files};
ghost use Rattle.host_session.specs.shop.Found.{AreFilesOf, IsFileNamed};
ghost use Rattle.layout_check.specs.Survey.{IsSurveyOf};

use crate::faults::OpenFault;
use crate::shop::shop_drive::ShopFile;
use d64_image::Sectors;
use disk_layout::Fault;
use layout_check::{Survey, survey};
use rel_records::{RelFault, RelFile, find};
use request_cards::last_card;

/// The two files of a ledger, as they were found on a sound disk, and the last item that a new card may have.
#[derive(Drop)]
pub struct LedgerFiles {
    pub(crate) stock: RelFile,
    pub(crate) requests: RelFile,
    pub(crate) top: u16,
}

/// Surveys a disk. A fault is returned as one of opening.
fn survey_disk<D: Sectors>(disk: &mut D) -> Result<Survey, OpenFault>
    ensures ok { IfOk result (λ found. (l : Layout) × IsLayout (D.history.image disk.old) l × IsSurveyOf l found) }
    ensures err { IfErr result (Refuses (Failed D.history disk.old disk.new) (D.history.image disk.old)) }
    ensures reads { OnlyReads D.history disk.old disk.new 2114 }
    ensures failures { TellsJudging D.history disk.old disk.new result }
{
    match survey(disk) {
        Ok(found) => Ok(found),
        Err(Fault::Device(_)) => Err(OpenFault::Device),
        Err(fault) => Err(OpenFault::Layout(fault)),
    }
}

/// The first closed relative file of a name, if its records have the right length.
fn find_shop_file<D: Sectors>(disk: &mut D, file: ShopFile) -> Result<Option<RelFile>, OpenFault>
    requires sound { IsSound (D.history.image disk.old) }
    ensures found { (l : Layout) → IsLayout (D.history.image disk.old) l
        → IfOk result (λ o. IfSome o (IsFileNamed (D.history.image disk.old) l (name_of file) (length_of file))) }
    ensures lacks { IfOk result (λ o. IfNone o
        (LacksFileOf (D.history.image disk.old) (name_of file) (length_of file))) }
    ensures err { IfErr result (λ fault. fault ≡ Device) }
    ensures reads { OnlyReads D.history disk.old disk.new 702 }
    ensures failures { TellsFailure D.history disk.old disk.new result }
{
    match find(disk, file.name()) {
        Ok(found) => {
            if found.length() == file.record_length() {
                Ok(Some(found))
            } else {
                Ok(None)
            }
        }
        Err(RelFault::NotFound) => Ok(None),
        Err(_) => Err(OpenFault::Device),
    }
}

/// The last item that a new card in this file may have. Its record is the last one in as many blocks as fit, with their
/// side sectors, into the sectors outside track 18 that no other file owns. 120 blocks take one side sector.
fn top_of(found: &Survey, entry: usize) -> u16
    requires told { (l : Layout) × IsSurveyOf l found.now }
    ensures { (l : Layout) → IsSurveyOf l found.now → IsTop l entry result }
{
    let outside = found.outside(entry);
    last_card(outside - (outside + 120) / 121)
}

/// Surveys a disk and finds its two files. Nothing is written.
pub(crate) fn find_files<D: Sectors>(disk: &mut D) -> Result<LedgerFiles, OpenFault>
    ensures ok { IfOk result (λ x. (f : Files) × AreFilesOf (D.history.image disk.old) f x) }
    ensures err { IfErr result (Refuses (Failed D.history disk.old disk.new) (D.history.image disk.old)) }
    ensures reads { OnlyReads D.history disk.old disk.new 3518 }
    ensures failures { TellsJudging D.history disk.old disk.new result }
{
    let found = survey_disk(disk)?;
    let Some(stock) = find_shop_file(disk, ShopFile::Stock)? else {
        return Err(OpenFault::NoStock);
    };
    let Some(requests) = find_shop_file(disk, ShopFile::Requests)? else {
        return Err(OpenFault::NoRequests);
    };
    let top = top_of(&found, stock.entry());
    Ok(LedgerFiles {
        stock,
        requests,
        top,
    })
}
