//! An open session: the drive over a shop's disk, and what was read of it.
ghost use Rattle.std.specs.Prelude.{◌≡◌, ◌↔◌, IfOk, IsErr, false, option_map, true};
ghost use Rattle.d64_image.specs.Fuses.{fuse, fuse_disk, fuse_left, fuse_limit};
ghost use Rattle.host_session.specs.session.Standing.{IsStanding, View, view_code};
ghost use Rattle.host_session.specs.shop.Selecting.{IsReady};
ghost use Rattle.host_session.specs.shop.Shop.{IsSettled, IsShop, Shop};
ghost use Rattle.request_cards.specs.Tables.{told_of};

mod answers;
mod migration;
mod opening;
mod recovery;
mod requests;
mod settling;
mod starting;

use crate::shop::shop_drive::ShopDrive;
use d64_image::{Fuse, Sectors};
use drive_channels::Dead;
use request_cards::{Answer, Ledger, Request};
use std::marker::Model;

/// An open ledger: a shop on a disk.
///
/// The session also keeps in memory what the disk holds, so that a repeat, a refused request and a decision read no
/// sector. Once the device has failed the session is dead: it writes nothing any more, and the disk has to be opened
/// again.
pub struct Session<D: Sectors> {
    pub(crate) drive: ShopDrive<D>,
    /// Whether the device failed.
    pub(crate) dead: bool,
    /// What the disk holds.
    pub(crate) ledger: Ledger,
}

impl<D: Sectors> Model for Session<D> {
    ghost Value = { View D };

    ghost coded = { view_code D.code };

    ghost view = { λ s. record { disk = s.drive.disk; dead = s.dead } };

    ghost invariant = { λ s.
        IsStanding (D.history.image s.drive.disk) s.dead s.ledger
        × (s.dead ≡ false → IsReady D.history s.drive) };
}

impl<D: Sectors> Session<D> {
    /// The greatest item that a new card may have.
    pub fn top(&self) -> u16
        ensures { (s : Shop) → IsShop (D.history.image self.now.disk) s → result ≡ s.top }
    {
        self.ledger.top
    }

    /// How many tills the disk has: 0 to 64.
    pub fn tills(&self) -> u8
        ensures { (s : Shop) → IsShop (D.history.image self.now.disk) s → result ≡ s.tills }
    {
        self.ledger.tills
    }

    /// The disk, lent.
    pub fn disk(&self) -> &D
        ensures { result.now ≡ self.now.disk }
    {
        self.drive.disk()
    }

    /// The disk.
    pub fn close(self) -> D
        ensures { result ≡ self.disk }
    {
        let Session {
            drive,
            dead: _,
            ledger: _,
        } = self;
        drive.into_disk()
    }

    /// The same session on a disk whose power fails after this number of sector writes.
    pub(crate) fn fused(self, writes: u32) -> Session<Fuse<D>>
        ensures disk { fuse_disk result.disk ≡ self.disk }
        ensures limit { fuse_limit result.disk ≡ writes }
        ensures left { fuse_left result.disk ≡ writes }
        ensures failures { (fuse D.history).failures result.disk ≡ 0 }
        ensures dead { result.dead ≡ self.dead }
    {
        let Session {
            drive,
            dead,
            ledger,
        } = self;
        Session {
            drive: ShopDrive::power_on(Fuse::new(drive.into_disk(), writes)),
            dead,
            ledger,
        }
    }

    /// The quantity on hand of an item, if it has a card. Err if the session is dead.
    pub fn card(&self, item: u16) -> Result<Option<u32>, Dead>
        ensures ok { (s : Shop) → IsShop (D.history.image self.now.disk) s
            → IfOk result (λ q. q ≡ s.state.ledger.cards item) }
        ensures dead { IsErr result ↔ (self.now.dead ≡ true) }
    {
        if self.dead {
            return Err(Dead);
        }
        Ok(self.ledger.on_hand(item))
    }

    /// The last request of a till with its answer, if the till has one. Err if the session is dead.
    pub fn kept(&self, till: u8) -> Result<Option<(Request, Answer)>, Dead>
        ensures ok { (s : Shop) → IsShop (D.history.image self.now.disk) s
            → IfOk result (λ e. e ≡ option_map (told_of till) (s.state.ledger.kept till)) }
        ensures dead { IsErr result ↔ (self.now.dead ≡ true) }
    {
        if self.dead {
            return Err(Dead);
        }
        Ok(self.ledger.kept(till))
    }

    /// The request of a till before its last one with its answer, if the disk has it. Err if the session is dead.
    pub fn prior(&self, till: u8) -> Result<Option<(Request, Answer)>, Dead>
        ensures ok { (s : Shop) → IsShop (D.history.image self.now.disk) s
            → IfOk result (λ e. e ≡ option_map (told_of till) (s.state.prior till)) }
        ensures dead { IsErr result ↔ (self.now.dead ≡ true) }
    {
        if self.dead {
            return Err(Dead);
        }
        Ok(self.ledger.prior(till))
    }
}
