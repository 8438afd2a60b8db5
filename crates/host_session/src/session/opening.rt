//! A disk opened: checked, repaired, and brought to rest.
ghost use Rattle.host_session.specs.session.Opened.{IsOpened};

use crate::faults::OpenFault;
use crate::session::Session;
use crate::session::settling::settle;
use crate::shop::judgment::{LoadedShop, load_shop};
use d64_image::Sectors;

impl<D: Sectors> Session<D> {
    /// Opens a disk.
    ///
    /// The disk is first read and checked. If it is no shop's, nothing is written: the first fault in the order of
    /// `OpenFault` is returned with the disk. A shop's disk is repaired. An open intent is completed, its cards first
    /// and then its answer. Each card of version 1 of a till up to 64 is written again as version 2. If power fails on
    /// the way, the disk is the same shop's, and opening it again goes on from there.
    ///
    /// `Device` is returned if the device failed, perhaps after writes.
    ///
    /// The session takes 86 kB. docs/EMBED.md says how much stack an opening takes: no clause counts it.
    pub fn open(disk: D) -> Result<Session<D>, (OpenFault, D)>
        ensures { IsOpened D.history disk result }
    {
        let mut disk = disk;
        let mut found = LoadedShop::nothing();
        if let Err(fault) = load_shop(&mut disk, &mut found) {
            return Err((fault, disk));
        }
        let drive = settle(disk, &mut found)?;
        Ok(Session {
            drive,
            dead: false,
            ledger: found.ledger,
        })
    }
}
