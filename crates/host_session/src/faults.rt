//! Why a disk isn't opened.
ghost use Rattle.std.specs.Prelude.{◌≡◌};

use disk_layout::Fault;
use thiserror::Error;

/// Why a disk isn't opened. If several faults hold, the first in this order is returned: `Layout`, `NoStock`,
/// `NoRequests`, `BadRequestCard`, `TwoIntents`, `BadCard`. With these nothing was written.
#[derive(Clone, Copy, Debug, PartialEq, Eq, Error)]
pub enum OpenFault {
    /// The disk isn't sound. Never `Fault::Device`.
    #[error("LAYOUT {0}")]
    Layout(Fault),
    /// There is no closed relative file STOCK, or the first one has records of another length than 18.
    #[error("NO STOCK")]
    NoStock,
    /// The same for REQUESTS and 127.
    #[error("NO REQUESTS")]
    NoRequests,
    /// The lowest record of STOCK that is neither empty nor the card of its item. The items of the open intent aren't
    /// checked.
    #[error("BAD CARD {0}")]
    BadCard(u16),
    /// The lowest till, up to 64, whose record of REQUESTS is neither empty nor a card, or is an open intent for an
    /// item that has no record in STOCK.
    #[error("BAD REQUEST CARD {0}")]
    BadRequestCard(u8),
    /// More than one intent is open.
    #[error("TWO INTENTS")]
    TwoIntents,
    /// The device failed.
    #[error("DEVICE")]
    Device,
}

impl OpenFault {
    ghost use Rattle.host_session.specs.session.Opening.{number_of};

    /// The fault's number: 1 Layout, 2 NoStock, 3 NoRequests, 4 BadCard, 5 BadRequestCard, 6 TwoIntents, 7 Device.
    pub fn number(self) -> u8
        ensures { result ≡ number_of self }
    {
        match self {
            OpenFault::Layout(_) => 1,
            OpenFault::NoStock => 2,
            OpenFault::NoRequests => 3,
            OpenFault::BadCard(_) => 4,
            OpenFault::BadRequestCard(_) => 5,
            OpenFault::TwoIntents => 6,
            OpenFault::Device => 7,
        }
    }
}
