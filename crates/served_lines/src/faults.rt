//! Why a service ends before its input does.
ghost use Rattle.std.specs.Prelude.{◌≡◌};
ghost use Rattle.served_lines.specs.declared.faults.ServiceFault.TheVariants.{Host as OfHost};

use host_session::OpenFault;
use one_host::Failure;

/// Why a service ended before its input did.
#[derive(Clone, Copy, Debug)]
pub enum ServiceFault {
    /// The disk has no shop. Nothing was read, written or printed.
    Open(OpenFault),
    /// A call of the host failed.
    Host(Failure),
    /// The log has no room for one more commit.
    Full,
    /// Standard output took nothing, and said no reason.
    NotTaken,
    /// 2^64 - 1 batches were served.
    TooMany,
}

impl From<Failure> for ServiceFault {
    ghost from_gives = { λ e fault. fault ≡ OfHost e };

    fn from(failure: Failure) -> ServiceFault {
        ServiceFault::Host(failure)
    }
}
