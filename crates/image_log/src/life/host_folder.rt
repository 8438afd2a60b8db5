//! The open file of an image, and the names of its log.
ghost use Rattle.std.specs.Prelude.{string_bytes};
ghost use Rattle.std.proofs.Props.{props};
ghost use Rattle.image_log.specs.life.LogRights.{MayKeepLogOf};

use crate::life::log_names::LogNames;
use image_file::HostFiles;

/// An image's open file, and the names of its log beside it. What stands there, the host says.
#[derive(Drop)]
pub struct HostFolder<'a, R: HostFiles> {
    /// The host.
    pub rt: &'a R,
    /// The names.
    pub names: &'a LogNames,
    /// The file of IMAGE.
    pub image: R::File,
    // the log may be kept
    ghost keeps: { MayKeepLogOf R.rights rt.now (string_bytes names.now.image) } by { Prim.hlevel props },
}
