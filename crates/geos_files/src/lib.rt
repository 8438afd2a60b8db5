//! Files of GEOS: which entries are theirs, what their types are called, the blocks that their records reach, and how a file begins that is written as CVT.
#![tactic(auto)]

mod chains;
mod entries;
mod headers;
mod long_files;
mod reaching;
mod records;
mod types;

pub use entries::{GeosEntry, geos_entry};
pub use headers::cvt_signature;
pub use long_files::{find_long_geos, is_in_long_geos};
pub use reaching::reach_geos;
pub use types::{geos_type_name, structure_name};
