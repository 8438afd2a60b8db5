//! A change to the files of an image, as a function of the image's bytes: the image after it and what is printed, or why
//! it isn't made. Nothing is read or written.
#![tactic(auto)]

mod art;
mod changes;
mod changing;
mod copying;
mod cvts;
mod deleting;
mod emptying;
mod entry_types;
mod geos_putting;
mod judging;
mod laws;
mod lines;
mod locking;
mod making;
mod mended;
mod outcomes;
mod putting;
mod rebuilding;
mod remedies;
mod renaming;
mod repairing;
mod rewriting;
mod shop_files;
mod sorting;
mod storing;
mod titling;
mod undeleting;

pub use changes::{Change, ChangeKind, Changed, Columns, Lock, Unowned};
pub use changing::change;
pub use cvts::cvt_content;
pub use entry_types::EntryType;
pub use laws::{
    columns_come_back, last_lines_count, printed_records_are_stored, records_come_back,
    repairs_print_the_same, shown_records_come_back, sound_disks_have_no_art,
    stored_again_is_quiet, stored_records_are_so, typed_records_read_so,
};
pub use lines::column_lines::plain_lines;
pub use lines::record_storing::store_image;
pub use mended::kinds::has_geos_sign;
pub use mended::mending::repair_image;
pub use mended::rebuilding::rebuild_image;
pub use remedies::{Remedy, Way, find_remedy};
pub use shop_files::has_shop_file;
