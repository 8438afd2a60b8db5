//! Looks at images: what is printed of one, of several, what can be done for them, and what is taken out.
#![tactic(auto)]

mod comparisons;
mod descriptions;
mod each_image;
mod extracting;
mod kinds;
mod looks;
mod new_folders;
mod objects;
mod overviews;
mod plans;
mod reporting;
mod sheets;
mod wider_maps;

pub use comparisons::{comparing_run, do_comparing};
pub use descriptions::{ImageForm, do_describing};
pub use extracting::{do_extracting, extract_run};
pub use kinds::{DiskLook, Look};
pub use looks::{do_look, look};
pub use new_folders::FolderPlace;
pub use objects::ImageObject;
pub use overviews::{do_several, overview_run};
pub use sheets::do_sheet;
