//! Pictures of a disk: which sector is whose, as a map for a terminal and as a page with a drawing. Damaged disks too.
#![tactic(auto)]

mod comparison;
mod drawing;
mod drawn_file;
mod files;
mod html;
mod laws;
mod map_printing;
mod map_tracks;
mod owners;
mod pages;
mod petscii;
mod reading;
mod sheets;
mod signs;
mod texts;
mod verdicts;
mod views;

pub use comparison::comparing::compare_images;
pub use comparison::comparison_laws::comparisons_show_what_differs;
pub use drawing::Drawing;
pub use drawn_file::DrawnFile;
pub use laws::{
    marks_tell_entries_apart, names_bring_no_markup, pages_have_683_sectors,
    sectors_are_drawn_once, sound_disks_are_drawn_as_laid_out, tiles_have_683_sectors,
};
pub use map_printing::map_image;
pub use owners::Owner;
pub use pages::missing_block::print_missing_block;
pub use pages::picture_printing::picture_image;
pub use pages::poster_printing::{poster_image, print_poster_end};
pub use sheets::sheet_printing::{
    MOST_TILES, sheet_begin, sheet_finish, sheet_refusal, sheet_tile,
};
pub use verdicts::{Verdict, judged};
pub use views::free_printing::free_image;
pub use views::missing::{error_lines, missing_lines};
pub use views::past_errors::entry_past;
pub use views::past_tracks::{blocks_past, sides_past};
pub use views::reading_errors::{ErrorNumber, entry_with};
pub use views::sector_printing::sector_image;
pub use views::trimming::{drawn_of, is_all_there, trim_image};
