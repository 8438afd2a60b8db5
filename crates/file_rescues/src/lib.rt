//! What is read out of the files of a disk: records as lines, bytes, and all that can be rescued.
#![tactic(auto)]

mod byte_printing;
mod chains;
mod file_printing;
mod finding;
mod forms;
mod line_printing;
mod long_bytes;
mod long_files;
mod long_finding;
mod long_records;
mod piece_printing;
mod programs;
mod record_printing;
// What can be rescued of the files of a disk, written to a folder that is new.
mod rescue;
mod unclosed_records;
mod whole_files;

pub use chains::{print_bytes, read_file};
pub use finding::{Candidates, length_of_records};
pub use forms::{ByteForm, ColumnForm, FileForm, RecordForm};
pub use long_bytes::bytes_image;
pub use long_records::file_records_image;
pub use piece_printing::print_pieces;
pub use record_printing::records_image;
pub use rescue::art::is_art;
pub use rescue::choices::Choice;
pub use rescue::deleted::{deleted_of, is_deleted};
pub use rescue::extracting::extract_image;
pub use rescue::folders::NewFolder;
pub use rescue::laws::names_stay_inside;
pub use rescue::mem_folder::{MemFile, MemFolder};
pub use rescue::rescuing::Rescued;
pub use rescue::rows::Row;
pub use unclosed_records::unclosed_records_image;
pub use whole_files::whole_file;
