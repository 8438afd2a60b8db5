//! A disk's image in a file, and the files of the host: what may be done with each, how an image is written over one,
//! and why a call failed.
#![tactic(auto)]

mod durability;
mod inputs;
mod locks;
// Files of a runtime that keep why a call of theirs failed, for the line that a person reads.
mod noted;
// The files of a host, by their paths: what may be done with each, which are opened, and whether they are still there.
mod paths;
mod reading;
mod remaining;
// An image that is written over a file.
mod replacing;
mod sectors;
mod shown_paths;
mod streams;

pub use durability::WritesAt;
pub use inputs::HostInput;
pub use locks::Locks;
pub use noted::failures::{Failure, Failures};
pub use noted::limits::LimitedErrors;
pub use noted::noted_file::NotedFile;
pub use noted::noted_reader::NotedReader;
pub use noted::noted_runtime::NotedRuntime;
pub use noted::subjects::Subject;
pub use paths::host::{HostFiles, PlainFiles};
pub use paths::names::{FileName, Identity, NameStays, leads_to};
pub use paths::opening::{opened_to_change, opened_to_read, regular, regular_at};
pub use paths::system::SystemFiles;
pub use reading::{MOST_SCRIPT, read_image, read_script};
pub use remaining::{EndedFile, private_mode};
pub use replacing::{DIRECTORY_END, DIRECTORY_START, SPOILED_DIRECTORY, replace_image};
pub use sectors::ImageFile;
pub use shown_paths::ShownPath;
pub use streams::ClosedStreams;
