//! What the program can be asked to do.

use disk_changes::ChangeKind;
use file_changes::Name;
use file_rescues::Choice;
use image_edits::Effect;
use image_looks::{ImageForm, Look};
use opened_files::Loss;

/// What the words of a command line ask for.
#[derive(Drop)]
pub enum Job<'a> {
    /// The image of an empty shop, in place of whatever the file held.
    Format {
        /// The image's path.
        image: &'a str,
        /// How many tills the shop has, 1 to 64. The caller that makes a job ensures that.
        tills: u8,
    },
    /// The image of an empty shop, in a file that isn't there yet.
    FormatNew {
        /// The image's path.
        image: &'a str,
        /// How many tills the shop has, 1 to 64. The caller that makes a job ensures that.
        tills: u8,
    },
    /// The image of an empty disk, in a file that isn't there yet.
    New {
        /// The image's path.
        image: &'a str,
        /// The name of the disk, 0 to 16 bytes. The caller that makes a job ensures that.
        name: Name,
        /// The two bytes of the disk's ID.
        id: [u8; 2],
    },
    /// What is printed of an image that is read.
    Look {
        /// The image's path.
        image: &'a str,
        /// What is printed.
        what: Look,
    },
    /// The messages of a script, played on the shop of an image, which is synced at the end.
    Play {
        /// The image's path.
        image: &'a str,
        /// The script's path.
        script: &'a str,
        /// What is done if the image has lost its log.
        loss: Loss,
    },
    /// The messages of a script, played as `Play` does; but each goes to a log beside the image, whose image is copied
    /// into IMAGE at the end.
    PlayLogged {
        /// The image's path.
        image: &'a str,
        /// The script's path.
        script: &'a str,
        /// What is done if the image has lost its log.
        loss: Loss,
    },
    /// The replies to the messages of a script, from no cards on and without a disk.
    Dry {
        /// The script's path.
        script: &'a str,
    },
    /// The requests that come on standard input, line by line, to the shop of an image. Each goes to a log beside the
    /// image, which other jobs read meanwhile, and whose image is copied into IMAGE at the end.
    Serve {
        /// The image's path.
        image: &'a str,
        /// What is done if the disk has lost a part of a file.
        loss: Loss,
    },
    /// An image of its own that holds what the shop of an image is now, in a file that isn't there yet.
    Copy {
        /// The image's path.
        image: &'a str,
        /// The copy's path.
        copy: &'a str,
    },
    /// An image of its own that holds what the whole commits of a log stand for, in a file that isn't there yet. No image is
    /// read.
    Salvage {
        /// The log's path.
        log: &'a str,
        /// The copy's path.
        copy: &'a str,
    },
    /// All files of an image that is read, made in a folder that isn't there yet.
    Extract {
        /// Which entries are taken out.
        choice: Choice,
        /// The image's path.
        image: &'a str,
        /// The folder's path.
        folder: &'a str,
    },
    /// The files of an image, changed.
    Change {
        /// The image's path.
        image: &'a str,
        /// Whether the image is written.
        effect: Effect,
        /// What is done if the disk has lost a part of a file, or the image its log.
        loss: Loss,
        /// How they are changed.
        kind: ChangeKind<'a>,
    },
    /// Tracks 1 to 35 of an image that may have more, or error bytes.
    Trim {
        /// The image's path.
        image: &'a str,
    },
    /// Images that are read, drawn on a contact sheet in their order.
    Sheet {
        /// The images' paths.
        images: Vec<&'a str>,
    },
    /// Images that are read, in their order, each described in a line of its own.
    Describe {
        /// How they are described.
        form: ImageForm,
        /// The images' paths.
        images: Vec<&'a str>,
    },
    /// Two images that are read, compared: the second one is drawn, with what differs from the first one.
    Compare {
        /// The first image's path.
        before: &'a str,
        /// The second image's path.
        after: &'a str,
    },
    /// Several images that are read, in their order. What is printed of each, and why it is refused, stands after its
    /// name.
    Several {
        /// What is printed of each.
        what: Look,
        /// The images' paths.
        images: Vec<&'a str>,
    },
}
