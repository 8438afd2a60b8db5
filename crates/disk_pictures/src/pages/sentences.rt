//! What a check found, as a sentence.
ghost use Rattle.std.specs.Prelude.{◌≡◌, Some};
ghost use Rattle.disk_pictures.specs.Held.{drawn_in};
ghost use Rattle.disk_pictures.specs.Html.{html_of};
ghost use Rattle.disk_pictures.specs.Sentences.{also_text, entry_named, fault_sentence, owner_named, sentence_text};
ghost use Rattle.disk_pictures.specs.Sentences.{shared_text, sound_text, summary_text, words_after, words_before};

use crate::drawing::Drawing;
use crate::html::Html;
use crate::owners::Owner;
use crate::pages::arcs::PlaceText;
use crate::pages::sharing::{Two, two_owners};
use crate::verdicts::Verdict;
use d64_image::Place;
use damaged_files::entry_name;
use disk_layout::{BamView, Fault};
use std::fmt::{self, Display, Formatter};

/// What is said of a fault before and after its place.
fn words_about(fault: Fault) -> (&'static str, &'static str)
    ensures begin { result.0.now ≡ words_before fault }
    ensures end { result.1.now ≡ words_after fault }
{
    match fault {
        Fault::BadLink(_) => ("A link in sector ", " leads nowhere; "),
        Fault::Loop(_) => ("A chain of sectors comes back to sector ", "; "),
        Fault::OwnedTwice(_) => ("Sector ", " has more than one owner; "),
        Fault::BadType(_) => ("An entry in sector ", " has an unknown type; "),
        Fault::Unclosed(_) => ("A file with its entry in sector ", " was never closed; "),
        Fault::BadSide(_) => ("A relative file's side sectors are wrong at sector ", "; "),
        Fault::BadLength(_) => ("An entry in sector ", " has a record length of 0 or 255; "),
        Fault::CountWrong(_) => ("An entry in sector ", " has a wrong block count; "),
        Fault::MapWrong(_) => ("The map of free sectors is wrong at sector ", "; "),
        Fault::Device(_) => ("Reading failed at sector ", "; "),
    }
}

/// The name of the entry with this number, if there is one.
#[derive(Clone, Copy)]
struct EntryNamed<'a> {
    drawing: &'a Drawing,
    number: usize,
}

impl Display for EntryNamed<'_> {
    ghost output = { λ named. Some (entry_named html_of (drawn_in named.drawing.now) named.number) };

    fn fmt<W: fmt::Write>(&self, f: &mut Formatter<W>) -> fmt::Result {
        match self.drawing.files.as_slice().get(self.number) {
            Some(file) => write!(f, "{}", Html(entry_name(&file.slot))),
            None => Ok(()),
        }
    }
}

/// An owner as a sentence names it.
#[derive(Clone, Copy)]
struct OwnerNamed<'a> {
    drawing: &'a Drawing,
    owner: Owner,
}

impl Display for OwnerNamed<'_> {
    ghost output = { λ named. Some (owner_named html_of (drawn_in named.drawing.now) named.owner) };

    fn fmt<W: fmt::Write>(&self, f: &mut Formatter<W>) -> fmt::Result {
        let drawing = self.drawing;
        match self.owner {
            Owner::Map => f.write_str("the map"),
            Owner::Directory => f.write_str("the directory"),
            Owner::Blocks(number) => write!(f, "{}", EntryNamed { drawing, number }),
            Owner::Sides(number) => {
                write!(f, "the side sectors of {}", EntryNamed { drawing, number })
            }
            Owner::Nobody => Ok(()),
        }
    }
}

/// What is said of a sector that several have: who the first two are.
#[derive(Clone, Copy)]
struct Shared<'a> {
    drawing: &'a Drawing,
    place: Place,
    two: Two,
}

impl Display for Shared<'_> {
    ghost output = { λ said. Some (shared_text html_of (drawn_in said.drawing.now) said.place said.two.first
        said.two.second) };

    fn fmt<W: fmt::Write>(&self, f: &mut Formatter<W>) -> fmt::Result {
        let drawing = self.drawing;
        let place = PlaceText(self.place);
        match (self.two.first, self.two.second) {
            (Some(first), Some(second)) => write!(
                f,
                "Sector {place} belongs to {} and to {}; ",
                OwnerNamed {
                    drawing,
                    owner: first
                },
                OwnerNamed {
                    drawing,
                    owner: second
                }
            ),
            _ => write!(f, "Sector {place} has more than one owner; "),
        }
    }
}

/// What is said of a disk without a fault: where its first file is cut short, if one is.
#[derive(Clone, Copy)]
struct Sound(Option<Place>);

impl Display for Sound {
    ghost output = { λ said. Some (sound_text said.0) };

    fn fmt<W: fmt::Write>(&self, f: &mut Formatter<W>) -> fmt::Result {
        match self.0 {
            None => f.write_str("Sound: "),
            Some(place) => write!(f, "A file is cut short at sector {}; ", PlaceText(place)),
        }
    }
}

/// What is said of a fault.
#[derive(Clone, Copy)]
struct FaultSentence<'a> {
    drawing: &'a Drawing,
    fault: Fault,
}

impl Display for FaultSentence<'_> {
    ghost output = { λ said. Some (fault_sentence html_of (drawn_in said.drawing.now) said.fault) };

    fn fmt<W: fmt::Write>(&self, f: &mut Formatter<W>) -> fmt::Result {
        match self.fault {
            Fault::OwnedTwice(place) => {
                let drawing = self.drawing;
                let two = two_owners(drawing, place);
                write!(
                    f,
                    "{}",
                    Shared {
                        drawing,
                        place,
                        two
                    }
                )
            }
            fault => {
                let (begin, end) = words_about(fault);
                write!(f, "{begin}{}{end}", PlaceText(fault.place()))
            }
        }
    }
}

/// What is said after a fault: where the first file is cut short, if one is.
#[derive(Clone, Copy)]
struct Also(Option<Place>);

impl Display for Also {
    ghost output = { λ said. Some (also_text said.0) };

    fn fmt<W: fmt::Write>(&self, f: &mut Formatter<W>) -> fmt::Result {
        match self.0 {
            None => Ok(()),
            Some(place) => write!(f, "a file is cut short at sector {}; ", PlaceText(place)),
        }
    }
}

/// What a verdict says, as the beginning of a sentence.
#[derive(Clone, Copy)]
struct Sentence<'a> {
    drawing: &'a Drawing,
    verdict: Verdict,
}

impl Display for Sentence<'_> {
    ghost output = { λ said. Some (sentence_text html_of (drawn_in said.drawing.now) said.verdict.found
        said.verdict.cut) };

    fn fmt<W: fmt::Write>(&self, f: &mut Formatter<W>) -> fmt::Result {
        let (drawing, cut) = (self.drawing, self.verdict.cut);
        match self.verdict.found {
            None => write!(f, "{}", Sound(cut)),
            Some(fault) => write!(f, "{}{}", FaultSentence { drawing, fault }, Also(cut)),
        }
    }
}

/// What a verdict says, the number of files, and the number of free blocks, as a sentence.
#[derive(Clone, Copy)]
pub(crate) struct Summary<'a> {
    /// What is drawn.
    pub drawing: &'a Drawing,
    /// What is reported of it.
    pub verdict: Verdict,
}

impl Display for Summary<'_> {
    ghost output = { λ said. Some (summary_text html_of said.verdict said.drawing.now.map
        (drawn_in said.drawing.now)) };

    fn fmt<W: fmt::Write>(&self, f: &mut Formatter<W>) -> fmt::Result {
        let drawing = self.drawing;
        let sentence = Sentence {
            drawing,
            verdict: self.verdict,
        };
        let files = drawing.files.as_slice().len();
        let free = BamView::new(&drawing.map).blocks_free();
        write!(f, "{sentence}{files} files, {free} of 664 blocks free")
    }
}
