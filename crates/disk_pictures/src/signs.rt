//! The marks of a map: of sectors, and of the entries whose lines stand below.
ghost use Rattle.std.specs.Prelude.{◌≡◌, ◌≤◌, Some};
ghost use Rattle.disk_pictures.specs.Held.{drawn_in};
ghost use Rattle.disk_pictures.specs.Maps.{cell_text, digit as digit_of, entry_mark, letter as letter_of, mark_of};
ghost use Rattle.disk_pictures.specs.Maps.{owner_mark, second_of};

use crate::drawing::Drawing;
use crate::owners::Owner;
use crate::texts::is_fault_at;
use d64_image::Place;
use disk_layout::{BamView, Fault};
use std::fmt::{self, Display, Formatter};

/// The letter of an entry among the 26 from this one on.
fn letter(first: u8, number: usize) -> char
    requires { first ≤ 100 }
    ensures { result ≡ letter_of first number }
{
    char::from(first + (number % 26) as u8)
}

/// The digit that stands after the letter of an entry if there are more than 26: how many entries before it have the
/// same letter.
fn digit(number: usize) -> char
    ensures { result ≡ digit_of number }
{
    char::from(b'0' + (number / 26 % 10) as u8)
}

/// The mark of a sector by its owner.
fn owner_sign(map: &[u8; 256], place: Place, owner: Owner) -> char
    ensures { result ≡ owner_mark map.now place owner }
{
    match owner {
        Owner::Map => '*',
        Owner::Directory => '=',
        Owner::Blocks(number) => letter(b'a', number),
        Owner::Sides(number) => letter(b'A', number),
        Owner::Nobody => {
            if BamView::new(map).is_free(place) {
                '.'
            } else {
                '?'
            }
        }
    }
}

/// The mark of a sector.
pub(crate) fn sign(found: Option<Fault>, drawing: &Drawing, place: Place) -> char
    ensures { result ≡ mark_of found drawing.now.map (drawn_in drawing.now) place }
{
    if is_fault_at(found, place) {
        return '!';
    }
    owner_sign(&drawing.map, place, drawing.owner(place))
}

/// What stands after the mark of a sector if there are more than 26 entries: its entry's digit, or the mark again.
fn second_sign(found: Option<Fault>, drawing: &Drawing, place: Place) -> char
    ensures { result ≡ second_of found drawing.now.map (drawn_in drawing.now) place }
{
    let at_fault = is_fault_at(found, place);
    if at_fault {
        return '!';
    }
    match drawing.owner(place) {
        Owner::Blocks(number) => digit(number),
        Owner::Sides(number) => digit(number),
        owner => owner_sign(&drawing.map, place, owner),
    }
}

/// A sector of a map of more than 26 entries: a blank and two characters.
#[derive(Clone, Copy)]
pub(crate) struct Cell<'a> {
    /// What a check reports.
    pub found: Option<Fault>,
    /// Whose each sector is.
    pub drawing: &'a Drawing,
    /// The sector.
    pub place: Place,
}

impl Display for Cell<'_> {
    ghost output = { λ cell. Some (cell_text cell.found cell.drawing.now.map (drawn_in cell.drawing.now) cell.place) };

    fn fmt<W: fmt::Write>(&self, f: &mut Formatter<W>) -> fmt::Result {
        let first = sign(self.found, self.drawing, self.place);
        let second = second_sign(self.found, self.drawing, self.place);
        write!(f, " {first}{second}")
    }
}

/// What the line of an entry begins with: its letter, and its digit if there are more than 26 entries.
#[derive(Clone, Copy)]
pub(crate) struct EntryMark {
    /// Whether there are more than 26 entries.
    pub wide: bool,
    /// The entry's number, from 0.
    pub number: usize,
}

impl Display for EntryMark {
    ghost output = { λ mark. Some (entry_mark mark.wide mark.number) };

    fn fmt<W: fmt::Write>(&self, f: &mut Formatter<W>) -> fmt::Result {
        let first = letter(b'a', self.number);
        if self.wide {
            write!(f, "{first}{}", digit(self.number))
        } else {
            write!(f, "{first}")
        }
    }
}
