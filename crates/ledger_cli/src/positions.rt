//! The columns that the words ask for.
ghost use Rattle.std.specs.Prelude.{◌≡◌, ◌≤◌, ◌++◌, ◌∷◌, [], ℕ, List, IfSome, IsFalse, IsNone, IsTrue, length};
ghost use Rattle.clap.specs.Words.{found_of, rows_of};
ghost use Rattle.line_text.specs.columns.Positions.{starts};
ghost use Rattle.ledger_cli.specs.Positions.{AreAsked, AreListed};

use crate::faults::JobFault;
use crate::values::{is_given, optional_value};
use arrayvec::ArrayVec;
use clap::ArgMatches;
use file_rescues::ColumnForm;
use line_text::{MOST_PIECES, Positions, number, number_before_comma};

/// Appends a position, or returns that there are 32 already.
fn push_start(list: &mut ArrayVec<u8, MOST_PIECES>, start: u32) -> bool
    requires { start ≤ 254 }
    ensures done { IsTrue result → list.new.items ≡ list.old.items ++ start ∷ [] }
    ensures full { IsFalse result → 32 ≤ length list.old.items }
{
    list.try_push(start as u8).is_ok()
}

/// The positions that a text lists, with a comma between two.
fn positions_of(text: &str) -> Option<Positions>
    ensures found { IfSome result (λ positions. AreListed text.now (starts positions)) }
    ensures none { IsNone result → (ps : List ℕ) → ¬ (AreListed text.now ps) }
{
    let mut list: ArrayVec<u8, MOST_PIECES> = ArrayVec::new();
    let mut rest = text.as_bytes();
    while let Some((start, behind)) = number_before_comma(rest, 1, 254) {
        if !push_start(&mut list, start) {
            return None;
        }
        rest = behind;
    }
    let Some(last) = number(rest, 1, 254) else {
        return None;
    };
    if !push_start(&mut list, last) {
        return None;
    }
    Positions::new(list.as_slice())
}

/// The columns that are asked for, if any are.
pub(crate) fn columns_asked<'a>(matches: &ArgMatches<'a>) -> Result<Option<ColumnForm>, JobFault>
    ensures { AreAsked (rows_of (found_of matches.now)) result }
{
    let fields = is_given(matches, "fields");
    let Some(text) = optional_value(matches, "POSITIONS") else {
        return Ok(if fields {
            Some(ColumnForm::Fields)
        } else {
            None
        });
    };
    if fields {
        return Err(JobFault::Flags);
    }
    match positions_of(text) {
        Some(positions) => Ok(Some(ColumnForm::At(positions))),
        None => Err(JobFault::Positions),
    }
}
