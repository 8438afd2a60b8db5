//! The lines that are shown of a shop.
ghost use Rattle.std.specs.Prelude.{◌≡◌, ◌≤◌, ◌+◌, ◌++◌, IfErr, OnOk, Some, decimal, drop, length};
ghost use Rattle.std.specs.Io.KnownBytes.{Appends};
ghost use Rattle.shop_commands.specs.Shows.{card_line, card_part, told_line, told_part, till_part, top_line};
ghost use Rattle.command_faults.specs.declared.faults.CommandFault.TheVariants as faults;
ghost use Rattle.request_cards.specs.Texts.{answer_text};

use command_faults::{CommandFault, print_line, put};
use itoa::write_digits;
use request_cards::{Answer, Request, write_before};
use std::fmt::{self, Display, Formatter};
use std::io::Write;

/// An answer as it is printed.
#[derive(Clone, Copy)]
struct AnswerText(Answer);

impl Display for AnswerText {
    ghost output = { λ text. Some (answer_text text.0) };

    fn fmt<W: fmt::Write>(&self, f: &mut Formatter<W>) -> fmt::Result {
        match self.0 {
            Answer::Done(quantity) => write!(f, "DONE,{quantity}"),
            Answer::Moved(quantity, to_quantity) => write!(f, "DONE,{quantity},{to_quantity}"),
            Answer::Short(quantity) => write!(f, "SHORT,{quantity}"),
            Answer::Over(quantity) => write!(f, "OVER,{quantity}"),
            Answer::NoCard => f.write_str("NO CARD"),
            Answer::DiskFull => f.write_str("72,DISK FULL"),
            Answer::TooLarge => f.write_str("52,FILE TOO LARGE"),
        }
    }
}

/// Prints how far new cards may go.
pub(crate) fn print_top<W: Write>(out: &mut W, top: u16) -> Result<(), CommandFault>
    ensures ok { OnOk result (Appends (W.contents out.old) (W.contents out.new) (top_line top)) }
    ensures err { IfErr result (λ fault. fault ≡ faults.File) }
{
    if writeln!(out, "TOP {top}").is_err() {
        return Err(CommandFault::File);
    }
    Ok(())
}

/// Writes the number after this text, so that it ends at `end`, and returns where the text starts.
fn write_behind(text: &[u8], n: u32, room: &mut [u8], end: usize) -> usize
    requires fits { (length text.now + length (decimal n) ≤ end) × (end ≤ length room.old) }
    ensures start { result + length text.now + length (decimal n) ≡ end }
    ensures written { drop result room.new ≡ text.now ++ (decimal n ++ drop end room.old) }
{
    let number = write_digits(u64::from(n), room, end);
    write_before(text, room, number)
}

/// Writes an item's line, 24 bytes at most, so that it ends at `end`, and returns where it starts. A disk has thousands
/// of them, so they are made by hand, from the last to the first, and printed many at a time.
#[tactic(auto, using(request_cards::proofs::Texts::number_length))]
fn write_card(item: u16, quantity: u32, room: &mut [u8], end: usize) -> usize
    requires { (24 ≤ end) × (end ≤ length room.old) }
    ensures low { end ≤ result + 24 }
    ensures high { result ≤ end }
    ensures written { drop result room.new ≡ card_line item quantity ++ drop end room.old }
{
    let start = write_before(b"\n", room, end);
    let start = write_behind(b",", quantity, room, start);
    write_behind(b"CARD ", u32::from(item), room, start)
}

/// Writes the item's line as `write_card` does if the item has a card; otherwise nothing is written.
pub(crate) fn write_item(item: u16, quantity: Option<u32>, room: &mut [u8], end: usize) -> usize
    requires { (24 ≤ end) × (end ≤ length room.old) }
    ensures low { end ≤ result + 24 }
    ensures high { result ≤ end }
    ensures written { drop result room.new ≡ card_part item quantity ++ drop end room.old }
{
    match quantity {
        Some(quantity) => write_card(item, quantity, room, end),
        None => end,
    }
}

/// Prints a request and its answer after a word.
fn print_line_of<W: Write>(
    out: &mut W,
    word: &[u8],
    request: Request,
    answer: Answer,
) -> Result<(), CommandFault>
    ensures ok { OnOk result
        (Appends (W.contents out.old) (W.contents out.new) (told_line word.now request answer)) }
    ensures err { IfErr result (λ fault. fault ≡ faults.File) }
{
    put(out, word)?;
    put(out, request.print().as_slice())?;
    put(out, b",")?;
    print_line(out, AnswerText(answer))
}

/// Prints the line of a request, if there is one.
fn print_told<W: Write>(
    out: &mut W,
    word: &[u8],
    told: Option<(Request, Answer)>,
) -> Result<(), CommandFault>
    ensures ok { OnOk result (Appends (W.contents out.old) (W.contents out.new) (told_part word.now told)) }
    ensures err { IfErr result (λ fault. fault ≡ faults.File) }
{
    match told {
        Some((request, answer)) => print_line_of(out, word, request, answer),
        None => Ok(()),
    }
}

/// Prints a till's last request and the one before it, each with its answer, as far as there are such.
pub(crate) fn print_till<W: Write>(
    out: &mut W,
    kept: Option<(Request, Answer)>,
    prior: Option<(Request, Answer)>,
) -> Result<(), CommandFault>
    ensures ok { OnOk result (Appends (W.contents out.old) (W.contents out.new) (till_part kept prior)) }
    ensures err { IfErr result (λ fault. fault ≡ faults.File) }
{
    print_told(out, b"TILL ", kept)?;
    print_told(out, b"PRIOR ", prior)
}
