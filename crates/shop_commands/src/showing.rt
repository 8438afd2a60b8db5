//! What an image holds of a shop, as it is printed.
ghost use Rattle.std.specs.Prelude.{◌≡◌, ◌≢◌, ◌+◌, ◌++◌, ◌≤◌, IfErr, IfOk, OnOk, drop, false, length};
ghost use Rattle.std.specs.Io.KnownBytes.{Appends};
ghost use Rattle.host_session.specs.shop.Shop.{IsShop, Shop};
ghost use Rattle.shop_commands.specs.Shops.{IsShowFault, IsShown};
ghost use Rattle.shop_commands.specs.Shows.{card_lines, cards_to, shown_shop, till_lines};
ghost use Rattle.command_faults.specs.declared.faults.CommandFault.TheVariants as faults;

use crate::faults::of_opening;
use crate::shows::{print_till, print_top, write_item};
use command_faults::{CommandFault, flush, load, put};
use d64_image::Sectors;
use host_session::Session;
use std::alloc::Global;
use std::io::Write;

/// How many items' lines are printed at once. The last record that a file can have, and so the last item that can have
/// a card, is 10160, the 127th time.
const AT_ONCE: u16 = 80;

/// How often that is done.
const TIMES: u16 = 127;

/// How many bytes so many lines have at most.
const LINES: usize = 1920;

/// How many tills a disk has at most.
const MOST_TILLS: u8 = 64;

/// Writes the lines of the 80 items after this one so that they end where the room does, and returns where they start.
fn write_cards<D: Sectors>(
    session: &Session<D>,
    before: u16,
    room: &mut [u8; LINES],
) -> Result<usize, CommandFault>
    requires alive { session.now.dead ≡ false }
    requires few { before + 80 ≤ 10160 }
    ensures ok { (s : Shop) → IsShop (D.history.image session.now.disk) s
        → IfOk result (λ start. cards_to s.state before ++ drop start room.new ≡ cards_to s.state (before + 80)) }
    ensures within { IfOk result (λ start. start ≤ 1920) }
    ensures long { length room.new ≡ 1920 }
    ensures err { IfErr result (λ fault. fault ≡ faults.File) }
{
    let mut start = LINES;
    for written in 0..AT_ONCE {
        let item = before + AT_ONCE - written;
        let Ok(quantity) = session.card(item) else {
            return Err(CommandFault::Device);
        };
        start = write_item(item, quantity, room, start);
    }
    Ok(start)
}

/// Prints the cards of the shop, in the order of the items.
fn print_cards<D: Sectors, W: Write>(session: &Session<D>, out: &mut W) -> Result<(), CommandFault>
    requires alive { session.now.dead ≡ false }
    ensures ok { (s : Shop) → IsShop (D.history.image session.now.disk) s
        → OnOk result (Appends (W.contents out.old) (W.contents out.new) (card_lines s.state)) }
    ensures err { IfErr result (λ fault. fault ≡ faults.File) }
{
    let mut room = [0; LINES];
    for time in 0..TIMES {
        let start = write_cards(session, AT_ONCE * time, &mut room)?;
        put(out, &room[start..])?;
    }
    Ok(())
}

/// Prints the last two requests of each till, in the order of the tills.
fn print_tills<D: Sectors, W: Write>(session: &Session<D>, out: &mut W) -> Result<(), CommandFault>
    requires alive { session.now.dead ≡ false }
    ensures ok { (s : Shop) → IsShop (D.history.image session.now.disk) s
        → OnOk result (Appends (W.contents out.old) (W.contents out.new) (till_lines s.state)) }
    ensures err { IfErr result (λ fault. fault ≡ faults.File) }
{
    for before in 0..MOST_TILLS {
        let till = before + 1;
        let (Ok(kept), Ok(prior)) = (session.kept(till), session.prior(till)) else {
            return Err(CommandFault::Device);
        };
        print_till(out, kept, prior)?;
    }
    Ok(())
}

/// Prints all that is shown of an open shop, and hands it over. `File` if the output failed.
pub(crate) fn print_shop<D: Sectors, W: Write>(
    session: &Session<D>,
    out: &mut W,
) -> Result<(), CommandFault>
    requires alive { session.now.dead ≡ false }
    ensures ok { (s : Shop) → IsShop (D.history.image session.now.disk) s
        → OnOk result (Appends (W.contents out.old) (W.contents out.new) (shown_shop s.top s.state)) }
    ensures err { IfErr result (λ fault. fault ≡ faults.File) }
{
    print_top(out, session.top())?;
    print_cards(session, out)?;
    print_tills(session, out)?;
    flush(out)
}

/// Prints what an image holds of a shop: how far new cards may go, and the cards in the order of the items. Then by till
/// the last request and the one before it, with their answers. A copy of the image is opened in memory, in which an open
/// intent is completed. The image isn't written.
///
/// `ImageSize` if it hasn't the size of a disk. If it isn't a shop's, the first of these that holds: `Layout`, `NoStock`,
/// `NoRequests`, `BadRequestCard`, `TwoIntents`, `BadCard`. `NoMemory` if there was none for the copy. `File` if the
/// output failed, which may then have a part.
// Out of line: a session is large, and a frame that has its room touches each page of it.
#[inline(never)]
pub fn show_image<W: Write>(alloc: Global, image: &[u8], out: &mut W) -> Result<(), CommandFault>
    // What is shown is the shop that the image is, at rest.
    ensures ok { OnOk result (IsShown W.contents image.now out.old out.new) }
    // What is reported holds, and a shop is refused only for memory or the output.
    ensures err { IfErr result (IsShowFault image.now) }
    // At a refusal something was printed only if the output failed.
    ensures untouched { IfErr result (λ fault. (fault ≢ faults.File) → out.new ≡ out.old) }
{
    let disk = load(alloc, image)?;
    match Session::open(disk) {
        Ok(session) => {
            let shown = print_shop(&session, out);
            let _ = session.close();
            shown
        }
        Err((fault, _)) => Err(of_opening(fault)),
    }
}
