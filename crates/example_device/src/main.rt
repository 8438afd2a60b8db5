//! A shop on a device of one's own: `NotchedDisk`.
#![tactic(auto)]

mod notched_disk;

use disk_layout::blank_image;
use host_session::Session;
use notched_disk::NotchedDisk;
use std::io;

/// Till 1 sets item 15 to 7, asks the same again, and issues 2.
const OPEN_NOTCH: [&[u8]; 3] = [b"1,1,S,15,7", b"1,1,S,15,7", b"1,2,I,15,2"];

/// It repeats its last request, and then issues 2 more.
const CLOSED_NOTCH: [&[u8]; 2] = [b"1,2,I,15,2", b"1,3,I,15,2"];

/// Prints the reply to each message.
fn print_replies(
    rt: &HostRuntime,
    session: &mut Session<NotchedDisk>,
    messages: &[&[u8]],
) -> io::Result<()> {
    for message in messages {
        session.handle(message).write_line(&mut rt.stdout())?;
    }
    Ok(())
}

/// Opens the shop on a disk, and prints the reply to each message, or why the disk was refused. The disk comes back.
fn ask(rt: &HostRuntime, disk: NotchedDisk, messages: &[&[u8]]) -> io::Result<NotchedDisk> {
    match Session::open(disk) {
        Ok(mut session) => {
            let printed = print_replies(rt, &mut session, messages);
            let disk = session.close();
            printed?;
            Ok(disk)
        }
        Err((fault, disk)) => {
            println!(rt; "{fault}")?;
            Ok(disk)
        }
    }
}

/// A disk with the shop's two files, for four tills.
fn blank_shop(rt: &HostRuntime) -> Option<NotchedDisk> {
    let mut disk = NotchedDisk::zeroed(rt.alloc()).ok()?;
    blank_image(&mut disk, b"STOCK LEDGER", *b"01", 4).ok()?;
    Some(disk)
}

fn main(rt: HostRuntime) -> io::Result<()> {
    let Some(disk) = blank_shop(&rt) else {
        return println!(rt; "no disk");
    };
    let disk = ask(&rt, disk, &OPEN_NOTCH)?;
    ask(&rt, disk.protected(), &CLOSED_NOTCH)?;
    Ok(())
}
