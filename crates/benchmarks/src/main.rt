//! Does one work so many times over, so that it can be timed: `benchmarks WORD ROUNDS IMAGE`. Each word prints one
//! number, from which no round can be left out. If there is no word, each benchmark is run for a few rounds.
#![tactic(auto)]

mod checks;
mod disks;
mod drives;
mod found;
mod records;
mod requests;
mod sectors;

use checks::count_clean;
use d64_image::MemDisk;
use disks::{blank, zeroed};
use drive_channels::Drive;
use found::{Found, or_say};
use std::process::ExitCode;
use std::{env, fs, io};

/// How many rounds there are if no word says it.
const ROUNDS: u64 = 1000;

/// The words of all benchmarks.
const WORDS: [&str; 8] = [
    "sectors", "check", "growth", "reads", "writes", "drive", "requests", "openings",
];

/// Rounds of a benchmark and the number that they give. Err is a text that says what failed.
type Done = Found<u64>;

/// The rounds that a word asks for; None if it is no number of at most 64 bits.
fn asked_rounds(word: Option<String>) -> Option<u64> {
    match word {
        Some(word) => word.as_str().parse().ok(),
        None => Some(ROUNDS),
    }
}

/// The disk of an image file.
fn disk_of(rt: &HostRuntime, path: &str) -> Found<MemDisk> {
    match fs::read(rt, path) {
        Ok(bytes) => or_say(
            MemDisk::load(rt.alloc(), bytes.as_slice()),
            "the image has another size, or no memory",
        ),
        Err(_) => Err("the image is not readable"),
    }
}

/// The disk of the image file that is named; if none is, the blank disk for two tills.
fn asked_disk(rt: &HostRuntime, path: Option<String>) -> Found<MemDisk> {
    match path {
        Some(path) => disk_of(rt, path.as_str()),
        None => blank(rt.alloc(), 2),
    }
}

/// `check`: the disk is checked so many times; gives how often it was clean.
fn time_checks(rt: &HostRuntime, rounds: u64, path: Option<String>) -> Done {
    let mut disk = asked_disk(rt, path)?;
    Ok(count_clean(&mut disk, rounds))
}

/// A checksum of the bytes: each sum 31 times the one before and the byte, without what is above 64 bits.
fn checksum(bytes: &[u8]) -> u64 {
    let mut sum = 0u64;
    for &byte in bytes {
        sum = sum.wrapping_mul(31).wrapping_add(u64::from(byte));
    }
    sum
}

/// `sectors`: a byte of so many sectors is raised; gives a checksum of these bytes.
fn time_sectors(disk: &mut MemDisk, rounds: u64) -> Done {
    or_say(sectors::run(disk, rounds), "the device failed")
}

/// `growth`: STOCK grows from one block until the disk is full, so many times over; gives a checksum of the image.
fn time_growth(disk: &mut MemDisk, rounds: u64) -> Done {
    for _round in 0..rounds {
        if records::grow_stock(disk).is_err() {
            return Err("STOCK can't grow");
        }
    }
    Ok(checksum(disk.bytes()))
}

/// `reads`: so many records of a full disk are read, each of which holds what was written; returns a checksum of the
/// bytes.
fn time_reads(disk: &mut MemDisk, rounds: u64) -> Done {
    or_say(records::read_full(disk, rounds), "the records aren't read")
}

/// `writes`: so many records of a full disk are written; gives a checksum of the image.
fn time_writes(disk: &mut MemDisk, rounds: u64) -> Done {
    match records::write_full(disk, rounds) {
        Ok(()) => Ok(checksum(disk.bytes())),
        Err(_) => Err("the records aren't written"),
    }
}

/// A record of each file of a full disk is written through a drive so many times; gives a checksum of the image.
fn time_turns(disk: MemDisk, rounds: u64) -> Done {
    let mut drive = Drive::power_on(disk);
    match drives::put_by_turns(&mut drive, rounds) {
        Ok(()) => Ok(checksum(drive.into_disk().bytes())),
        Err(_) => Err("the drive is dead"),
    }
}

/// `drive`: so many times a record of each file of a full disk is written through a drive; gives a checksum of the
/// image.
fn time_drive(rt: &HostRuntime, rounds: u64) -> Done {
    let mut disk = zeroed(rt.alloc())?;
    match records::grow_stock(&mut disk) {
        Ok(_) => time_turns(disk, rounds),
        Err(_) => Err("STOCK can't grow"),
    }
}

/// A disk that was blank, after so many messages of 64 tills to a session on it, and a checksum of the replies.
fn asked_shop(rt: &HostRuntime, rounds: u64) -> Found<(u64, MemDisk)> {
    let disk = blank(rt.alloc(), requests::TILLS)?;
    let Ok(mut tills) = requests::all_tills(rt.alloc()) else {
        return Err("no memory");
    };
    or_say(
        requests::run(disk, tills.as_mut_slice(), rounds),
        "the disk is no shop's",
    )
}

/// `requests`: so many messages of 64 tills are handled, half of them repeats, by a session on a disk that was blank.
/// Returns a checksum of the replies and of the image.
fn time_requests(rt: &HostRuntime, rounds: u64) -> Done {
    let (replies, disk) = asked_shop(rt, rounds)?;
    Ok(
        replies
            .wrapping_mul(31)
            .wrapping_add(checksum(disk.bytes())),
    )
}

/// `openings`: the disk of 100,000 such messages is opened so many times; gives a checksum of the image.
fn time_openings(rt: &HostRuntime, rounds: u64) -> Done {
    let (_, disk) = asked_shop(rt, 100_000)?;
    let disk = or_say(requests::reopen(disk, rounds), "the disk is no shop's")?;
    Ok(checksum(disk.bytes()))
}

/// The benchmark of a word that works on a disk in memory. Err also if there is no such word.
fn timed_on(disk: &mut MemDisk, word: &str, rounds: u64) -> Done {
    match word {
        "sectors" => time_sectors(disk, rounds),
        "growth" => time_growth(disk, rounds),
        "reads" => time_reads(disk, rounds),
        "writes" => time_writes(disk, rounds),
        _ => Err("the words are sectors, check, growth, reads, writes, drive, requests, openings"),
    }
}

/// The benchmark of a word. Err also if there is no such word.
fn timed(rt: &HostRuntime, word: &str, rounds: u64, path: Option<String>) -> Done {
    match word {
        "check" => time_checks(rt, rounds, path),
        "drive" => time_drive(rt, rounds),
        "requests" => time_requests(rt, rounds),
        "openings" => time_openings(rt, rounds),
        _ => timed_on(&mut zeroed(rt.alloc())?, word, rounds),
    }
}

/// Reports what failed, and returns the exit status for it.
fn refuse(rt: &HostRuntime, what: &str) -> io::Result<ExitCode> {
    eprintln!(rt; "benchmarks: {what}")?;
    Ok(ExitCode::FAILURE)
}

/// Reports that the second word is no number, and returns the exit status for it.
fn refuse_rounds(rt: &HostRuntime) -> io::Result<ExitCode> {
    eprintln!(rt; "benchmarks: ROUNDS is a number")?;
    Ok(ExitCode::from(2))
}

/// Prints the result of the benchmark that was asked for, and returns the exit status for it.
fn tell(rt: &HostRuntime, done: Done) -> io::Result<ExitCode> {
    match done {
        Ok(number) => {
            println!(rt; "{number}")?;
            Ok(ExitCode::SUCCESS)
        }
        Err(what) => refuse(rt, what),
    }
}

/// Prints the result of one of several benchmarks, after its word.
fn tell_one(rt: &HostRuntime, word: &str, done: Done) -> io::Result<()> {
    match done {
        Ok(number) => println!(rt; "{word} {number}"),
        Err(what) => println!(rt; "{word} {what}"),
    }
}

/// Runs the benchmarks of these words, one after another.
fn run_all(rt: &HostRuntime, words: &[&str]) -> io::Result<()> {
    for word in words {
        tell_one(rt, word, timed(rt, word, ROUNDS, None))?;
    }
    Ok(())
}

/// Does what a word and the two after it ask for, and returns the exit status.
fn run_word(
    rt: &HostRuntime,
    word: &str,
    second: Option<String>,
    third: Option<String>,
) -> io::Result<ExitCode> {
    match asked_rounds(second) {
        Some(rounds) => tell(rt, timed(rt, word, rounds, third)),
        None => refuse_rounds(rt),
    }
}

fn main(rt: HostRuntime) -> io::Result<ExitCode> {
    let Ok(mut words) = env::args(&rt) else {
        println!(rt; "no memory for the words")?;
        return Ok(ExitCode::FAILURE);
    };
    words.next();
    let Some(word) = words.next() else {
        run_all(&rt, &WORDS)?;
        return Ok(ExitCode::SUCCESS);
    };
    run_word(&rt, word.as_str(), words.next(), words.next())
}
