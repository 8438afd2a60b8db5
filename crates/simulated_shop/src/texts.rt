//! Lines, replies and shops as texts.
use crate::answers::{Answer, Reply, Request};
use crate::lines::Line;
use crate::shops::{Kept, NO_CARD, Shop};
use std::io::{self, Write};

/// Writes a request as a till sends it.
fn write_request(out: &mut Vec<u8>, it: &Request) -> io::Result<()> {
    let kind = it.kind as char;
    write!(
        out,
        "{},{},{kind},{},{}",
        it.till, it.number, it.item, it.quantity
    )?;
    if it.kind == b'M' {
        write!(out, ",{}", it.to)?;
    }
    Ok(())
}

/// Writes a line, with its LF.
pub fn write_line(out: &mut Vec<u8>, line: &Line) -> io::Result<()> {
    match line {
        Line::Asks(request) => write_request(out, request)?,
        Line::IsBad(text) => write!(out, "{text}")?,
    }
    writeln!(out)
}

/// Writes an answer.
fn write_answer(out: &mut Vec<u8>, answer: Answer) -> io::Result<()> {
    match answer {
        Answer::Done(on) => write!(out, "DONE,{on}"),
        Answer::Moved(on, there) => write!(out, "DONE,{on},{there}"),
        Answer::Short(on) => write!(out, "SHORT,{on}"),
        Answer::Over(on) => write!(out, "OVER,{on}"),
        Answer::NoCard => write!(out, "NO CARD"),
        Answer::DiskFull => write!(out, "72,DISK FULL"),
        Answer::TooLarge => write!(out, "52,FILE TOO LARGE"),
    }
}

/// Writes what is replied after the till and the number.
fn write_said(out: &mut Vec<u8>, reply: Reply) -> io::Result<()> {
    match reply {
        Reply::Answered(answer) => write_answer(out, answer),
        Reply::NoTill => write!(out, "NO TILL"),
        Reply::Clash => write!(out, "CLASH"),
        Reply::Stale => write!(out, "STALE"),
        Reply::Ahead => write!(out, "AHEAD"),
        Reply::Syntax => Ok(()),
    }
}

/// Writes the reply to a line, with its LF. The line counts in the shop from then on.
pub fn write_reply(out: &mut Vec<u8>, shop: &mut Shop, line: &Line) -> io::Result<()> {
    match line {
        Line::IsBad(_) => writeln!(out, "30,SYNTAX ERROR,00,00"),
        Line::Asks(request) => {
            let reply = shop.reply(request);
            write!(out, "{},{},", request.till, request.number)?;
            write_said(out, reply)?;
            writeln!(out)
        }
    }
}

/// Writes a kept request with its answer, if there is one.
fn write_kept(out: &mut Vec<u8>, word: &str, kept: &Kept) -> io::Result<()> {
    if kept.request.number == 0 {
        return Ok(());
    }
    write!(out, "{word} ")?;
    write_request(out, &kept.request)?;
    write!(out, ",")?;
    write_answer(out, kept.answer)?;
    writeln!(out)
}

/// Writes what `show` prints of a shop after the line of its top.
pub fn write_shop(out: &mut Vec<u8>, shop: &Shop) -> io::Result<()> {
    for (item, quantity) in shop.cards.iter().enumerate() {
        if *quantity != NO_CARD {
            writeln!(out, "CARD {item},{quantity}")?;
        }
    }
    for till in &shop.books {
        write_kept(out, "TILL", &till.last)?;
        write_kept(out, "PRIOR", &till.prior)?;
    }
    Ok(())
}
