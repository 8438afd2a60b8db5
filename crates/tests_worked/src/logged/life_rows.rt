//! The life of a log beside its image, in memory; the power may have failed at any point of it. docs/LOG.md says which
//! image a folder gives.
use crate::comparing::same;
use crate::logged::logs::{begun, change, commit, numbered, two_touched, without};
use image_log::{LogFault, LogFolder, MemFolder, Misfit, land};
use std::process::Abort;

/// What is found in a folder.
#[derive(Debug, Drop, PartialEq, Eq)]
enum Found {
    /// The image before the commit, and no log.
    Before,
    /// The one after it, and no log.
    After,
    /// Another image, or a log.
    Other,
    NoBase,
    Damaged,
    Foreign,
    Failed,
}

/// An image of zeros.
fn room(rt: &(impl Abort + AllocGlobal)) -> Vec<[u8; 256]> {
    vec![in rt.alloc(); [0; 256]; 683].expect(rt, "there is memory")
}

/// The image after the commit.
fn changed(rt: &(impl Abort + AllocGlobal)) -> Vec<[u8; 256]> {
    let mut image = numbered(rt);
    change(image.as_mut_slice());
    image
}

/// The image on the way from the one before to the one after: the first byte of a sector is still old, all other bytes of
/// it are new, and so is the last one of another sector.
fn torn(rt: &(impl Abort + AllocGlobal)) -> Vec<[u8; 256]> {
    let mut image = numbered(rt);
    if image.len() == 683 {
        image[357] = [0; 256];
        image[357][0] = 106;
        image[682][255] = 255;
    }
    image
}

/// That image with a byte that is neither old nor new.
fn foreign(rt: &(impl Abort + AllocGlobal)) -> Vec<[u8; 256]> {
    let mut image = torn(rt);
    if image.len() == 683 {
        image[682][0] = 1;
    }
    image
}

/// The bytes of a log that began with the numbered image and has the commit.
fn logged(rt: &(impl Abort + AllocGlobal)) -> Vec<u8> {
    let mut log = begun(rt, numbered(rt).as_slice()).expect(rt, "a log");
    let done = commit(&mut log, changed(rt).as_slice(), &two_touched());
    same(rt, done, true);
    Vec::from_slice(rt.alloc(), log.file().bytes()).expect(rt, "there is memory")
}

/// The log with its mark.
fn marked(rt: &(impl Abort + AllocGlobal), log: &[u8]) -> Vec<u8> {
    let mut copy = Vec::from_slice(rt.alloc(), log).expect(rt, "there is memory");
    if let Some(byte) = copy.get_mut(4_194_304) {
        *byte = 1;
    }
    copy
}

/// What a folder has.
fn held(rt: &(impl Abort + AllocGlobal), folder: &mut MemFolder) -> Found {
    let mut image = room(rt);
    if image.len() != 683 || folder.read_image(image.as_mut_slice()).is_err() {
        return Found::Failed;
    }
    match folder.read_log() {
        Ok(None) if image.as_slice() == numbered(rt).as_slice() => Found::Before,
        Ok(None) if image.as_slice() == changed(rt).as_slice() => Found::After,
        _ => Found::Other,
    }
}

/// What is found in the folder of this image and log once it was landed.
fn landed(rt: &(impl Abort + AllocGlobal), image: &[[u8; 256]], log: &[u8]) -> Found {
    let (mut now, mut base, mut shop) = (room(rt), room(rt), room(rt));
    if image.len() != 683 || now.len() != 683 || base.len() != 683 || shop.len() != 683 {
        return Found::Failed;
    }
    let mut folder = MemFolder::with_log(rt.alloc(), image, log).expect(rt, "there is memory");
    match land(
        &mut folder,
        now.as_mut_slice(),
        base.as_mut_slice(),
        shop.as_mut_slice(),
    ) {
        Ok(()) => held(rt, &mut folder),
        Err(LogFault::Unfit(Misfit::NoBase)) => Found::NoBase,
        Err(LogFault::Unfit(Misfit::Damaged)) => Found::Damaged,
        Err(LogFault::Unfit(Misfit::Foreign)) => Found::Foreign,
        Err(LogFault::File(_)) => Found::Failed,
    }
}

/// After the commit; in the middle of it; in the middle of the mark, and of IMAGE; and after IMAGE.
#[test]
fn power_lost_on_the_way(rt: HostRuntime) {
    let (old, half, new) = (numbered(&rt), torn(&rt), changed(&rt));
    let log = logged(&rt);
    let cut = without(&rt, log.as_slice(), 188_480);
    let mark = marked(&rt, log.as_slice());
    let cut_mark = marked(&rt, cut.as_slice());
    same(
        &rt,
        landed(&rt, old.as_slice(), log.as_slice()),
        Found::After,
    );
    same(
        &rt,
        landed(&rt, old.as_slice(), cut.as_slice()),
        Found::Before,
    );
    same(
        &rt,
        landed(&rt, old.as_slice(), mark.as_slice()),
        Found::After,
    );
    same(
        &rt,
        landed(&rt, half.as_slice(), mark.as_slice()),
        Found::After,
    );
    same(
        &rt,
        landed(&rt, new.as_slice(), mark.as_slice()),
        Found::After,
    );
    same(
        &rt,
        landed(&rt, old.as_slice(), cut_mark.as_slice()),
        Found::Before,
    );
}

/// A log without its mark beside an image that isn't its base; one with its mark beside an image that has a byte which is
/// neither the base's nor the shop's; a log of zeros; one that is a byte short.
#[test]
fn logs_that_give_no_image(rt: HostRuntime) {
    let (old, new) = (numbered(&rt), changed(&rt));
    let log = logged(&rt);
    same(
        &rt,
        landed(&rt, new.as_slice(), log.as_slice()),
        Found::Foreign,
    );
    let (half, other) = (torn(&rt), foreign(&rt));
    let mark = marked(&rt, log.as_slice());
    same(
        &rt,
        landed(&rt, other.as_slice(), mark.as_slice()),
        Found::Foreign,
    );
    let cut = without(&rt, log.as_slice(), 188_480);
    let cut_mark = marked(&rt, cut.as_slice());
    same(
        &rt,
        landed(&rt, half.as_slice(), cut_mark.as_slice()),
        Found::Foreign,
    );
    let zeros = vec![in rt.alloc(); 0; 4_198_400].expect(&rt, "there is memory");
    same(
        &rt,
        landed(&rt, old.as_slice(), zeros.as_slice()),
        Found::NoBase,
    );
    let mut short = logged(&rt);
    let _ = short.pop();
    same(
        &rt,
        landed(&rt, old.as_slice(), short.as_slice()),
        Found::NoBase,
    );
}

/// The bytes of a log that began with the numbered image, and has three commits of one block each: the changed image, the
/// numbered one, and the changed one.
fn logged_thrice(rt: &(impl Abort + AllocGlobal)) -> Vec<u8> {
    let mut log = begun(rt, numbered(rt).as_slice()).expect(rt, "a log");
    for image in [changed(rt), numbered(rt), changed(rt)] {
        let done = commit(&mut log, image.as_slice(), &two_touched());
        same(rt, done, true);
    }
    Vec::from_slice(rt.alloc(), log.file().bytes()).expect(rt, "there is memory")
}

/// A byte is lost in the base, and in the first of three commits: the log is refused. In one of the last two: these are
/// taken for a torn end. A block of other bytes 47 blocks after the end, and 46.
#[test]
fn damaged_logs(rt: HostRuntime) {
    let old = numbered(&rt);
    let log = logged_thrice(&rt);
    for (at, found) in [
        (320, Found::NoBase),
        (188_480, Found::Damaged),
        (192_576, Found::After),
        (196_672, Found::Before),
    ] {
        let lost = without(&rt, log.as_slice(), at);
        same(&rt, landed(&rt, old.as_slice(), lost.as_slice()), found);
    }
    for (at, found) in [(389_119, Found::After), (389_120, Found::Damaged)] {
        let mut other = logged_thrice(&rt);
        if let Some(byte) = other.get_mut(at) {
            *byte = 9;
        }
        same(&rt, landed(&rt, old.as_slice(), other.as_slice()), found);
    }
}
