//! Places past record 65535, which no command names: they are reached by going on. In 259 blocks
//! there are 65,786 records of one byte.
use crate::layers::disks::fresh;
use crate::layers::drives::{Call, counted, rows};
use std::process::Abort;

/// A call, and its status.
type Row = (Call<'static>, u8);

static OF_ONE_BYTE: [Row; 10] = [
    (Call::Open(2, b"ONE,L,\x01"), 0),
    (Call::Command(b"P\x62\xFF\xFF\x01"), 50),
    (Call::Write(2, b"Z"), 0),
    // 259 blocks have 65,786 records
    (Call::Read(2, b"\xFF"), 0),
    (Call::Write(2, b"YX"), 51),
    (Call::Command(b"P\x62\xFF\xFF\x01"), 0),
    (Call::Read(2, b"Z"), 0),
    (Call::Read(2, b"\xFF"), 0),
    (Call::Read(2, b"Y"), 0),
    (Call::Command(b"P\x62\xFF\xFF\x02"), 51),
];

// With records of one byte going on from record 65535 comes to one that is there.
#[test]
fn records_of_one_byte(rt: HostRuntime) {
    rows(&rt, &mut counted(fresh(&rt)), &OF_ONE_BYTE);
}

static MADE: [Row; 3] = [
    (Call::Open(2, b"ONE,L,\x01"), 0),
    (Call::Command(b"P\x62\xFF\xFF\x01"), 50),
    (Call::Write(2, b""), 0),
];

static BEHIND: [Row; 4] = [
    (Call::Read(2, b""), 50),
    (Call::Write(2, b"Z"), 52),
    (Call::Write(2, b""), 52),
    (Call::Read(2, b""), 50),
];

// After the last one a read finds none, and a write has no place.
#[test]
fn places_past_record_65535(rt: HostRuntime) {
    let mut drive = counted(fresh(&rt));
    rows(&rt, &mut drive, &MADE);
    for _ in 65535..65787usize {
        rows(&rt, &mut drive, &[(Call::Read(2, b"\xFF"), 0)]);
    }
    rows(&rt, &mut drive, &BEHIND);
}
