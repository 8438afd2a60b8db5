//! A slot of the directory: its place, and its 32 bytes.
ghost use Rattle.std.specs.Prelude.{◌≡◌, ◌<◌};

use d64_image::Place;

/// A slot of the directory. A directory sector has eight, of 32 bytes each (1541 User's Guide, directory format).
#[derive(Clone, Copy, Debug, PartialEq, Eq, Default)]
pub struct Slot {
    /// The directory sector of the slot.
    pub sector: Place,
    /// Its number there, from 0 to 7.
    pub number: u8,
    /// Its bytes: type in byte 2, first block in 3-4, name in 5-20, first side sector in 21-22, record length in 23,
    /// block count in 30-31, low byte first.
    pub bytes: [u8; 32],
}

impl Slot {
    ghost use Rattle.disk_layout.specs.Directory.{slot_in};

    /// The slot with this number, from 0 to 7, of the directory sector at `place`, which holds these bytes.
    pub fn in_sector(bytes: &[u8; 256], place: Place, number: u8) -> Slot
        requires { number < 8 }
        ensures { result ≡ slot_in place bytes.now number }
    {
        let start = 32 * number as usize;
        let mut slot = [0u8; 32];
        slot.copy_from_slice(&bytes[start..start + 32]);
        Slot {
            sector: place,
            number,
            bytes: slot,
        }
    }
}
