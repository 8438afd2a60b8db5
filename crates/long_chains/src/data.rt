//! What a sector has of its file.
ghost use Rattle.std.specs.Prelude.{◌≡◌, ◌≤◌, length};
ghost use Rattle.long_chains.specs.Chains as specs;
ghost use Rattle.long_chains.specs.Sectors.{HasSector};

/// The bytes that the sector with this number has of its file: 254, or of the last sector of a chain those up to its last index.
pub fn data_in(image: &[u8], number: usize) -> &[u8]
    requires { HasSector image.now number }
    ensures value { result.now ≡ specs.data_in image.now number }
    ensures short { length result.now ≤ 254 }
{
    let start = 256 * number;
    if image[start] != 0 {
        return &image[start + 2..start + 256];
    }
    let last = image[start + 1] as usize;
    &image[start + 2..start + last.max(1) + 1]
}
