//! The characters of PETSCII, in Unicode.
ghost use Rattle.std.specs.Prelude.{◌≡◌};
ghost use Rattle.line_text.specs.petscii.Characters as characters;
ghost use Rattle.line_text.specs.petscii.Characters.{character_of};

/// $40 to $5F of the graphics set.
const GRAPHICS_LETTERS: [char; 32] = [
    '@', 'A', 'B', 'C', 'D', 'E', 'F', 'G', 'H', 'I', 'J', 'K', 'L', 'M', 'N', 'O', 'P', 'Q', 'R',
    'S', 'T', 'U', 'V', 'W', 'X', 'Y', 'Z', '[', '£', ']', '↑', '←',
];

/// $40 to $5F of the mixed set.
const MIXED_LETTERS: [char; 32] = [
    '@', 'a', 'b', 'c', 'd', 'e', 'f', 'g', 'h', 'i', 'j', 'k', 'l', 'm', 'n', 'o', 'p', 'q', 'r',
    's', 't', 'u', 'v', 'w', 'x', 'y', 'z', '[', '£', ']', '↑', '←',
];

/// $60 to $7F and $C0 to $DF of the graphics set.
const GRAPHICS_SHIFTED: [char; 32] = [
    '─', '♠', '🭲', '🭸', '🭷', '🭶', '🭺', '🭱', '🭴', '╮', '╰', '╯', '🭼', '╲', '╱', '🭽', '🭾', '●', '🭻',
    '♥', '🭰', '╭', '╳', '○', '♣', '🭵', '♦', '┼', '🮌', '│', 'π', '◥',
];

/// $60 to $7F and $C0 to $DF of the mixed set.
const MIXED_SHIFTED: [char; 32] = [
    '─', 'A', 'B', 'C', 'D', 'E', 'F', 'G', 'H', 'I', 'J', 'K', 'L', 'M', 'N', 'O', 'P', 'Q', 'R',
    'S', 'T', 'U', 'V', 'W', 'X', 'Y', 'Z', '┼', '🮌', '│', '🮖', '🮘',
];

/// $A0 to $BF and $E0 to $FE of the graphics set.
const GRAPHICS_BLOCKS: [char; 32] = [
    '\u{a0}', '▌', '▄', '▔', '▁', '▏', '🮕', '▕', '🮏', '◤', '🮇', '├', '▗', '└', '┐', '▂', '┌', '┴',
    '┬', '┤', '▎', '▍', '🮈', '🮂', '🮃', '▃', '🭿', '▖', '▝', '┘', '▘', '▚',
];

/// $A0 to $BF and $E0 to $FE of the mixed set.
const MIXED_BLOCKS: [char; 32] = [
    '\u{a0}', '▌', '▄', '▔', '▁', '▏', '🮕', '▕', '🮏', '🮙', '🮇', '├', '▗', '└', '┐', '▂', '┌', '┴',
    '┬', '┤', '▎', '▍', '🮈', '🮂', '🮃', '▃', '✓', '▖', '▝', '┘', '▘', '▚',
];

/// A character set of PETSCII. A C64 begins with the first, and a program or the Commodore key changes to the other.
#[derive(Clone, Copy, Debug, PartialEq, Eq)]
pub enum CharacterSet {
    /// Capital letters and graphics.
    Graphics,
    /// Small letters, and capitals in the place of most graphics.
    Mixed,
}

impl CharacterSet {
    /// The 32 characters from $40 on.
    fn letters(self) -> &'static [char; 32]
        ensures { result.now ≡ characters.letters self }
    {
        match self {
            CharacterSet::Graphics => &GRAPHICS_LETTERS,
            CharacterSet::Mixed => &MIXED_LETTERS,
        }
    }

    /// The 32 characters from $60 on.
    fn shifted(self) -> &'static [char; 32]
        ensures { result.now ≡ characters.shifted self }
    {
        match self {
            CharacterSet::Graphics => &GRAPHICS_SHIFTED,
            CharacterSet::Mixed => &MIXED_SHIFTED,
        }
    }

    /// The 32 characters from $A0 on.
    fn blocks(self) -> &'static [char; 32]
        ensures { result.now ≡ characters.blocks self }
    {
        match self {
            CharacterSet::Graphics => &GRAPHICS_BLOCKS,
            CharacterSet::Mixed => &MIXED_BLOCKS,
        }
    }
}

/// The character that a C64 shows for the byte in this set, as Unicode has it. None for the control codes: $00 to $1F and
/// $80 to $9F. $A0, the shifted space, is U+00A0.
#[tactic(auto, unfolding(crate::specs::petscii::Characters::character_of))]
pub fn character(set: CharacterSet, byte: u8) -> Option<char>
    ensures { result ≡ character_of set byte }
{
    let number = usize::from(byte % 32);
    match byte {
        0x20..=0x3F => Some(char::from(byte)),
        0x40..=0x5F => Some(set.letters()[number]),
        0x60..=0x7F | 0xC0..=0xDF => Some(set.shifted()[number]),
        0xFF => Some(set.shifted()[30]),
        0xA0..=0xBF | 0xE0..=0xFE => Some(set.blocks()[number]),
        _ => None,
    }
}
