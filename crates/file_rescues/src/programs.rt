//! Which files are programs in BASIC 2.0.
ghost use Rattle.std.specs.List.{position};
ghost use Rattle.std.specs.Prelude.{◌≡◌, nat_eq};
ghost use Rattle.file_rescues.specs.Programs as specs;

use line_text::is_ended;

/// Where the first 00 among the bytes is.
fn first_zero(bytes: &[u8]) -> Option<usize>
    ensures { result ≡ position (λ byte. nat_eq byte 0) bytes.now }
{
    bytes.iter().position(|&byte| byte == 0)
}

/// Whether the file begins with a line, whose link leads to the byte after its end.
fn begins_with_line(file: &[u8]) -> bool
    ensures { result ≡ specs.begins_with_line file.now }
{
    let [a, b, low, high, _, _, rest @ ..] = file else {
        return false;
    };
    let Some(end) = first_zero(rest) else {
        return false;
    };
    let load = usize::from(u16::from_le_bytes([*a, *b]));
    let link = usize::from(u16::from_le_bytes([*low, *high]));
    link == load + 5 + end
}

/// Whether the file is a program in BASIC: it has its end, or it begins with a line, and a part of it may be lost.
pub(crate) fn is_program(file: &[u8]) -> bool
    ensures { result ≡ specs.is_program file.now }
{
    is_ended(file) || begins_with_line(file)
}
