//! The plan of an image: the next command, which was tried in memory on this very image.
ghost use Rattle.std.specs.Prelude.{◌≡◌, ◌≢◌, ◌++◌, IfErr, IfOk, OnOk, Some, [], codes, flat_map};
ghost use Rattle.std.specs.Io.KnownBytes.{Appends};
ghost use Rattle.std.specs.List.{list_all};
ghost use Rattle.command_faults.specs.declared.faults.CommandFault.TheVariants as faults;
ghost use Rattle.image_looks.specs.EachImage.{IsCutOff};
ghost use Rattle.image_looks.specs.Plans.{IsCalled, IsNameIn, IsPlanFault, IsPlanOf, IsPlanRefusal, before_hyphen, command_against, command_for};
ghost use Rattle.image_looks.specs.Plans.{extract_words, file_word, is_plain as plain, is_trimmed as trimmed, lost_by as loss_of};
ghost use Rattle.image_looks.specs.Plans.{lost_for as loss_for, quoted_char, quoted_name, repair_words as words_of, size_words, sized_words};

use command_faults::CommandFault;
use disk_changes::{Remedy, Way, find_remedy};
use disk_layout::Fault;
use disk_reports::{PlanForm, plan_image, plan_refusal};
use image_file::ShownPath;
use opened_files::STANDARD_INPUT;
use std::alloc::Global;
use std::io::{self, Write};

/// Whether a byte stands for itself in a shell: a letter, a digit, or one of + , - . / @ _
fn is_plain(byte: u8) -> bool
    ensures { result ≡ plain byte }
{
    matches!(byte, b'+'..=b'9' | b'@'..=b'Z' | b'_' | b'a'..=b'z')
}

/// Whether all bytes of a name do.
fn is_plain_name(name: &[u8]) -> bool
    ensures { result ≡ list_all plain name.now }
{
    for &byte in name {
        if !is_plain(byte) {
            return false;
        }
    }
    true
}

/// Writes what stands before a name that begins with a hyphen.
fn print_before_hyphen<W: Write>(out: &mut W, name: &[u8]) -> io::Result<()>
    ensures { OnOk result (Appends (W.contents out.old) (W.contents out.new) (before_hyphen name.now)) }
{
    match name {
        [b'-', ..] => out.write_all(b"./"),
        _ => Ok(()),
    }
}

/// Writes a byte between single quotation marks.
fn print_quoted_char<W: Write>(out: &mut W, byte: u8) -> io::Result<()>
    ensures { OnOk result (Appends (W.contents out.old) (W.contents out.new) (quoted_char byte)) }
{
    if byte == b'\'' {
        return out.write_all(b"'\\''");
    }
    out.write_all(&[byte])
}

/// Writes the bytes of a name between single quotation marks.
fn print_quoted_chars<W: Write>(out: &mut W, name: &[u8]) -> io::Result<()>
    ensures { OnOk result (Appends (W.contents out.old) (W.contents out.new) (flat_map quoted_char name.now)) }
{
    for &byte in name {
        print_quoted_char(out, byte)?;
    }
    Ok(())
}

/// Writes a name between single quotation marks.
fn print_quoted<W: Write>(out: &mut W, name: &[u8]) -> io::Result<()>
    ensures { OnOk result (Appends (W.contents out.old) (W.contents out.new)
        (codes "'" ++ (flat_map quoted_char name.now ++ codes "'"))) }
{
    out.write_all(b"'")?;
    print_quoted_chars(out, name)?;
    out.write_all(b"'")
}

/// Writes a name, between quotation marks if a byte of it doesn't stand for itself.
fn print_quoted_name<W: Write>(out: &mut W, name: &[u8]) -> io::Result<()>
    ensures { OnOk result (Appends (W.contents out.old) (W.contents out.new) (quoted_name name.now)) }
{
    if is_plain_name(name) {
        return out.write_all(name);
    }
    print_quoted(out, name)
}

/// Writes the word that a shell reads as the name of this file.
fn print_file<W: Write>(out: &mut W, name: &[u8]) -> io::Result<()>
    ensures { OnOk result (Appends (W.contents out.old) (W.contents out.new) (file_word name.now)) }
{
    print_before_hyphen(out, name)?;
    print_quoted_name(out, name)
}

/// The words of a repair.
fn repair_words(way: Way) -> &'static [u8]
    ensures { result.now ≡ words_of way }
{
    match way {
        Way::Plain => b"ledger repair ",
        Way::Sides => b"ledger repair --sides ",
        Way::Settled => b"ledger repair --accept-loss ",
        Way::SidesSettled => b"ledger repair --sides --accept-loss ",
        Way::Freeing => b"ledger repair --free ",
        Way::FreeingSettled => b"ledger repair --free --accept-loss ",
    }
}

/// Writes words, and then the name of a file.
fn print_over<W: Write>(out: &mut W, words: &[u8], name: &[u8]) -> io::Result<()>
    ensures { OnOk result (Appends (W.contents out.old) (W.contents out.new) (words.now ++ file_word name.now)) }
{
    out.write_all(words)?;
    print_file(out, name)
}

/// Writes words and the name of a file, then more words and the name again, and an end.
fn print_from<W: Write>(
    out: &mut W,
    words: &[u8],
    name: &[u8],
    between: &[u8],
    end: &[u8],
) -> io::Result<()>
    ensures { OnOk result (Appends (W.contents out.old) (W.contents out.new)
        ((words.now ++ file_word name.now) ++ ((between.now ++ file_word name.now) ++ end.now))) }
{
    print_over(out, words, name)?;
    print_over(out, between, name)?;
    out.write_all(end)
}

/// Writes the command that can be made of a disk.
fn print_command<W: Write>(out: &mut W, remedy: Remedy, name: &[u8]) -> io::Result<()>
    ensures { OnOk result (Appends (W.contents out.old) (W.contents out.new) (command_for remedy (file_word name.now))) }
{
    match remedy {
        Remedy::Nothing | Remedy::Strays { freed: false, .. } => Ok(()),
        Remedy::Strays { freed: true, .. } => print_over(out, repair_words(Way::Freeing), name),
        Remedy::Repair { way, .. } => print_over(out, repair_words(way), name),
        Remedy::Rescue(_) => print_from(out, b"ledger extract ", name, b" ", b"-files"),
    }
}

/// What a repair may lose.
fn lost_by(way: Way) -> &'static [u8]
    ensures { result.now ≡ loss_of way }
{
    match way {
        Way::Plain | Way::Sides => b"",
        Way::Settled | Way::SidesSettled | Way::FreeingSettled => b"the end of a file",
        Way::Freeing => b"what sectors hold that no file owns",
    }
}

/// What may be lost by the command that can be made of a disk.
fn lost_for(remedy: Remedy) -> &'static [u8]
    ensures { result.now ≡ loss_for remedy }
{
    match remedy {
        Remedy::Nothing | Remedy::Strays { freed: false, .. } => b"",
        Remedy::Strays { freed: true, .. } => lost_by(Way::Freeing),
        Remedy::Repair { way, .. } => lost_by(way),
        Remedy::Rescue(_) => b"what can't be read",
    }
}

/// Whether a file of this size has tracks of which `trim` takes 35, or error bytes that it leaves out.
fn is_trimmed(size: u64) -> bool
    ensures { result ≡ trimmed size }
{
    matches!(size, 175_531 | 196_608 | 197_376)
}

/// Writes what may be done about an image of this size.
fn print_sized<W: Write>(out: &mut W, size: u64, name: &[u8]) -> io::Result<()>
    ensures { OnOk result (Appends (W.contents out.old) (W.contents out.new) (sized_words size (file_word name.now))) }
{
    if is_trimmed(size) {
        return print_from(out, b"ledger trim ", name, b" > ", b"-35.d64");
    }
    print_over(out, b"ledger check --explain ", name)
}

/// Writes what may be done about an image of another size.
fn print_size_command<W: Write>(out: &mut W, size: Option<u64>, name: &[u8]) -> io::Result<()>
    ensures { OnOk result (Appends (W.contents out.old) (W.contents out.new) (size_words size (file_word name.now))) }
{
    match size {
        Some(size) => print_sized(out, size, name),
        None => print_over(out, b"ledger check --explain ", name),
    }
}

/// Writes what may be done about an image that is refused.
fn print_counter<W: Write>(
    out: &mut W,
    why: CommandFault,
    size: Option<u64>,
    name: &[u8],
) -> io::Result<()>
    ensures { OnOk result (Appends (W.contents out.old) (W.contents out.new) (command_against why size (file_word name.now))) }
{
    match why {
        CommandFault::ImageSize => print_size_command(out, size, name),
        CommandFault::Log => print_from(out, b"ledger copy --log ", name, b"-log ", b"-new.d64"),
        _ => Ok(()),
    }
}

/// A path as a terminal may show it.
fn shown_name(alloc: Global, path: &str) -> Result<Vec<u8>, CommandFault>
    ensures err { IfErr result (λ fault. fault ≡ faults.NoMemory) }
{
    match format!(in alloc; "{}", ShownPath(path)) {
        Ok(name) => Ok(name.into_bytes()),
        Err(_) => Err(CommandFault::NoMemory),
    }
}

/// A path by its bytes.
fn plain_name(alloc: Global, path: &str) -> Result<Vec<u8>, CommandFault>
    ensures ok { IfOk result (λ name. name.items ≡ path.now) }
    ensures err { IfErr result (λ fault. fault ≡ faults.NoMemory) }
{
    match Vec::from_slice(alloc, path.as_bytes()) {
        Ok(name) => Ok(name),
        Err(_) => Err(CommandFault::NoMemory),
    }
}

/// What a path is called in a form: in a table and in JSON by its bytes, in a line as a terminal may show it.
fn name_in(alloc: Global, form: PlanForm, path: &str) -> Result<Vec<u8>, CommandFault>
    ensures ok { IfOk result (λ name. IsNameIn form path.now name.items) }
    ensures err { IfErr result (λ fault. fault ≡ faults.NoMemory) }
{
    match form {
        PlanForm::Lines => shown_name(alloc, path),
        PlanForm::Json | PlanForm::Csv => plain_name(alloc, path),
    }
}

/// What stands for an image in a command.
fn called<'a>(path: &str, name: &'a [u8]) -> &'a [u8]
    ensures { IsCalled path.now name.now result.now }
{
    if path == STANDARD_INPUT {
        b"IMAGE"
    } else {
        name
    }
}

/// The command that can be made of a disk. `NoMemory`.
fn command(alloc: Global, remedy: Remedy, name: &[u8]) -> Result<Vec<u8>, CommandFault>
    ensures ok { IfOk result (λ text. text.items ≡ command_for remedy (file_word name.now)) }
    ensures err { IfErr result (λ fault. fault ≡ faults.NoMemory) }
{
    let mut text = Vec::new(alloc);
    match print_command(&mut text, remedy, name) {
        Ok(()) => Ok(text),
        Err(_) => Err(CommandFault::NoMemory),
    }
}

/// What may be done about an image that is refused. `NoMemory`.
fn counter(
    alloc: Global,
    why: CommandFault,
    size: Option<u64>,
    name: &[u8],
) -> Result<Vec<u8>, CommandFault>
    ensures ok { IfOk result (λ text. text.items ≡ command_against why size (file_word name.now)) }
    ensures err { IfErr result (λ fault. fault ≡ faults.NoMemory) }
{
    let mut text = Vec::new(alloc);
    match print_counter(&mut text, why, size, name) {
        Ok(()) => Ok(text),
        Err(_) => Err(CommandFault::NoMemory),
    }
}

/// Prints the plan of an image with this name. The command that it names was tried in memory. Returns the fault that a check finds.
fn print_plan<W: Write>(
    alloc: Global,
    form: PlanForm,
    path: &str,
    name: &[u8],
    image: &[u8],
    out: &mut W,
) -> Result<Option<Fault>, CommandFault>
    requires { IsNameIn form path.now name.now }
    ensures ok { IfOk result (IsPlanOf W.contents form path.now image.now out.old out.new) }
    ensures err { IfErr result (IsPlanFault image.now) }
    ensures untouched { IfErr result (λ fault. (fault ≢ faults.File) → out.new ≡ out.old) }
{
    let remedy = find_remedy(alloc, image)?;
    let next = command(alloc, remedy, called(path, name))?;
    plan_image(
        alloc,
        form,
        name,
        image,
        lost_for(remedy),
        next.as_slice(),
        out,
    )
}

/// Prints the plan of the image at a path, which has these bytes: what a check finds, the files that are hurt, what may be lost,
/// and the command that can be made of this very image. Returns the fault that a check finds.
///
/// `ImageSize`; `NoMemory`: nothing was printed then. `File` if the output failed, which may then have a part.
pub(crate) fn plan_of<W: Write>(
    alloc: Global,
    form: PlanForm,
    path: &str,
    image: &[u8],
    out: &mut W,
) -> Result<Option<Fault>, CommandFault>
    ensures ok { IfOk result (IsPlanOf W.contents form path.now image.now out.old out.new) }
    ensures err { IfErr result (IsPlanFault image.now) }
    // Only if the output failed something may have been printed at a refusal.
    ensures untouched { IfErr result (λ fault. (fault ≢ faults.File) → out.new ≡ out.old) }
{
    let name = name_in(alloc, form, path)?;
    print_plan(alloc, form, path, name.as_slice(), image, out)
}

/// Prints of an image at a path that is refused why, and what may be done about it. `File` if the output failed, and `NoMemory`.
pub(crate) fn plan_against<W: Write>(
    alloc: Global,
    form: PlanForm,
    path: &str,
    why: CommandFault,
    size: Option<u64>,
    out: &mut W,
) -> Result<(), CommandFault>
    ensures ok { OnOk result (IsPlanRefusal W.contents form path.now why out.old out.new) }
    ensures err { IfErr result IsCutOff }
{
    let name = name_in(alloc, form, path)?;
    let next = counter(alloc, why, size, called(path, name.as_slice()))?;
    plan_refusal(form, name.as_slice(), why, next.as_slice(), out)
}
