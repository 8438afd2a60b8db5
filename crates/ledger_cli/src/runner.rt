//! The whole program, over a runtime.
ghost use Rattle.std.specs.Prelude.{◌≡◌, ◌≢◌, ◌⊎◌, ◌↔◌, Err, IsTrue, if◌then◌else◌, true};
ghost use Rattle.command_faults.specs.declared.faults.CommandFault.TheVariants.{File};
ghost use Rattle.command_faults.specs.declared.faults.CommandFault.TheVariants as faults;
ghost use Rattle.ledger_jobs.specs.Jobs.{IsFit};
ghost use Rattle.ledger_cli.specs.Runner.{status_of, waits};
ghost use Rattle.ledger_cli.specs.declared.runner.Audience.TheVariants.{Person, Program, Waiting};

use crate::dashes::{read_dashes, writes_dash};
use crate::faults::JobFault;
use crate::progress::{Watched, is_long};
use crate::unread_words::words_left;
use crate::word_refusals::{print_meaning, refuse, refuse_words};
use crate::words::command_line;
use command_faults::CommandFault;
use disk_layout::Fault;
use image_edits::do_trim;
use image_file::{EndedFile, Failure, Failures, LimitedErrors, Locks, NotedRuntime, Subject};
use image_looks::{DiskLook, ImageForm, Look};
use ledger_jobs::{Job, announce, do_job, explain, files_of, meaning_of, tell_verdict};
use opened_files::end;
use shop_jobs::JobOutput;
use std::alloc::{AllocError, Global};
use std::fs::OpenFile;
use std::io::{self, BufWriter, ErrorKind, Read, Write};
use std::rt::{Env, Files};
use std::time::{Clock, Duration};
use std::{env, thread};

/// The exit status of words that are refused.
const WORDS: u8 = 2;

/// How often a job that waits is tried before the last time while another program has the image.
const TRIES: u32 = 200;

/// How many milliseconds it waits after each of these tries: less than a reader has the image, so that readers that follow each
/// other leave it a moment.
const PAUSE: u64 = 5;

/// How many bytes of output are gathered before they are written.
const OUTPUT_ROOM: usize = 32768;

/// The reader of what is printed on standard error.
#[derive(Clone, Copy, Debug, PartialEq, Eq)]
pub enum Audience {
    /// A program, or a file: each refusal is one line.
    Program,
    /// A person at a terminal, or one who asked for it by --explain: a second line says which file, or what to do.
    Person,
    /// A person at a terminal who doesn't see the output: long work says how far it is, too.
    Waiting,
}

impl Audience {
    /// The reader of standard error: a person if standard error is a terminal. This person sees the output if that is a
    /// terminal too.
    pub fn of(err_is_terminal: bool, out_is_terminal: bool) -> Audience
        ensures { result ≡ (if err_is_terminal then (if out_is_terminal then Person else Waiting) else Program) }
    {
        match (err_is_terminal, out_is_terminal) {
            (false, _) => Audience::Program,
            (true, true) => Audience::Person,
            (true, false) => Audience::Waiting,
        }
    }

    /// This reader, who also reads a second line if the words ask for one.
    fn explained(self) -> Audience
        ensures { result ≢ Program }
    {
        match self {
            Audience::Program => Audience::Person,
            Audience::Person | Audience::Waiting => self,
        }
    }
}

/// Does a job over an output, and over standard error if it reports there. A person who waits for long work sees how far
/// it is.
fn run_with_progress<F, R, W, E>(
    rt: &NotedRuntime<'_, '_, R>,
    job: &Job<'_>,
    told: Audience,
    out: &mut W,
    err: &mut E,
) -> Result<Option<Fault>, CommandFault>
where
    F: EndedFile + Read + Locks + OpenFile + Drop,
    R: Files<File = F> + Input + AllocGlobal,
    W: JobOutput,
    E: Write,
    requires { IsFit job.now }
{
    if let Job::Trim { image } = *job {
        return do_trim(rt, image, out, err);
    }
    if told != Audience::Waiting || !is_long(job) {
        return do_job(rt, job, out);
    }
    let mut watched = Watched::new(out, err);
    let ended = do_job(rt, job, &mut watched);
    watched.clear();
    ended
}

/// Does a job over an output that is gathered, and keeps why calls of the system failed.
fn run_keeping_causes<'a, F, R, E>(
    rt: &R,
    job: &Job<'a>,
    told: Audience,
    failures: &Failures<'a>,
    err: &mut E,
) -> Result<Option<Fault>, CommandFault>
where
    F: EndedFile + Read + Locks + OpenFile + Drop,
    R: Files<File = F> + Input + Print + AllocGlobal,
    E: Write,
    requires { IsFit job.now }
{
    let files = files_of(job);
    let noted = NotedRuntime::new(rt, files.as_slice(), failures);
    match BufWriter::with_capacity(rt.alloc(), OUTPUT_ROOM, io::writer(&noted)) {
        Ok(mut out) => run_with_progress(&noted, job, told, &mut out, err),
        Err(_) => Err(CommandFault::NoMemory),
    }
}

/// The end of a job that ended so, and of which this call failed first. `NotReady` in place of `File` if standard input is set
/// not to wait, and had nothing more yet.
fn awaited(
    ended: Result<Option<Fault>, CommandFault>,
    cause: Option<Failure<'_>>,
) -> Result<Option<Fault>, CommandFault>
    ensures { (result ≡ ended) ⊎ ((ended ≡ Err File) × (result ≡ Err faults.NotReady)) }
{
    let Some(Failure { subject, error, .. }) = cause else {
        return ended;
    };
    let waits = subject != Subject::Input || error.kind() != ErrorKind::WouldBlock;
    match ended {
        Err(CommandFault::File) if !waits => Err(CommandFault::NotReady),
        ended => ended,
    }
}

/// Prints for a person what a job is going to replace or lose.
fn announce_job<F, R, E>(rt: &R, job: &Job<'_>, err: &mut E)
where
    F: EndedFile + Read + Locks + OpenFile + Drop,
    R: Files<File = F> + AllocGlobal,
    E: Write,
{
    let unkept = Failures::none();
    announce(&NotedRuntime::new(rt, &[], &unkept), job, err);
}

/// Prints for a person more about how a job ended, of which this call failed first.
fn explain_end<F, R, E>(
    rt: &R,
    job: &Job<'_>,
    ended: Result<Option<Fault>, CommandFault>,
    cause: Option<Failure<'_>>,
    err: &mut E,
)
where
    F: EndedFile + Read + Locks + OpenFile + Drop,
    R: Files<File = F> + AllocGlobal,
    E: Write,
{
    let unkept = Failures::none();
    let host = NotedRuntime::new(rt, &[], &unkept);
    match ended {
        Err(refusal) => explain(&host, job, refusal, cause, err),
        Ok(found) => tell_verdict(&host, job, found, err),
    }
}

/// Whether a job waits for an image that another program has. One that shows a shop waits for a service, which has the image alone
/// for a moment while it starts. One that writes a shop over a log waits for readers, each of which has the image while it reads.
/// Such a job opens the image first: until then it has read no input, and printed nothing.
fn waits_for_image(job: &Job<'_>) -> bool
    ensures { result ≡ waits job.now }
{
    match job {
        Job::Look { what, .. } => matches!(what, Look::Show(_) | Look::AsIs(DiskLook::Show(_))),
        Job::Serve { .. } | Job::PlayLogged { .. } => true,
        _ => false,
    }
}

/// Whether a job that waits ended since another program has the image.
fn is_kept_out(job: &Job<'_>, ended: Result<Option<Fault>, CommandFault>) -> bool
    ensures { IsTrue result ↔ ((waits job.now ≡ true) × (ended ≡ Err faults.InUse)) }
{
    match ended {
        Err(CommandFault::InUse) => waits_for_image(job),
        _ => false,
    }
}

/// Whether a job prints what a person looks through: one who has seen enough closes the pipe.
fn is_looked_through(job: &Job<'_>) -> bool {
    match job {
        Job::Look { what, .. } | Job::Several { what, .. } => !matches!(
            what,
            Look::List(_) | Look::Check | Look::Faults | Look::Show(_) | Look::AsIs(_)
        ),
        Job::Sheet { .. } | Job::Compare { .. } | Job::Trim { .. } => true,
        Job::Describe { form, .. } => matches!(form, ImageForm::Planned(_)),
        _ => false,
    }
}

/// Whether a job failed because nobody reads its output any more.
fn is_unread(ended: Result<Option<Fault>, CommandFault>, cause: Option<Failure<'_>>) -> bool
    ensures { result ≡ true → ended ≡ Err faults.File }
{
    let Some(Failure { subject, error, .. }) = cause else {
        return false;
    };
    let is_closed = subject == Subject::Output && error.kind() == ErrorKind::BrokenPipe;
    is_closed && matches!(ended, Err(CommandFault::File))
}

/// Reports how a job ended, and returns the exit status. Nothing is reported of one whose output nobody reads any more.
fn report_end<E: Write>(ended: Result<Option<Fault>, CommandFault>, unread: bool, err: &mut E) -> u8
    ensures status { result ≡ status_of unread ended }
    ensures quiet { unread ≡ true → err.new ≡ err.old }
{
    if unread {
        return CommandFault::File.status();
    }
    end(ended, err).status
}

/// Does a job over an output that is gathered, and returns the exit status. If the job isn't done, a person reads more
/// about why. None if it isn't the last try, and the job is kept out for a moment: then nothing was printed.
fn obey_once<F, R, E>(
    rt: &R,
    job: &Job<'_>,
    told: Audience,
    is_last: bool,
    err: &mut E,
) -> Option<u8>
where
    F: EndedFile + Read + Locks + OpenFile + Drop,
    R: Files<File = F> + Input + Print + AllocGlobal,
    E: Write,
    requires { IsFit job.now }
{
    let failures = Failures::none();
    let ended = awaited(
        run_keeping_causes(rt, job, told, &failures, err),
        failures.cause(),
    );
    if !is_last && is_kept_out(job, ended) {
        return None;
    }
    let unread = is_looked_through(job) && is_unread(ended, failures.cause());
    let status = report_end(ended, unread, err);
    if told != Audience::Program && !unread {
        explain_end(rt, job, ended, failures.cause(), err);
    }
    Some(status)
}

/// Does a job, and returns the exit status. One that waits for its image does so for a second.
fn obey_job<F, R, E>(rt: &R, job: &Job<'_>, told: Audience, err: &mut E) -> u8
where
    F: EndedFile + Read + Locks + OpenFile + Drop,
    R: Files<File = F> + Clock + Input + Print + AllocGlobal,
    E: Write,
    requires { IsFit job.now }
{
    if told != Audience::Program {
        announce_job(rt, job, err);
    }
    for _ in 0..TRIES {
        if let Some(status) = obey_once(rt, job, told, false, err) {
            return status;
        }
        thread::sleep(rt, Duration::from_millis(PAUSE));
    }
    match obey_once(rt, job, told, true, err) {
        Some(status) => status,
        None => CommandFault::InUse.status(),
    }
}

/// An argument as `clap` takes it. Directly after `help` the flag `--help` asks for the help of `help` itself.
fn text_of<'a>(before: &[&str], word: &'a str) -> &'a str {
    let is_help = before.len() == 2 && before.get(1) == Some(&"help");
    if is_help && (word == "--help" || word == "-h") {
        "help"
    } else {
        word
    }
}

/// The arguments as texts, all at one lifetime. The first is the name by which the program was called.
fn texts_of<'a>(alloc: Global, words: &'a [String]) -> Result<Vec<&'a str>, AllocError> {
    let mut texts = Vec::new(alloc);
    for word in words {
        let text = text_of(texts.as_slice(), word.as_str());
        texts.push(text)?;
    }
    Ok(texts)
}

/// The words after `help`, with a space between them, which may be one that the program prints.
fn word_after_help(alloc: Global, texts: &[&str]) -> Result<String, AllocError> {
    let mut word = String::new(alloc);
    if texts.get(1) != Some(&"help") {
        return Ok(word);
    }
    for (number, text) in texts.iter().enumerate() {
        if number > 2 {
            word.push_str(" ")?;
        }
        if number >= 2 {
            word.push_str(text)?;
        }
    }
    Ok(word)
}

/// Does what these words ask for, and returns the exit status.
fn obey_words<F, R, E>(rt: &R, texts: &[&str], told: Audience, err: &mut E) -> u8
where
    F: EndedFile + Read + Locks + OpenFile + Drop,
    R: Files<File = F> + Clock + Input + Print + AllocGlobal,
    E: Write,
{
    let line = command_line(rt.alloc(), texts);
    let told = if line.is_explained {
        told.explained()
    } else {
        told
    };
    match line.job {
        Ok(job) if writes_dash(&job) => refuse_words(rt, &JobFault::Path, texts, err),
        Ok(job) => obey_job(rt, &read_dashes(job), told, err),
        Err(fault) => refuse_words(rt, &fault, texts, err),
    }
}

/// Prints that a command is wanted, and the program's help, for a person who typed its name alone. Returns the exit status of refused
/// words.
fn tell_help<E: Write>(alloc: Global, name: &str, err: &mut E) -> u8 {
    let _ = writeln!(
        err,
        "error: 'ledger' requires a subcommand but one was not provided\n"
    );
    if let Err(JobFault::Words(help)) = command_line(alloc, &[name, "--help"]).job {
        let _ = write!(err, "{help}");
    }
    WORDS
}

/// Does what these words ask for, or prints what one means that the program prints, and returns the exit status.
fn obey<F, R, E>(rt: &R, words: &[String], told: Audience, err: &mut E) -> u8
where
    F: EndedFile + Read + Locks + OpenFile + Drop,
    R: Files<File = F> + Clock + Input + Print + AllocGlobal,
    E: Write,
{
    let texts = match texts_of(rt.alloc(), words) {
        Ok(texts) => texts,
        Err(error) => return refuse(err, &io::Error::from(error)),
    };
    if let [name] = texts.as_slice() {
        return tell_help(rt.alloc(), name, err);
    }
    let word = match word_after_help(rt.alloc(), texts.as_slice()) {
        Ok(word) => word,
        Err(error) => return refuse(err, &io::Error::from(error)),
    };
    match meaning_of(word.as_str()) {
        Some(meaning) => print_meaning(rt, word.as_str(), meaning, err),
        None => obey_words(rt, texts.as_slice(), told, err),
    }
}

/// Reports that an argument isn't UTF-8, and does what the other words ask for if that is to look at several images. Returns the
/// exit status: that of refused words, or a higher one of the images.
fn obey_rest<F, R, E>(rt: &R, told: Audience, err: &mut E) -> u8
where
    F: EndedFile + Read + Locks + OpenFile + Drop,
    R: Files<File = F> + Clock + Env + Input + Print + AllocGlobal,
    E: Write,
{
    let _ = writeln!(
        err,
        "error: invalid UTF-8 was detected in one or more arguments"
    );
    match words_left(rt, rt.alloc(), told != Audience::Program, err) {
        Some(words) => obey(rt, words.as_slice(), told, err).max(WORDS),
        None => WORDS,
    }
}

/// The whole program: does what the words of its command line ask for, and returns its exit status. What it prints goes
/// to the runtime's output. What it reports goes to `err`, which is the runtime's standard error. `told` says who reads it.
pub fn program<F, R, E>(rt: &R, told: Audience, err: &mut E) -> u8
where
    F: EndedFile + Read + Locks + OpenFile + Drop,
    R: Files<File = F> + Clock + Env + Input + Print + AllocGlobal,
    E: Write,
{
    let err = &mut LimitedErrors::new(rt, err);
    let collected: Result<Vec<String>, AllocError> = match env::args(rt) {
        Ok(words) => words.collect(rt.alloc()),
        Err(error) if error.kind() == io::ErrorKind::InvalidData => {
            return obey_rest(rt, told, err);
        }
        Err(error) => return refuse(err, &error),
    };
    match collected {
        Ok(words) => obey(rt, words.as_slice(), told, err),
        Err(error) => refuse(err, &io::Error::from(error)),
    }
}
