//! Jobs over a host that says what its files held: what is promised of them has no premise left.
ghost use Rattle.std.specs.Prelude.{◌≡◌, ◌⊎◌, Err, List, Ok, Option, Some, take, ℕ, true};
ghost use Rattle.command_faults.specs.declared.faults.CommandFault.TheVariants as faults;
ghost use Rattle.image_file.specs.Remains.{unknown};
ghost use Rattle.ledger_jobs.specs.JobRights.{MayDo};
ghost use Rattle.ledger_jobs.specs.JobRuns.{IsJobOver};
ghost use Rattle.ledger_jobs.specs.Jobs.{IsFit};
ghost use Rattle.ledger_jobs.specs.declared.jobs.Job as jobs;
ghost use Rattle.image_edits.specs.Trims.{IsTrimRun, as_trimmed};
ghost use Rattle.opened_files.specs.Ends.{EndsAs, JobEnd};
ghost use Rattle.opened_files.specs.HostFiles.{OfImage, OfText, OfWritten, TrimEnds};
ghost use Rattle.opened_files.specs.Makings.{IsMadeAt};
ghost use Rattle.test_files.specs.OneFile.{one_remains, one_traces};
ghost use Rattle.test_files.specs.KnownFolders.{snapshot_changed, snapshot_folders, snapshot_logs, snapshot_replaced, snapshot_traces};
ghost use Rattle.test_files.specs.KnownServices.{HasServed, HasStopped, KeepsAnswers};
ghost use Rattle.test_files.specs.Snapshots.{image_path, snapshot_file, snapshot_rights, snapshot_stands, text_path};
ghost use Rattle.test_files.specs.declared.snapshots.host.Snapshot as hosts;
ghost use Rattle.disk_layout.specs.declared.faults.Fault.{Fault as Found};
ghost use Rattle.host_session.specs.shop.Shop.{Shop};
ghost use Rattle.line_server.specs.Scripts.{crlf_text};
ghost use Rattle.line_text.specs.scripts.Lines.{lines};
ghost use Rattle.shop_jobs.specs.KeptServices.{IsPlayKept, IsServiceKept};
ghost use Rattle.shop_jobs.specs.Replies.{IsShopOf};

use crate::snapshots::host::Snapshot;
use crate::snapshots::open_file::SnapshotFile;
use command_faults::CommandFault;
use disk_layout::Fault;
use image_edits::do_trim;
use image_file::HostFiles;
use ledger_jobs::{Job, do_job};
use shop_jobs::JobOutput;
use std::io::{Read, Seek, Write};

/// Does a job over a snapshot, where each job may be done.
pub fn do_over<W: JobOutput>(
    host: &Snapshot<'_>,
    job: &Job<'_>,
    out: &mut W,
) -> Result<Option<Fault>, CommandFault>
    requires fit { IsFit job.now }
    ensures { IsJobOver ⟦<Snapshot<'static> as HostFiles>⟧ ⟦<SnapshotFile<'static> as Read>⟧
        ⟦<SnapshotFile<'static> as Seek>⟧ snapshot_file snapshot_logs snapshot_folders snapshot_rights snapshot_stands
        snapshot_traces unknown snapshot_changed snapshot_replaced (λ host. Some host.text.now) W.contents W.replies host.now
        job.now
        out.old out.new result }
{
    do_job(host, job, out)
}

/// Prints tracks 1 to 35 of the image at a path of a snapshot, and on `err` what isn't there.
pub fn trim_over<W: Write, E: Write>(
    host: &Snapshot<'_>,
    path: &str,
    out: &mut W,
    err: &mut E,
) -> Result<Option<Fault>, CommandFault>
    ensures { OfImage snapshot_rights snapshot_stands host.now path.now (λ all. TrimEnds out.old out.new err.old err.new
        result (EndsAs as_trimmed result (IsTrimRun W.contents E.contents (take 206115 all) out.old out.new err.old err.new))) }
{
    do_trim(host, path, out, err)
}

/// What is promised of jobs over the bytes that a host says isn't empty: a snapshot meets each premise, so that what is said of
/// those bytes is said of what it holds, and it gives each right.
pub fn premises_are_met()
    // of an image that is read, where no log is said to be
    ensures image { (host : hosts.Snapshot) (bytes : List ℕ) → host.quiet ≡ true
        → OfImage snapshot_rights snapshot_stands host image_path (λ all. bytes ≡ all) → bytes ≡ host.image.now }
    // of one that is written
    ensures written { (host : hosts.Snapshot) (bytes : List ℕ)
        → OfWritten snapshot_stands host image_path (λ all. bytes ≡ all) → bytes ≡ host.image.now }
    // of a script, or another text
    ensures text { (host : hosts.Snapshot) (bytes : List ℕ)
        → OfText snapshot_stands host text_path (λ all. bytes ≡ all) → bytes ≡ host.text.now }
    ensures rights { (host : hosts.Snapshot) (job : jobs.Job) → MayDo snapshot_rights host job }
{}

/// What is promised of `serve` and `play --sync` has no premise left over a snapshot of a shop: done, all lines of the input are
/// answered, and the folder has the shop after them alone; so it has that after some first lines if the input or the output failed.
/// However a service ended, what was printed was durable by then, and stayed so.
pub fn services_land<W: JobOutput>()
    ensures served { (host : hosts.Snapshot) (input : List ℕ) (old new : W) (found : Option Found) (shop : Shop)
        → IsShopOf host.image.now shop → IsServiceKept ⟦<Snapshot<'static> as HostFiles>⟧ ⟦<SnapshotFile<'static> as Read>⟧
        ⟦<SnapshotFile<'static> as Seek>⟧
        snapshot_logs snapshot_folders snapshot_stands snapshot_rights snapshot_traces W.contents W.replies (Some input) host image_path
        old new (Ok found) → HasServed ⟦<Snapshot<'static> as HostFiles>⟧ ⟦<SnapshotFile<'static> as Read>⟧
        ⟦<SnapshotFile<'static> as Seek>⟧
        host shop input W.contents old new }
    ensures played { (host : hosts.Snapshot) (old new : W) (found : Option Found) (shop : Shop)
        → IsShopOf host.image.now shop → IsPlayKept ⟦<Snapshot<'static> as HostFiles>⟧ ⟦<SnapshotFile<'static> as Read>⟧
        ⟦<SnapshotFile<'static> as Seek>⟧
        snapshot_logs snapshot_folders snapshot_stands snapshot_rights snapshot_traces W.contents W.replies host image_path text_path
        old new (Ok found) → HasServed ⟦<Snapshot<'static> as HostFiles>⟧ ⟦<SnapshotFile<'static> as Read>⟧
        ⟦<SnapshotFile<'static> as Seek>⟧
        host shop (crlf_text (lines host.text.now)) W.contents old new }
    ensures stopped { (host : hosts.Snapshot) (input : List ℕ) (old new : W) (shop : Shop)
        → IsShopOf host.image.now shop → IsServiceKept ⟦<Snapshot<'static> as HostFiles>⟧ ⟦<SnapshotFile<'static> as Read>⟧
        ⟦<SnapshotFile<'static> as Seek>⟧
        snapshot_logs snapshot_folders snapshot_stands snapshot_rights snapshot_traces W.contents W.replies (Some input) host image_path
        old new (Err faults.File) → (new ≡ old) ⊎ HasStopped ⟦<Snapshot<'static> as HostFiles>⟧ ⟦<SnapshotFile<'static> as Read>⟧
        ⟦<SnapshotFile<'static> as Seek>⟧
        host shop input }
    ensures answered { (host : hosts.Snapshot) (input : List ℕ) (old new : W) (end : JobEnd) (shop : Shop)
        → IsShopOf host.image.now shop → IsServiceKept ⟦<Snapshot<'static> as HostFiles>⟧ ⟦<SnapshotFile<'static> as Read>⟧
        ⟦<SnapshotFile<'static> as Seek>⟧
        snapshot_logs snapshot_folders snapshot_stands snapshot_rights snapshot_traces W.contents W.replies (Some input) host
        image_path old new end → (new ≡ old) ⊎ KeepsAnswers ⟦<Snapshot<'static> as HostFiles>⟧
        ⟦<SnapshotFile<'static> as Read>⟧ ⟦<SnapshotFile<'static> as Seek>⟧
        shop input W.contents W.replies old new }
{}

/// What is said of an image that a job makes can hold, and on a host where one file was made it holds of its path and its bytes
/// alone.
pub fn made_images_are_told()
    ensures met { (path image : List ℕ) → IsMadeAt (one_remains path image) (one_traces path image) tt path image }
    ensures only { (path image other bytes : List ℕ)
        → IsMadeAt (one_remains path image) (one_traces path image) tt other bytes → (other ≡ path) × (bytes ≡ image) }
{}
