//! The log of the new image is made first, and its name is the commit.
ghost use Rattle.std.specs.Prelude.{◌≡◌, ◌<◌, ◌*◌, ℕ, List, IfOk, OnOk, drop, length, take};
ghost use Rattle.one_host.specs.Calls.{turned};
ghost use Rattle.one_host.specs.History.{HeldOnly, Known, Since, Until};
ghost use Rattle.one_host.specs.Rights.{Look, Make, May, Remove, Replace};
ghost use Rattle.one_host.specs.declared.parts.Entry.TheVariants.{Leads, Nothing};
ghost use Rattle.replaced_images.specs.Replaced.{Always, Gives, GivesBeside, Logs, Rests, log_of, making_of, whole};
ghost use Rattle.replaced_images.specs.Stages.{Has, Makes, Partly};

use one_host::{Failure, Handle, Host};

/// The paths of an image, its log, and a log in the making.
#[derive(Clone, Copy)]
pub struct Names<'a> {
    /// The image's.
    pub image: &'a str,
    /// The log's.
    pub log: &'a str,
    /// That of a log in the making.
    pub making: &'a str,
}

/// Makes a file of a log, with the name of one in the making, and syncs it.
fn make_log<H: Host>(host: &mut H, names: &Names, log: &[u8]) -> Result<Handle, Failure>
    requires names { names.now.making.now ≡ making_of names.now.image.now }
    requires make { May H.rights Make names.now.making.now }
    requires look { May H.rights Look names.now.image.now }
    ensures any_moment { Known H.history → (n : ℕ) (logs : Logs) (i : ℕ) (old new : List ℕ)
        → Since n (Rests names.now.image.now i old) (H.history.world host.old)
        → HeldOnly H.history host.old host.new (Until n (Gives logs names.now.image.now old new)) }
    ensures ok { Known H.history → (n : ℕ) (i : ℕ) (old : List ℕ)
        → Since n (Rests names.now.image.now i old) (H.history.world host.old)
        → IfOk result (λ file. Since n (Makes names.now.image.now i file.number (whole old) (whole log.now) (whole Nothing))
        (H.history.world host.new)) }
{
    let file = host.make(names.making, 0o600)?;
    host.write_at(file, 0, log)?;
    host.sync(file)?;
    host.sync_folder(names.image)?;
    Ok(file)
}

/// Gives a log in the making the name of the log, and syncs that. From then on the folder stands for the new image.
fn name_log<H: Host>(host: &mut H, names: &Names) -> Result<(), Failure>
    requires log { names.now.log.now ≡ log_of names.now.image.now }
    requires making { names.now.making.now ≡ making_of names.now.image.now }
    requires from { May H.rights Remove names.now.making.now }
    requires to { May H.rights Replace names.now.log.now }
    requires look { May H.rights Look names.now.image.now }
    ensures any_moment { Known H.history → (n : ℕ) (logs : Logs) (i l : ℕ) (log old new : List ℕ) → GivesBeside logs log old new
        → length old ≡ length new
        → Since n (Makes names.now.image.now i l (whole old) (whole log) (whole Nothing)) (H.history.world host.old)
        → HeldOnly H.history host.old host.new (Until n (Gives logs names.now.image.now old new)) }
    ensures ok { Known H.history → (n : ℕ) (i l : ℕ) (log old : List ℕ)
        → Since n (Makes names.now.image.now i l (whole old) (whole log) (whole Nothing)) (H.history.world host.old)
        → OnOk result (Since n (Has names.now.image.now i l (whole old) (whole log) (whole (Leads l))) (H.history.world host.new)) }
{
    host.rename(names.making, names.log)?;
    host.sync_folder(names.image)?;
    Ok(())
}

/// A sector of an image.
fn sector(image: &[u8], index: usize) -> &[u8]
    requires sized { length image.now ≡ 174848 }
    requires within { index < 683 }
    ensures { result.now ≡ take 256 (drop (256 * index) image.now) }
{
    &image[256 * index..256 * index + 256]
}

/// Writes the sectors of the image's file. The folder has a log that stands for the new image.
fn write_sectors<H: Host>(
    host: &mut H,
    names: &Names,
    image: Handle,
    new: &[u8],
) -> Result<(), Failure>
    requires sized { length new.now ≡ 174848 }
    ensures any_moment { Known H.history → (n : ℕ) (logs : Logs) (l : ℕ) (log old : List ℕ) → GivesBeside logs log old new.now
        → length old ≡ length new.now
        → Since n (Has names.now.image.now image.number l (whole old) (whole log) (whole (Leads l))) (H.history.world host.old)
        → HeldOnly H.history host.old host.new (Until n (Always logs names.now.image.now new.now)) }
    ensures ok { Known H.history → (n : ℕ) (l : ℕ) (log old : List ℕ) → length old ≡ length new.now
        → Since n (Has names.now.image.now image.number l (whole old) (whole log) (whole (Leads l))) (H.history.world host.old)
        → OnOk result (Since n (Partly names.now.image.now image.number l old new.now log 174848) (H.history.world host.new)) }
{
    for k in 0..683usize {
        host.write_at(image, (256 * k) as u64, sector(new, k))?;
    }
    Ok(())
}

/// Writes the image's file, and syncs it.
fn write_image<H: Host>(
    host: &mut H,
    names: &Names,
    image: Handle,
    new: &[u8],
) -> Result<(), Failure>
    requires sized { length new.now ≡ 174848 }
    ensures any_moment { Known H.history → (n : ℕ) (logs : Logs) (l : ℕ) (log old : List ℕ) → GivesBeside logs log old new.now
        → length old ≡ length new.now
        → Since n (Has names.now.image.now image.number l (whole old) (whole log) (whole (Leads l))) (H.history.world host.old)
        → HeldOnly H.history host.old host.new (Until n (Always logs names.now.image.now new.now)) }
    ensures ok { Known H.history → (n : ℕ) (l : ℕ) (log old : List ℕ) → length old ≡ length new.now
        → Since n (Has names.now.image.now image.number l (whole old) (whole log) (whole (Leads l))) (H.history.world host.old)
        → OnOk result (Since n (Has names.now.image.now image.number l (whole new.now) (whole log) (whole (Leads l)))
        (H.history.world host.new)) }
{
    write_sectors(host, names, image, new)?;
    host.sync(image)?;
    Ok(())
}

/// Takes the log's name away, and syncs that.
fn unname_log<H: Host>(host: &mut H, names: &Names) -> Result<(), Failure>
    requires log { names.now.log.now ≡ log_of names.now.image.now }
    requires remove { May H.rights Remove names.now.log.now }
    requires look { May H.rights Look names.now.image.now }
    ensures any_moment { Known H.history → (n : ℕ) (logs : Logs) (i l : ℕ) (log old new : List ℕ) → GivesBeside logs log old new
        → Since n (Has names.now.image.now i l (whole new) (whole log) (whole (Leads l))) (H.history.world host.old)
        → HeldOnly H.history host.old host.new (Until n (Gives logs names.now.image.now old new)) }
    ensures ok { Known H.history → (n : ℕ) (i l : ℕ) (log new : List ℕ)
        → Since n (Has names.now.image.now i l (whole new) (whole log) (whole (Leads l))) (H.history.world host.old)
        → OnOk result (Since n (Has names.now.image.now i l (whole new) (whole log) (whole Nothing)) (H.history.world host.new)) }
{
    host.remove(names.log)?;
    host.sync_folder(names.image)?;
    Ok(())
}

/// Writes an image into its file, where a log with its name stands for it, and takes the log away. Unless somebody else changes a
/// file or a name, a power loss at any moment, and an error, leave a folder that stands for the image. `Ok`: the image's file has it,
/// there is no log, and all of that is synced.
pub fn land<H: Host>(host: &mut H, names: &Names, image: Handle, new: &[u8]) -> Result<(), Failure>
    requires sized { length new.now ≡ 174848 }
    requires log { names.now.log.now ≡ log_of names.now.image.now }
    requires remove { May H.rights Remove names.now.log.now }
    requires look { May H.rights Look names.now.image.now }
    ensures any_moment { Known H.history → (n : ℕ) (logs : Logs) (l : ℕ) (log old : List ℕ) → GivesBeside logs log old new.now
        → length old ≡ length new.now
        → Since n (Has names.now.image.now image.number l (whole old) (whole log) (whole (Leads l))) (H.history.world host.old)
        → HeldOnly H.history host.old host.new (Until n (Always logs names.now.image.now new.now)) }
    ensures ok { Known H.history → (n : ℕ) (l : ℕ) (log old : List ℕ) → length old ≡ length new.now
        → Since n (Has names.now.image.now image.number l (whole old) (whole log) (whole (Leads l))) (H.history.world host.old)
        → OnOk result (Since n (Has names.now.image.now image.number l (whole new.now) (whole log) (whole Nothing))
        (H.history.world host.new)) }
{
    write_image(host, names, image, new)?;
    unname_log(host, names)?;
    Ok(())
}

/// Puts new bytes in the place of an image's. `log` is a log that stands for them, whichever mix of both the image's file has.
/// Unless somebody else changes a file or a name, a power loss at any moment, and an error, leave a folder that stands for the
/// old image or for the new one. At Ok the image has the new bytes and no log, and all of that is synced.
pub fn replace<H: Host>(
    host: &mut H,
    names: &Names,
    image: Handle,
    log: &[u8],
    new: &[u8],
) -> Result<(), Failure>
    requires sized { length new.now ≡ 174848 }
    requires log { names.now.log.now ≡ log_of names.now.image.now }
    requires making { names.now.making.now ≡ making_of names.now.image.now }
    requires make { May H.rights Make names.now.making.now }
    requires from { May H.rights Remove names.now.making.now }
    requires to { May H.rights Replace names.now.log.now }
    requires remove { May H.rights Remove names.now.log.now }
    requires look { May H.rights Look names.now.image.now }
    ensures any_moment { Known H.history → (n : ℕ) (logs : Logs) (old : List ℕ) → GivesBeside logs log.now old new.now
        → length old ≡ length new.now
        → Since n (Rests names.now.image.now image.number old) (H.history.world host.old)
        → HeldOnly H.history host.old host.new (Until n (Gives logs names.now.image.now old new.now)) }
    ensures ok { Known H.history → (n : ℕ) (old : List ℕ) → length old ≡ length new.now
        → Since n (Rests names.now.image.now image.number old) (H.history.world host.old)
        → OnOk result ((l : ℕ) × Since n (Has names.now.image.now image.number l (whole new.now) (whole log.now) (whole Nothing))
        (H.history.world host.new)) }
{
    let file = make_log(host, names, log)?;
    name_log(host, names)?;
    land(host, names, image, new)?;
    host.close(file)?;
    Ok(())
}
