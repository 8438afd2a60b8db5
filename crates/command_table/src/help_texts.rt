//! What help says below the words of the program, at most 80 columns wide.

/// The exit statuses, and where more is.
pub(crate) const MORE: &str = "\
The commands from list to sector look at disks. Those from records to trim
rescue what is on them, those from new to sort change them, and those from
format to copy run a shop.

Exit status:
  0  success
  1  a fault was found, or an image, a script or records were refused
  2  the command line was refused
  3  a file or the output can't be had, read or written (FILE), memory doesn't
     suffice (NO MEMORY), writing or syncing an image failed (DEVICE), or
     another program has the image (IN USE)

While IMAGE-log stands beside IMAGE, the shop is what the log says, and each
command reads it there. LOG with status 1: the log is of another image.
LOG AWAY: it isn't there.
If a command fails, standard error has one line. On a terminal, or with
--explain, a second line names the file or says what to do.

\"ledger help OWNEDTWICE\" says what a word means that a command printed.
\"ledger COMMAND --help\" has an example of each command. Debian's package calls
the program ledger-1541. Its page \"man ledger-1541\" has all of this. There and
in docs/KEEPERS.md is every word that the commands print.";
