//! The names that new files can have.
ghost use Rattle.std.specs.Prelude.{◌↔◌, IsTrue};
ghost use Rattle.file_changes.specs.NewNames.{IsNewName};

/// Whether a new file can have this name: 1 to 16 bytes, the last of which isn't a shifted space ($A0), since those
/// fill up the name in the directory. Any other byte may stand in it, and a shifted space within.
pub(crate) fn is_new_name(name: &[u8]) -> bool
    ensures { IsTrue result ↔ IsNewName name.now }
{
    !name.is_empty() && name.len() <= 16 && name[name.len() - 1] != 0xA0
}
