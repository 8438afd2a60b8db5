//! The law on files that are whole, the contract of a function that does nothing.

ghost use Rattle.std.specs.Prelude.{None};
ghost use Rattle.d64_image.specs.Images.{Image};
ghost use Rattle.disk_layout.specs.Layout.{IsLayout, Layout};
ghost use Rattle.damaged_files.specs.cut.Told.{HasNoCut};
ghost use Rattle.disk_layout.specs.Whole.{IsWhole};

/// On a disk whose files are whole no file is cut short: `find_cut` finds none. Whole files are those of `IsWhole` of
/// `disk_layout`. Sessions, runs, commands and repairs keep them whole at each moment.
pub fn whole_is_uncut()
    ensures { (img : Image) (l : Layout) → IsWhole img → IsLayout img l → HasNoCut img l None }
{}
