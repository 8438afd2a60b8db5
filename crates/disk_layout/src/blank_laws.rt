//! Laws of the definitions: the contracts of functions that do nothing.
ghost use Rattle.std.specs.Prelude.{◌≡◌};
ghost use Rattle.disk_layout.specs.BlankLayout.{BlankHasTop, BlankIsClean, BlankIsWhole, blank_top};

/// The blank image is clean, whatever the disk held before. Its directory, its two files and its map agree. Each file
/// is found by its name, and all its records are empty.
pub fn blank_is_clean()
    ensures { BlankIsClean }
{}

/// All files of the blank image are whole: no side sector lists more than its chain, and no file ends in zeros.
pub fn blank_is_whole()
    ensures { BlankIsWhole }
{}

/// On the blank image STOCK can grow to record `blank_top tills`, and no further: to 8819 with 64 tills.
pub fn blank_has_top()
    ensures top { BlankHasTop }
    ensures of_64 { blank_top 64 ≡ 8819 }
{}
