//! Laws of the files that are made, each the contract of a function that does nothing.
ghost use Rattle.std.specs.Prelude.{◌≤◌, ℕ, List, length, map};
ghost use Rattle.std.specs.List.{AllByRecursion};
ghost use Rattle.d64_image.specs.Images.{Image};
ghost use Rattle.d64_image.specs.declared.place.Place.{Place};
ghost use Rattle.disk_layout.specs.Chain.{EachOnce};
ghost use Rattle.file_rescues.specs.rescue.Folders.{StaysInside};
ghost use Rattle.file_rescues.specs.rescue.Rescues.{all_files};
ghost use Rattle.file_rescues.specs.declared.rescue.rescuing.Rescued.{Rescued};

/// Whatever the entries are called, if there are at most 144, each file that is made lies in the folder in which it is
/// made. No two files have one name, the index among them.
pub fn names_stay_inside()
    ensures inside { (image : List ℕ) (img : Image) (directory : List Place) (files : List Rescued) → length files ≤ 144
        → AllByRecursion (λ f. StaysInside f.name) (all_files image img directory files) }
    ensures once { (image : List ℕ) (img : Image) (directory : List Place) (files : List Rescued) → length files ≤ 144
        → EachOnce (map (λ f. f.name) (all_files image img directory files)) }
{}
