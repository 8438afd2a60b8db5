//! Laws of the files' names, each the contract of a function that does nothing.
ghost use Rattle.std.specs.Prelude.{◌≡◌, ◌≢◌, ◌<◌, ◌≤◌, ℕ, List, codes, length};
ghost use Rattle.line_text.specs.petscii.FileNames.{IsSafeName, file_name_of};
ghost use Rattle.line_text.specs.declared.petscii.file_names.Ending.{Ending};

/// Two entries never have the same file name, whatever their own names are. The files of one entry have different names
/// too. None of the names is that of the index.
pub fn names_differ()
    ensures numbers { (m n : ℕ) (a b : List ℕ) (s t : Ending) → m < 256 → n < 256
        → file_name_of m a s ≡ file_name_of n b t → m ≡ n }
    ensures endings { (m n : ℕ) (a b : List ℕ) (s t : Ending) → m < 256 → n < 256
        → file_name_of m a s ≡ file_name_of n b t → s ≡ t }
    ensures index { (n : ℕ) (a : List ℕ) (s : Ending) → file_name_of n a s ≢ codes "index.csv" }
{}

/// Whatever the entry's name is, any system takes the file's name, and the file is in the folder in which the name is
/// used.
pub fn names_are_safe()
    ensures { (n : ℕ) (a : List ℕ) (s : Ending) → n < 256 → length a ≤ 16 → IsSafeName (file_name_of n a s) }
{}
