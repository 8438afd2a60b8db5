//! Laws of maps and pages, each the contract of a function that does nothing.
ghost use Rattle.std.specs.Prelude.{◌≡◌, ◌≤◌, ◌↔◌, ◌∷◌, [], ℕ, IsFalse, List, Option, length};
ghost use Rattle.d64_image.specs.Images.{Image, Sector};
ghost use Rattle.d64_image.specs.Places.{index_of};
ghost use Rattle.d64_image.specs.declared.place.Place.{Place};
ghost use Rattle.disk_layout.specs.Chain.{EachOnce};
ghost use Rattle.disk_layout.specs.Directory.{map_place};
ghost use Rattle.disk_layout.specs.Layout.{IsLayout, Layout, owners};
ghost use Rattle.disk_layout.specs.declared.faults.Fault.{Fault};
ghost use Rattle.disk_pictures.specs.Drawings.{IsDrawn, IsDrawnOnce, IsOwnedBy, owner_of};
ghost use Rattle.disk_pictures.specs.Html.{Show, html_of};
ghost use Rattle.disk_pictures.specs.Maps.{IsEntrys, entry_mark, is_wide, sector_mark};
ghost use Rattle.disk_pictures.specs.Markup.{IsEscaped, markup_of};
ghost use Rattle.disk_pictures.specs.Petscii.{petscii_of};
ghost use Rattle.disk_pictures.specs.Pictures.{drawing_text, page_text, picture_page};
ghost use Rattle.disk_pictures.specs.Posters.{poster_of, poster_text};
ghost use Rattle.disk_pictures.specs.Sectors.{as_printed, by_number, drawing_by, times};
ghost use Rattle.disk_pictures.specs.Sheets.{refused_tile, small_drawing, tile_text};
ghost use Rattle.disk_pictures.specs.Texts.{is_fault_at};
ghost use Rattle.disk_pictures.specs.TileSectors.{small_by};
ghost use Rattle.disk_pictures.specs.declared.owners.Owner.{Owner};
ghost use Rattle.disk_pictures.specs.declared.verdicts.Verdict.{Verdict};
ghost use Rattle.disk_pictures.specs.declared.owners.Owner.TheVariants as kinds;

/// Names, id and version of a disk bring nothing but text into a page, a poster or a tile. As they are shown there, typed
/// or as a C64 shows them, bytes of a disk have no quotation mark, no `<` and no `>`, and each `&` of theirs begins an
/// escape. A name of at most 16 bytes takes at most 48 as it is typed. So whatever the bytes of the image are, the markup
/// is that of the page that shows none of them.
pub fn names_bring_no_markup()
    ensures none { (bytes : List ℕ) → markup_of (html_of bytes) ≡ [] }
    ensures escaped { (bytes : List ℕ) → IsEscaped (html_of bytes) }
    ensures signs { (bytes : List ℕ) → (markup_of (petscii_of bytes) ≡ []) × IsEscaped (petscii_of bytes) }
    ensures short { (bytes : List ℕ) → length bytes ≤ 16 → length (html_of bytes) ≤ 48 }
    ensures page { (v : Verdict) (map : Sector) (l : Layout)
        → markup_of (picture_page v map l) ≡ markup_of (page_text (λ _. []) (λ _. []) v map l) }
    ensures poster { (v : Verdict) (map : Sector) (l : Layout)
        → markup_of (poster_of v map l) ≡ markup_of (poster_text (λ _. []) (λ _. []) v map l) }
    ensures tile { (path : List ℕ) (v : Verdict) (map : Sector) (l : Layout)
        → markup_of (tile_text html_of petscii_of path v map l) ≡ markup_of (tile_text (λ _. []) (λ _. []) path v map l) }
    ensures refused { (path told : List ℕ)
        → markup_of (refused_tile html_of path told) ≡ markup_of (refused_tile (λ _. []) path told) }
{}

/// Each sector of the disk has one owner, as which it is drawn. In the drawing of an image that owner has it. Neither the
/// directory nor an entry's blocks nor its side sectors have a sector twice. A sector that is drawn as nobody's is in
/// none of these.
pub fn sectors_are_drawn_once()
    ensures { (img : Image) (l : Layout) → IsDrawn img l → (p : Place) → IsDrawnOnce l p (owner_of l p) }
{}

/// The drawing of a page has 683 sectors, each once, whatever the image is. To see that, the drawing is written once
/// more, with the number of its sector for each arc and nothing for the rest. Then it has 683 numbers, and that of each
/// sector once. With each arc and the rest as they are, it is the drawing that is printed.
pub fn pages_have_683_sectors()
    ensures printed { (show : Show) (v : Option Fault) (map : Sector) (l : Layout)
        → drawing_by as_printed show v map l ≡ drawing_text show v map l }
    ensures all { (img : Image) (l : Layout) → IsDrawn img l → (show : Show) (v : Option Fault) (map : Sector)
        → length (drawing_by by_number show v map l) ≡ 683 }
    ensures once { (img : Image) (l : Layout) → IsDrawn img l → (show : Show) (v : Option Fault) (map : Sector)
        (p : Place) → times (index_of p) (drawing_by by_number show v map l) ≡ 1 }
{}

/// The small drawing of a tile has 683 sectors, each once. To see that, the drawing is written once more, with the number
/// of its sector for each stroke and nothing for the rest. Then it has 683 numbers, and that of each sector once. With
/// each stroke and the rest as they are, it is the drawing that is printed.
pub fn tiles_have_683_sectors()
    ensures printed { (v : Option Fault) (map : Sector) (l : Layout)
        → small_by as_printed v map l ≡ small_drawing v map l }
    ensures all { (v : Option Fault) (map : Sector) (l : Layout) → length (small_by by_number v map l) ≡ 683 }
    ensures once { (v : Option Fault) (map : Sector) (l : Layout) (p : Place)
        → times (index_of p) (small_by by_number v map l) ≡ 1 }
{}

/// What is drawn of an image with a layout is exactly that layout: the directory's sectors, and of each entry its own
/// blocks and side sectors, in order. No sector stands in it twice. Each sector of the disk is drawn with the owner that
/// it has in the layout; if it has none, as nobody's.
pub fn sound_disks_are_drawn_as_laid_out()
    ensures drawn { (img : Image) (l drawn : Layout) → IsLayout img l → IsDrawn img drawn → drawn ≡ l }
    ensures once { (img : Image) (l drawn : Layout) → IsLayout img l → IsDrawn img drawn
        → EachOnce (map_place ∷ owners drawn) }
    ensures owner { (img : Image) (l drawn : Layout) → IsLayout img l → IsDrawn img drawn
        → (p : Place) (o : Owner) → IsOwnedBy l p o → owner_of drawn p ≡ o }
{}

/// The marks of a map distinguish entries, on every disk: a directory has 144 entries at most. Two sectors of entries
/// have one mark exactly if they belong to one entry, both as blocks or both as side sectors. The line of the entry
/// begins with the mark of its blocks. The sector of a fault has a mark of its own.
pub fn marks_tell_entries_apart()
    ensures apart { (l : Layout) → length l.files ≤ 144 → (v : Option Fault) (map : Sector) (p q : Place)
        → IsFalse (is_fault_at v p) → IsFalse (is_fault_at v q) → IsEntrys (owner_of l p)
        → (sector_mark v map l p ≡ sector_mark v map l q) ↔ (owner_of l p ≡ owner_of l q) }
    ensures line { (l : Layout) (v : Option Fault) (map : Sector) (p : Place) (k : ℕ) → IsFalse (is_fault_at v p)
        → owner_of l p ≡ kinds.Blocks k → sector_mark v map l p ≡ entry_mark (is_wide l) k }
{}
