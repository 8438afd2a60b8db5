//! Laws of comparisons, each the contract of a function that does nothing.
ghost use Rattle.std.specs.Prelude.{◌≡◌, ◌≢◌, []};
ghost use Rattle.d64_image.specs.Images.{Image, sector};
ghost use Rattle.d64_image.specs.Places.{index_of};
ghost use Rattle.d64_image.specs.declared.place.Place.{Place};
ghost use Rattle.disk_pictures.specs.ComparedPages.{changes_text, comparison_page, comparison_text};
ghost use Rattle.disk_pictures.specs.Comparisons.{Disk, each_difference, number_of};
ghost use Rattle.disk_pictures.specs.Html.{Show};
ghost use Rattle.disk_pictures.specs.Markup.{markup_of};
ghost use Rattle.disk_pictures.specs.Sectors.{times};

/// The sectors that a comparison marks are those in which the two disks differ, each once, and no other. A disk compared
/// with itself has no mark and no row. Bytes of the disks bring no markup into the page: its markup is that of the page
/// that shows none of them.
pub fn comparisons_show_what_differs()
    ensures marked { (a b : Image) (p : Place) → sector a p ≢ sector b p
        → times (index_of p) (each_difference number_of a b) ≡ 1 }
    ensures others { (a b : Image) (p : Place) → sector a p ≡ sector b p
        → times (index_of p) (each_difference number_of a b) ≡ 0 }
    ensures same { (d : Disk) (show signs : Show) → (each_difference number_of d.image d.image ≡ [])
        × (changes_text show signs d d ≡ []) }
    ensures page { (a b : Disk) → markup_of (comparison_page a b)
        ≡ markup_of (comparison_text (λ _. []) (λ _. []) a b) }
{}
