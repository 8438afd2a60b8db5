//! What follows of chains.
ghost use Rattle.std.specs.Prelude.{◌≡◌, ◌<◌, List, Some, length, ℕ};
ghost use Rattle.std.specs.List.{AllByRecursion};
ghost use Rattle.long_chains.specs.Chains.{chain_of};

/// A disk of 35 tracks without error bytes, as a 1541 has it, has no chain that goes on past track 35: each sector of a chain that comes to
/// its end is on tracks 1 to 35.
pub fn disks_end_at_track_35()
    ensures { (image : List ℕ) → length image ≡ 174848 → (t s : ℕ) (ns : List ℕ) → chain_of image t s ≡ Some ns
        → AllByRecursion (λ n. n < 683) ns }
{}
