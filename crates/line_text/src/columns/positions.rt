//! Positions of the pieces of a record.
ghost use Rattle.std.specs.Prelude.{◌≡◌, IfSome, IsFalse, IsNone, IsTrue, slice_index};
ghost use Rattle.line_text.specs.columns.Positions.{ArePositions, AreRising};
ghost use Rattle.line_text.specs.columns.Positions as positions;

/// How many pieces a record has at most.
pub const MOST_PIECES: usize = 32;

/// The positions at which the pieces of a record begin. They count from 1.
#[derive(Clone, Copy, Debug, PartialEq, Eq)]
pub struct Positions {
    starts: [u8; MOST_PIECES],
    count: usize,
}

/// Whether each number is greater than the one before, and the first one than 0.
fn are_rising(list: &[u8]) -> bool
    ensures yes { IsTrue result → AreRising 0 list.now }
    ensures no { IsFalse result → ¬ (AreRising 0 list.now) }
{
    let mut before = 0;
    for &start in list {
        if start <= before {
            return false;
        }
        before = start;
    }
    true
}

/// Whether the first number is 1.
fn begins_at_one(list: &[u8]) -> bool
    ensures yes { IsTrue result → slice_index list.now 0 ≡ 1 }
    ensures no { IsFalse result → ¬ (slice_index list.now 0 ≡ 1) }
{
    match list {
        [1, ..] => true,
        _ => false,
    }
}

impl Positions {
    /// These positions. None unless the first is 1, each is greater than the one before, and they are 32 at most.
    pub fn new(list: &[u8]) -> Option<Positions>
        ensures some { IfSome result (λ made. (positions.starts made ≡ list.now) × ArePositions list.now) }
        ensures none { IsNone result → ¬ (ArePositions list.now) }
    {
        if list.len() > MOST_PIECES || !begins_at_one(list) || !are_rising(list) {
            return None;
        }
        let mut starts = [0; MOST_PIECES];
        starts[..list.len()].copy_from_slice(list);
        Some(Positions {
            starts,
            count: list.len(),
        })
    }

    /// The positions, lowest first.
    pub fn as_slice(&self) -> &[u8]
        ensures { result.now ≡ positions.starts self.now }
    {
        &self.starts[..self.count.min(MOST_PIECES)]
    }
}
