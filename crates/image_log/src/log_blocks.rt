//! What is known of the blocks of a log.
ghost use Rattle.std.specs.Prelude.{◌≡◌, ◌↔◌, ◌≤◌, ◌<◌, ◌+◌, ◌&&◌, ℕ, IfOk, IfErr, IsTrue, List, Some, false, length, slice_index, suc, true};
ghost use Rattle.image_log.specs.Blocks.{IsBlank, block_at, committed as committed_in, first_commit, is_last, is_whole};
ghost use Rattle.image_log.specs.Readers.{AreKnown};
ghost use Rattle.image_log.specs.Recovered.{EndsTorn, whole_blocks};
ghost use Rattle.image_log.specs.Salvage.{commits_in};

use crate::blocks::is_whole_block;
use crate::log::{BLOCKS, MOST};
use crate::log_reader::LogReader;
use std::io;

/// What each block is, by its place.
#[derive(Drop)]
pub(crate) struct LogBlocks {
    // whole, and of this place
    whole: [bool; BLOCKS],
    // the last of its commit
    last: [bool; BLOCKS],
    // zeros alone
    blank: [bool; BLOCKS],
}

/// Whether a block has zeros alone.
fn is_blank(block: &[u8; 4096]) -> bool
    ensures { IsTrue result ↔ IsBlank block.now }
{
    for i in 0..4096usize {
        if block[i] != 0 {
            return false;
        }
    }
    true
}

/// Reads all blocks, the last one first.
pub(crate) fn read_blocks<L: LogReader>(log: &mut L) -> io::Result<LogBlocks>
    ensures known { IfOk result (λ blocks. (f : List ℕ) → L.bytes log.old ≡ Some f → 4194304 ≤ length f → AreKnown blocks f 0) }
    ensures same { L.bytes log.new ≡ L.bytes log.old }
    ensures cause { IfErr result (λ _. L.has_failed log.new ≡ true) }
{
    let mut blocks = LogBlocks {
        whole: [false; BLOCKS],
        last: [false; BLOCKS],
        blank: [false; BLOCKS],
    };
    let mut n = BLOCKS;
    while n > 0 {
        n -= 1;
        let block = log.read_block(n)?;
        blocks.whole[n] = is_whole_block(&block, n);
        blocks.last[n] = block[10] == 2;
        blocks.blank[n] = is_blank(&block);
    }
    Ok(blocks)
}

impl LogBlocks {
    /// How many blocks are whole, up to the first that isn't.
    pub(crate) fn count_whole(&self) -> usize
        ensures whole { (f : List ℕ) → AreKnown self.now f 0 → result ≡ whole_blocks f }
        ensures within { result ≤ 1024 }
    {
        for q in 0..BLOCKS {
            if !self.whole[q] {
                return q;
            }
        }
        BLOCKS
    }

    /// How many of these whole blocks there are up to the end of the last commit.
    pub(crate) fn count_committed(&self, whole: usize) -> usize
        requires { whole ≤ 1024 }
        ensures committed { (f : List ℕ) → AreKnown self.now f 0 → result ≡ committed_in (block_at f) whole }
        ensures few { result ≤ whole }
    {
        let mut n = whole;
        while n > 0 {
            if self.last[n - 1] {
                return n;
            }
            n -= 1;
        }
        0
    }

    /// How many of these whole blocks the first commit takes.
    pub(crate) fn count_first(&self, whole: usize) -> usize
        requires { whole ≤ 1024 }
        ensures first { (f : List ℕ) → AreKnown self.now f 0 → result ≡ first_commit (block_at f) whole }
        ensures few { result ≤ whole }
    {
        for q in 0..whole {
            if self.last[q] {
                return q + 1;
            }
        }
        0
    }

    /// How many of the first `end` blocks are the last of their commit.
    pub(crate) fn count_commits(&self, end: usize) -> usize
        requires { end ≤ 1024 }
        ensures commits { (f : List ℕ) → AreKnown self.now f 0 → result ≡ commits_in (block_at f) end }
        ensures few { result ≤ end }
    {
        let mut count = 0;
        for q in 0..end {
            if self.last[q] {
                count += 1;
            }
        }
        count
    }

    /// How many blocks there are up to the last one that has more than zeros, but `end` at least.
    pub(crate) fn count_written(&self, end: usize) -> usize
        requires { end ≤ 1024 }
        ensures from { end ≤ result }
        ensures within { result ≤ 1024 }
        ensures blank { (f : List ℕ) → AreKnown self.now f 0 → (q : ℕ) → result ≤ q → q < 1024 → IsBlank (block_at f q) }
        ensures last { (f : List ℕ) → AreKnown self.now f 0 → (q : ℕ) → end ≤ q → suc q ≡ result
            → IsBlank (block_at f q) → ⊥ }
    {
        let mut n = BLOCKS;
        while n > end {
            if !self.blank[n - 1] {
                return n;
            }
            n -= 1;
        }
        end
    }

    /// Whether none of these blocks is whole and the last of its commit.
    fn none_ends(&self, from: usize, to: usize) -> bool
        requires { to ≤ 1024 }
        ensures { (f : List ℕ) → AreKnown self.now f 0 → IsTrue result ↔ ((p : ℕ) → from ≤ p → p < to
            → is_whole p (block_at f p) && is_last (block_at f p) ≡ false) }
    {
        for p in from..to {
            if self.whole[p] && self.last[p] {
                return false;
            }
        }
        true
    }

    /// Whether one torn commit is all that stands after the first `end` blocks, if anything does.
    pub(crate) fn ends_torn(&self, end: usize) -> bool
        requires { end ≤ 1024 }
        ensures { (f : List ℕ) → AreKnown self.now f 0 → IsTrue result ↔ EndsTorn f end }
    {
        let written = self.count_written(end);
        if written == end {
            return true;
        }
        written <= end + MOST && self.none_ends(end, written - 1)
    }
}
