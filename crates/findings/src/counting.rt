// How many test points there are, counted apart from the search: near corners are flagged already, far
// ones are marked in blocks of flags, and instants without corners are passed over.
ghost use Rattle.std.specs.Prelude.{◌≡◌, ◌+◌, ◌-◌, ◌<◌, ◌≤◌, fold, length, min};
ghost use Rattle.rows.specs.Times.{horizon};
ghost use Rattle.bounds.specs.Instants.{count};
ghost use Rattle.bounds.specs.Marks.{Marks};
ghost use Rattle.findings.specs.Counting.{LookAhead, is_corner_above};
ghost use Rattle.findings.specs.Loads.{load_of};

use crate::flags::count_set;
use crate::loads::Load;
use crate::preparing::NEAR;
use bounds::Bound;
use rows::HORIZON;

// How many instants have a flag in a block: a narrow one where testing stops early, since all flags
// are cleared first.
const NARROW: usize = 256;

// A block for a count that is not long.
const MIDDLE: usize = 4096;

// A block for a long count. It stays in the nearest cache.
const WIDE: usize = 16384;

// How many corners in a block are few at the most.
const FEW: u32 = 32;

// The least of the instants.
fn nearest(nexts: &[u32], last: u32) -> u32
    ensures { result ≡ fold min last nexts.now }
{
    nexts.iter().fold(last, |nearest, next| nearest.min(*next))
}

// How wide the next block is to be, of so many flags: where few corners were found, the next may be
// far apart, and a narrow block is cleared and summed sooner.
fn next_width(found: u32, flags: usize) -> usize
    requires { 1 ≤ flags }
    ensures some { 1 ≤ result }
    ensures within { result ≤ flags }
{
    if found < FEW {
        flags.min(NARROW)
    } else {
        flags
    }
}

impl<'a, B: Bound> Load<'a, B> {
    // Sets the flags of all corners in a block, whose first flag stands for the instant after
    // `after`, and looks ahead from its last instant. Only rows that may have a corner in the block
    // are asked.
    fn mark_block(&self, after: u32, block: &mut [bool], nexts: &mut [u32])
        requires near { after + length block.old ≤ horizon }
        requires ahead { LookAhead (load_of self.now) after nexts.old }
        ensures marks { Marks (is_corner_above (load_of self.now)) after block.old block.new }
        ensures ahead { LookAhead (load_of self.now) (after + length block.old) nexts.new }
    {
        let last = after + block.len() as u32;
        for i in 0..self.above.len() {
            let row = &self.above[i];
            if nexts[i] <= last {
                let next = self.bound.mark(row, after, block);
                nexts[i] = next.unwrap_or(HORIZON + 1);
            }
        }
    }

    // How many corners there are in a block, and what is ahead of it.
    fn count_block(&self, after: u32, block: &mut [bool], nexts: &mut [u32]) -> u32
        requires near { after + length block.old ≤ horizon }
        requires few { length block.old < 65536 }
        requires ahead { LookAhead (load_of self.now) after nexts.old }
        ensures counted { count (is_corner_above (load_of self.now)) (after + length block.old)
            ≡ count (is_corner_above (load_of self.now)) after + result }
        ensures ahead { LookAhead (load_of self.now) (after + length block.old) nexts.new }
    {
        block.fill(false);
        self.mark_block(after, block, nexts);
        count_set(block)
    }

    // How many distinct corners the rows above have up to the instant, where those up to an earlier one
    // are counted: block by block of the flags.
    fn blocks(
        &self,
        counted: u32,
        seen: u32,
        end: u32,
        nexts: &mut [u32],
        flags: &mut [bool],
    ) -> u32
        requires near { end ≤ horizon }
        requires within { seen ≤ end }
        requires counted { counted ≡ count (is_corner_above (load_of self.now)) seen }
        requires ahead { LookAhead (load_of self.now) seen nexts.old }
        requires room { 1 ≤ length flags.old }
        requires few { length flags.old < 65536 }
        ensures { result ≡ count (is_corner_above (load_of self.now)) end }
    {
        let mut corners = counted;
        let mut from = nearest(nexts, end + 1);
        let mut most = flags.len();
        while from <= end {
            let width = most.min((end - from + 1) as usize);
            let found = self.count_block(from - 1, &mut flags[..width], nexts);
            corners += found;
            from = nearest(nexts, end + 1);
            most = next_width(found, flags.len());
        }
        corners
    }

    // How many distinct corners the rows above have up to the instant, where those up to an earlier one
    // are counted: by blocks of as many flags as serve.
    pub(crate) fn by_blocks(&self, counted: u32, seen: u32, end: u32, nexts: &mut [u32]) -> u32
        requires near { end ≤ horizon }
        requires within { seen ≤ end }
        requires counted { counted ≡ count (is_corner_above (load_of self.now)) seen }
        requires ahead { LookAhead (load_of self.now) seen nexts.old }
        ensures { result ≡ count (is_corner_above (load_of self.now)) end }
    {
        if end as usize <= 2 * NEAR {
            self.blocks(counted, seen, end, nexts, &mut [false; NEAR])
        } else if end as usize <= MIDDLE {
            self.blocks(counted, seen, end, nexts, &mut [false; MIDDLE])
        } else {
            self.blocks(counted, seen, end, nexts, &mut [false; WIDE])
        }
    }

    // How many distinct corners the rows above have up to the instant.
    fn distinct_corners(&self, end: u32) -> u32
        requires { end ≤ horizon }
        ensures { result ≡ count (is_corner_above (load_of self.now)) end }
    {
        let flags = &self.prepared.flags;
        if end as usize <= NEAR {
            return count_set(&flags[..end as usize]);
        }
        let counted = count_set(flags);
        if self.is_sparse() {
            return self.merged(counted, end);
        }
        let mut nexts = self.prepared.nexts;
        self.by_blocks(counted, NEAR as u32, end, &mut nexts[..self.above.len()])
    }

    // How many test points there are where testing stops at the first that is not before the
    // instant: the corners before it, and that one.
    pub(crate) fn points(&self, rest: u32) -> u32
        requires some { 1 ≤ rest }
        requires near { rest ≤ horizon }
        ensures { result ≡ count (is_corner_above (load_of self.now)) (rest - 1) + 1 }
    {
        self.distinct_corners(rest - 1) + 1
    }
}
