// Far corners counted in turn, where they are few and far between: each row's next one is kept in a
// tree.
ghost use Rattle.std.specs.Prelude.{◌≡◌, ◌+◌, ◌<◌, ◌≤◌, get_or, length, nat_lt, slice_index_or, ◌&&◌, ◌==◌, if◌then◌else◌};
ghost use Rattle.rows.specs.Times.{horizon};
ghost use Rattle.bounds.specs.Instants.{count};
ghost use Rattle.findings.specs.Counting.{is_corner_above, near, next_after};
ghost use Rattle.rows.specs.declared.tasks.Row.{Row as TheRow};
ghost use Rattle.findings.specs.Loads.{load_of};

use crate::loads::Load;
use crate::preparing::NEAR;
use crate::trees::{planted, raise};
use bounds::Bound;
use rows::{HORIZON, MOST_ROWS};

// So many instants lie between two corners at the least, on the average, where corners are sparse.
const APART: usize = 256;

// Whether the instant is that of a place in a list.
fn is_turn(nexts: &[u32], place: usize, at: u32) -> bool
    ensures { result ≡ (nat_lt place (length nexts.now) && slice_index_or nexts.now place 0 == at) }
{
    place < nexts.len() && nexts[place] == at
}

// One more, where the instant is later than what was seen.
fn one_more(corners: u32, seen: u32, at: u32) -> u32
    requires { corners ≤ horizon }
    ensures { result ≡ corners + (if nat_lt seen at then 1 else 0) }
{
    if at > seen { corners + 1 } else { corners }
}

impl<'a, B: Bound> Load<'a, B> {
    // Whether the corners of the rows above are few and far between.
    pub(crate) fn is_sparse(&self) -> bool {
        let apart = APART * self.above.len();
        self.above.iter().all(|row| row.period as usize >= apart)
    }

    // How many distinct corners the rows above have up to the instant, where those up to an earlier one
    // are counted, and nothing is known of what is ahead.
    fn count_on(&self, counted: u32, seen: u32, end: u32) -> u32
        requires near { end ≤ horizon }
        requires within { seen ≤ end }
        requires counted { counted ≡ count (is_corner_above (load_of self.now)) seen }
        ensures { result ≡ count (is_corner_above (load_of self.now)) end }
    {
        let mut nexts = [seen + 1; MOST_ROWS];
        self.by_blocks(counted, seen, end, &mut nexts[..self.above.len()])
    }

    // The next corner of the row at a place above, or one past the horizon where it has none.
    fn next_of(&self, place: usize, after: u32) -> u32
        requires { place < length self.now.above.now }
        ensures { (d : TheRow) → result ≡ next_after (B.meaning self.now.bound.now) after
            (get_or self.now.above.now place d) }
    {
        let next = self.bound.corner_past(&self.prepared.rows[place], after);
        next.unwrap_or(HORIZON + 1)
    }

    // How many distinct corners the rows above have up to the instant, where those up to the near one
    // are counted: corner by corner, each row's next in its turn. Should the tree tell none whose turn
    // it is, blocks count on.
    pub(crate) fn merged(&self, counted: u32, end: u32) -> u32
        requires near { end ≤ horizon }
        requires within { near ≤ end }
        requires counted { counted ≡ count (is_corner_above (load_of self.now)) near }
        ensures { result ≡ count (is_corner_above (load_of self.now)) end }
    {
        let mut nexts = self.prepared.nexts;
        let nexts = &mut nexts[..self.above.len()];
        let mut keys = planted(nexts);
        let mut seen = NEAR as u32;
        let mut corners = counted;
        for _ in 0..u32::MAX {
            let at = keys[1] / 32;
            if at > end {
                return corners;
            }
            let place = (keys[1] % 32) as usize;
            if !is_turn(nexts, place, at) {
                return self.count_on(corners, seen, end);
            }
            corners = one_more(corners, seen, at);
            seen = at;
            nexts[place] = self.next_of(place, at);
            raise(&mut keys, 32 + place, nexts[place] * 32 + place as u32);
        }
        self.count_on(corners, seen, end)
    }
}
