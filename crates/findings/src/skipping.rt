// Instants that are passed over: no bound demands less than the exact steps, which never fall, so
// none rests before there is time for them.
ghost use Rattle.std.specs.Prelude.{◌+◌, ◌≤◌};
ghost use Rattle.rows.specs.Times.{horizon};
ghost use Rattle.findings.specs.Loads.{load_of};
ghost use Rattle.findings.specs.Served.{NoneServed};

use crate::lines::SHORT;
use crate::loads::Load;
use bounds::Bound;

// After so many leaps the next test point is asked, which may be farther than they.
const LEAPS: u32 = 16;

// Below so few rows a few leaps more take less time than the division for the line.
const FEW: usize = 8;

impl<'a, B: Bound> Load<'a, B> {
    // Where the line below the exact steps is served first, if that is later than `from`; past `last`
    // where it is not up to there.
    fn begin(&self, from: u32, last: u32) -> u32
        requires busy { 1 ≤ self.now.own }
        requires some { 1 ≤ from }
        requires within { from ≤ last + 1 }
        requires near { last ≤ horizon }
        requires none { NoneServed (load_of self.now) 0 from }
        ensures some { 1 ≤ result }
        ensures within { result ≤ last + 1 }
        ensures none { NoneServed (load_of self.now) 0 result }
    {
        if last <= SHORT && self.above.len() <= FEW {
            return from;
        }
        let frame = u64::from(self.frame);
        let line = self.prepared.line;
        if line.slope >= frame {
            return last + 1;
        }
        let free = frame - line.slope;
        let parts = frame * u64::from(self.own) + line.height;
        if parts > free * u64::from(last) {
            return last + 1;
        }
        from.max(parts.div_ceil(free) as u32)
    }

    // The first instant from one on that serves its exact demand, or the one past `last`, or where so
    // many leaps have come.
    pub(crate) fn skip(&self, from: u32, last: u32) -> u32
        requires within { from ≤ last + 1 }
        requires near { last ≤ horizon }
        ensures later { from ≤ result }
        ensures within { result ≤ last + 1 }
        ensures none { NoneServed (load_of self.now) from result }
    {
        let mut at = from;
        for _ in 0..LEAPS {
            if at > last {
                return at;
            }
            let demand = self.exact(at);
            if demand <= at {
                return at;
            }
            at = demand.min(last + 1);
        }
        at
    }

    // Where the search begins: no instant before that serves its exact demand, nor did any before
    // `from`.
    pub(crate) fn reach(&self, from: u32, last: u32) -> u32
        requires busy { 1 ≤ self.now.own }
        requires some { 1 ≤ from }
        requires within { from ≤ last + 1 }
        requires near { last ≤ horizon }
        requires none { NoneServed (load_of self.now) 0 from }
        ensures some { 1 ≤ result }
        ensures within { result ≤ last + 1 }
        ensures none { NoneServed (load_of self.now) 0 result }
    {
        self.skip(self.begin(from, last), last)
    }
}
