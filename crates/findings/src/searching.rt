// The search for the first rest: one text for every bound.
ghost use Rattle.std.specs.Prelude.{IsTrue, ◌≡◌, ◌+◌, ◌<◌, ◌≤◌};
ghost use Rattle.rows.specs.Times.{horizon};
ghost use Rattle.findings.specs.Demand.{is_rest};
ghost use Rattle.rows.specs.Found.{tells};
ghost use Rattle.findings.specs.Findings.{first_rest, load_finding, Says};
ghost use Rattle.bounds.specs.Instants.{IsFirst, OnceThenOn};
ghost use Rattle.findings.specs.Loads.{load_of};
ghost use Rattle.findings.specs.Served.{NoneServed};

use crate::loads::Load;
use bounds::Bound;
use rows::{Finding, Verdict};

impl<'a, B: Bound> Load<'a, B> {
    // The first rest after `low`, where `high` is a rest and so is every instant from the first one
    // to `high`.
    fn bisect(&self, low: u32, high: u32) -> u32
        requires before { low < high }
        requires near { high ≤ horizon }
        requires served { IsTrue (is_rest (load_of self.now) high) }
        requires on { OnceThenOn (is_rest (load_of self.now)) low high }
        ensures { IsFirst (is_rest (load_of self.now)) low high result }
    {
        let mut none = low;
        let mut some = high;
        while some - none > 1 {
            let middle = none + (some - none) / 2;
            if self.is_rest(middle) {
                some = middle;
            } else {
                none = middle;
            }
        }
        some
    }

    // The first rest of a row with this load that may rest up to `last`, where no instant before `from`
    // serves its exact demand. Where that is served, and yet the row does not rest, the next test point
    // tells whether it does up to there.
    fn first_rest(&self, from: u32, last: u32) -> Option<u32>
        requires some { 1 ≤ from }
        requires within { from ≤ last + 1 }
        requires near { last ≤ horizon }
        requires none { NoneServed (load_of self.now) 0 from }
        ensures { result ≡ first_rest (load_of self.now) last }
    {
        let mut at = from;
        while at <= last {
            if self.is_rest(at) {
                return Some(at);
            }
            if at == last {
                return None;
            }
            let point = self.next_point(at, last);
            if self.is_rest(point) {
                return Some(self.bisect(at, point));
            }
            at = self.skip(point + 1, last);
        }
        None
    }

    // The finding about a row with this load that may rest up to `last`, where no instant before `from`
    // serves its exact demand.
    pub(crate) fn search(&self, from: u32, last: u32) -> Finding
        requires busy { 1 ≤ self.now.own }
        requires some { 1 ≤ last }
        requires near { last ≤ horizon }
        requires late { 1 ≤ from }
        requires within { from ≤ last + 1 }
        requires none { NoneServed (load_of self.now) 0 from }
        ensures answered { tells result ≡ load_finding (load_of self.now) last }
        ensures says { Says (load_of self.now) last (tells result) }
    {
        match self.first_rest(from, last) {
            Some(rest) => Finding {
                verdict: Verdict::Meets(rest),
                points: self.points(rest),
            },
            None => Finding {
                verdict: Verdict::Misses,
                points: self.points(last),
            },
        }
    }

    // The finding about a row with this load that may rest up to `last`.
    pub(crate) fn finding(&self, last: u32) -> Finding
        requires busy { 1 ≤ self.now.own }
        requires room { self.now.own ≤ last }
        requires near { last ≤ horizon }
        ensures answered { tells result ≡ load_finding (load_of self.now) last }
        ensures says { Says (load_of self.now) last (tells result) }
    {
        self.search(self.reach(self.own, last), last)
    }
}
