// Instants of one kind, gone through one after another.
ghost use Rattle.std.specs.Prelude.{IsTrue, ℕ, Bool, ◌≡◌, ◌+◌, ◌-◌, ◌≤◌, length};
ghost use Rattle.rows.specs.Times.{horizon};
ghost use Rattle.bounds.specs.Instants.{IsFirst, least};
ghost use Rattle.bounds.specs.Marks.{Marks, up_to};

// A walk through the instants of a kind: it stands at one of them, and goes on to the next.
pub(crate) trait Walk {
    ghost kind: { Self → ℕ → Bool };

    ghost here: { Self → ℕ };

    // The instant at which it stands.
    fn at(&self) -> u32
        ensures answered { result ≡ here self.now }
        ensures kind { IsTrue (kind self.now (here self.now)) };

    // Goes on to the next one, and answers how far that is.
    fn go_on(&mut self) -> u32
        requires { here self.old ≤ horizon }
        ensures far { here self.new ≡ here self.old + result }
        ensures next { IsFirst (kind self.old) (here self.old) (here self.new) (here self.new) }
        ensures kind { kind self.new ≡ kind self.old };
}

// Sets the flags of the instants of a walk up to `last` among those just after `after`, where flag k
// stands for after + 1 + k, and answers the first instant of the walk past these, up to `last`. The
// walk begins at the first one after `after`.
pub(crate) fn mark_along<W: Walk + Drop>(
    walk: W,
    after: u32,
    last: u32,
    marks: &mut [bool],
) -> Option<u32>
    requires first { IsFirst (W.kind walk) after (W.here walk) (W.here walk) }
    requires near { last ≤ horizon }
    ensures marks { Marks (up_to last (W.kind walk)) after marks.old marks.new }
    ensures past { result
        ≡ least (W.kind walk) (last - (after + length marks.old)) (after + length marks.old + 1) }
{
    let mut walk = walk;
    let room = last.saturating_sub(after) as usize;
    let end = marks.len().min(room);
    let mut place = (walk.at() - after - 1) as usize;
    while place < end {
        marks[place] = true;
        place += walk.go_on() as usize;
    }
    if place < room {
        Some(after + 1 + place as u32)
    } else {
        None
    }
}
