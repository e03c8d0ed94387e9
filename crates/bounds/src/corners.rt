// The corners that a staircase has of a row, gone through one after another.
ghost use Rattle.std.specs.Prelude.{◌≡◌, ◌+◌, ◌*◌, ◌≤◌};
ghost use Rattle.rows.specs.Times.{horizon};
ghost use Rattle.bounds.specs.Meaning.{finest};
ghost use Rattle.bounds.specs.Stairs.{Stands};
ghost use Rattle.bounds.specs.Supplied.{staircase};

use crate::walks::Walk;
use rows::Row;

// A walk through them, which stands at one: there the row has as many jobs as a stair, and the next stair
// is a stride further.
#[derive(Drop)]
pub(crate) struct Corners<'a> {
    pub(crate) row: &'a Row,
    pub(crate) accuracy: u32,
    pub(crate) jobs: u32,
    pub(crate) stride: u32,
    pub(crate) at: u32,
    ghost low: { 1 ≤ accuracy },
    ghost high: { accuracy ≤ finest },
    ghost some: { 1 ≤ jobs },
    ghost stands: { Stands accuracy jobs stride },
    ghost there: { at + row.now.jitter ≡ jobs * row.now.period },
}

impl Corners<'_> {
    // How far past the next stair the one after it is.
    fn next_stride(&self) -> u32
        requires { self.now.at ≤ horizon }
        ensures { Stands self.now.accuracy (self.now.jobs + self.now.stride) result }
    {
        if self.jobs + self.stride < self.accuracy * (2 * self.stride) {
            self.stride
        } else {
            2 * self.stride
        }
    }
}

impl Walk for Corners<'_> {
    ghost kind = { λ w. (staircase w.accuracy).is_corner w.row.now };

    ghost here = { λ w. w.at };

    fn at(&self) -> u32 {
        self.at
    }

    fn go_on(&mut self) -> u32 {
        let (row, accuracy) = (self.row, self.accuracy);
        let jobs = self.jobs + self.stride;
        let far = self.stride * row.period;
        let at = self.at + far;
        let stride = self.next_stride();
        *self = Corners {
            row,
            accuracy,
            jobs,
            stride,
            at,
        };
        far
    }
}
