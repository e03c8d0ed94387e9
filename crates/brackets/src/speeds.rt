// The first rest of a row in exact steps, on a processor of some speed.
ghost use Rattle.std.specs.Prelude.{◌≡◌, ◌+◌, ◌*◌, ◌≤◌, length};
ghost use Rattle.rows.specs.Times.{ceiling, horizon};
ghost use Rattle.bounds.specs.Meaning.{finest};
ghost use Rattle.findings.specs.Asking.{most_above};
ghost use Rattle.findings.specs.Exact.{exact_demand};
ghost use Rattle.brackets.specs.Speeds.{rest_at_speed};

use rows::Row;

// The speed of a processor: it serves so many ticks of work within so many ticks.
#[derive(Clone, Copy)]
pub(crate) struct Speed {
    pub(crate) served: u32,
    pub(crate) within: u32,
    pub(crate) ghost some: { 1 ≤ served },
    pub(crate) ghost near: { within ≤ 2 * served },
    pub(crate) ghost small: { within ≤ finest + 1 },
}

// All that can be demanded up to the instant: the row's work and the steps of the rows above.
fn exact_demand(row: &Row, above: &[Row], at: u32) -> u64
    requires few { length above.now ≤ most_above }
    requires near { at ≤ horizon }
    ensures { result ≡ exact_demand row.now above.now at }
{
    let others: u64 = above.iter().map(|other| other.steps(at)).sum();
    u64::from(row.work) + others
}

// The instant by which a processor of the speed has served all that can be demanded up to `at`.
fn served_by(speed: Speed, row: &Row, above: &[Row], at: u32) -> u32
    requires few { length above.now ≤ most_above }
    requires near { at ≤ horizon }
    ensures { result ≡ ceiling (speed.within * exact_demand row.now above.now at) speed.served }
{
    let scaled = u64::from(speed.within) * exact_demand(row, above, at);
    scaled.div_ceil(u64::from(speed.served)) as u32
}

// The first rest at that speed. What is demanded up to an instant is demanded up to every later one
// too, so the row rests nowhere before the processor has served it.
#[tactic(auto, using(crate::proofs::Climbing::climbs))]
pub(crate) fn climb(speed: Speed, row: &Row, above: &[Row]) -> Option<u32>
    requires { length above.now ≤ most_above }
    ensures { result ≡ rest_at_speed speed.served speed.within row.now above.now }
{
    let last = row.window();
    let mut at = 1;
    while at <= last {
        let served = served_by(speed, row, above, at);
        if served <= at {
            return Some(at);
        }
        at = served;
    }
    None
}
