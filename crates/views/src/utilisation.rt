// How much of the processor a table utilises.
ghost use Rattle.std.specs.Prelude.{◌≡◌, ◌-◌, ◌*◌, ◌/◌, ◌^◌, min, sum_by};

use rows::Row;
use std::fmt;

// The sum of work over period of some rows: in parts of a frame, and the frame.
#[derive(Clone, Copy)]
pub(crate) struct Utilisation {
    parts: u64,
    frame: u64,
}

impl Utilisation {
    // The utilisation by rows that stand on a frame.
    pub(crate) fn of(frame: u32, rows: &[Row]) -> Utilisation
        ensures parts { result.parts ≡ min (2 ^ 64 - 1) (sum_by (λ row. row.work * (frame / row.period)) rows.now) }
        ensures frame { result.frame ≡ frame }
    {
        let mut parts = 0_u64;
        for row in rows {
            parts = parts.saturating_add(u64::from(row.work) * u64::from(frame / row.period));
        }
        Utilisation {
            parts,
            frame: u64::from(frame),
        }
    }

    // Hundredths of a percent, rounded to the nearest, halves up.
    fn hundredths(&self) -> u128 {
        let doubled = u128::from(self.parts) * 20_000 + u128::from(self.frame);
        doubled.checked_div(2 * u128::from(self.frame)).unwrap_or(0)
    }
}

// As a person reads it: "10/12, 83.33 %".
impl fmt::Display for Utilisation {
    fn fmt<W: fmt::Write>(&self, f: &mut fmt::Formatter<W>) -> fmt::Result {
        let hundredths = self.hundredths();
        let (whole, rest) = (hundredths / 100, hundredths % 100);
        write!(f, "{}/{}, {whole}.{rest:02} %", self.parts, self.frame)
    }
}
