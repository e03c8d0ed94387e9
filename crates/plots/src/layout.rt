// Where things stand in a picture, in its units or in tenths of them. It is 900 wide, and 600 high or
// more. The axes run from 90.0 to 810.0 and from 422.0 up to 62.0, as `forms` has it. Below them stand a
// lane of marks for each count, the labels of the axis of time, and the lines of the legend.

// The left end of the axes, and how long the axis of time is.
pub(crate) const LEFT: i64 = 900;

pub(crate) const WIDTH: u32 = 7200;

// The foot of the axes, and how long the axis of work is.
pub(crate) const FOOT: i64 = 4220;

pub(crate) const HEIGHT: u32 = 3600;

// How far the lanes are apart, and the lines of the legend.
const LANE: i64 = 13;

const LINE: i64 = 22;

// What stands below the axes of a picture with so many bounds. For each past the first it has room for a
// lane and for two lines of the legend more.
#[derive(Clone, Copy)]
pub(crate) struct Layout {
    bounds: u32,
}

impl Layout {
    pub(crate) fn new(bounds: usize) -> Layout {
        Layout {
            bounds: u32::try_from(bounds).unwrap_or(u32::MAX),
        }
    }

    // How many bounds there are past the first.
    fn more(&self) -> i64 {
        i64::from(self.bounds.saturating_sub(1))
    }

    // How far what is below the lanes moves down.
    fn lowered(&self) -> i64 {
        self.more().saturating_mul(LANE)
    }

    // How high the picture is.
    pub(crate) fn height(&self) -> i64 {
        self.more()
            .saturating_mul(LANE + 2 * LINE)
            .saturating_add(600)
    }

    // The middle of the lane of the bound at a place, in tenths.
    pub(crate) fn lane(&self, place: u32) -> i64 {
        i64::from(place)
            .saturating_mul(10 * LANE)
            .saturating_add(4330)
    }

    // The same of the lane in exact steps, below the others, in tenths.
    pub(crate) fn exact_lane(&self) -> i64 {
        self.lowered().saturating_mul(10).saturating_add(4460)
    }

    // The foot of the numbers on the axis of time.
    pub(crate) fn time(&self) -> i64 {
        self.lowered().saturating_add(467)
    }

    // The foot of what the axis of time tells.
    pub(crate) fn time_title(&self) -> i64 {
        self.lowered().saturating_add(488)
    }

    // The middle of a line of the legend, counted from 0.
    pub(crate) fn line(&self, line: i64) -> i64 {
        line.saturating_mul(LINE)
            .saturating_add(self.lowered())
            .saturating_add(514)
    }

    // The line that stands so many behind those of the bounds, of which each has some.
    pub(crate) fn behind(&self, each: i64, line: i64) -> i64 {
        let lines = i64::from(self.bounds).saturating_mul(each);
        self.line(lines.saturating_add(line))
    }
}
