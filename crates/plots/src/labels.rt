// The labels of first rests by bounds: each stands a line higher while it meets one of those before it.
use std::alloc::{AllocError, Global};

// How high a line of labels is, in tenths.
const LINE: i64 = 150;

// The room of a label: from where to where, and its foot, in tenths.
#[derive(Clone, Copy)]
pub(crate) struct Room {
    pub(crate) left: i64,
    pub(crate) right: i64,
    pub(crate) foot: i64,
}

impl Room {
    // Whether two labels run into each other.
    fn meets(&self, other: &Room) -> bool {
        let low = self.foot < other.foot.saturating_add(LINE);
        let high = other.foot < self.foot.saturating_add(LINE);
        self.left < other.right && other.left < self.right && low && high
    }

    // The room some lines higher.
    fn higher(&self, lines: i64) -> Room {
        Room {
            left: self.left,
            right: self.right,
            foot: self.foot.saturating_sub(lines.saturating_mul(LINE)),
        }
    }
}

// The labels that were put so far.
#[derive(Drop)]
pub(crate) struct Labels {
    rooms: Vec<Room>,
}

impl Labels {
    pub(crate) fn new(alloc: Global) -> Labels {
        Labels {
            rooms: Vec::new(alloc),
        }
    }

    // Puts a label into its room, or as many lines above it as it takes to meet none of those before,
    // each of which is in the way of two lines at most; and tells how far above, in units.
    pub(crate) fn put(&mut self, room: Room) -> Result<i64, AllocError> {
        let mut lines = 0i64;
        for _ in 0..self.rooms.len().saturating_mul(2) {
            let here = room.higher(lines);
            if self.rooms.iter().any(|other| other.meets(&here)) {
                lines = lines.saturating_add(1);
            }
        }
        self.rooms.push(room.higher(lines))?;
        Ok(lines.saturating_mul(LINE / 10))
    }
}
