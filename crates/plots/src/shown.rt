// One of the bounds of a picture: what it is called, how it looks, and the demand by it.
ghost use Rattle.std.specs.Prelude.{◌≤◌};

use crate::escaping::escape;
use crate::filling::Value;
use crate::pictures::BoundCurve;
use crate::questions::{Drawing, Named};
use bounds::Bound;
use findings::Demand;
use std::alloc::{AllocError, Global};

// The colours of the bounds, from the first on, and then again.
const COLOURS: [&str; 4] = ["#b5480c", "#0b7a75", "#7b3294", "#6b6b00"];

// The squares of the bounds grow from one to the next up to that at this place; wider ones would not fit
// the legend.
const LARGEST: u32 = 2;

// A bound at its place among those of a drawing, from 0, with its names as text of XML.
#[derive(Drop)]
pub(crate) struct Shown<'a, B: Bound> {
    pub(crate) place: u32,
    short: String,
    name: String,
    drawing: &'a Drawing<'a, B>,
    bound: &'a B,
    demand: Demand<'a, B>,
    pub(crate) drawn: &'a BoundCurve,
}

impl<'a, B: Bound> Shown<'a, B> {
    pub(crate) fn new(
        alloc: Global,
        drawing: &'a Drawing<'a, B>,
        place: usize,
        named: &Named<'a, B>,
        drawn: &'a BoundCurve,
    ) -> Result<Shown<'a, B>, AllocError> {
        Ok(Shown {
            place: u32::try_from(place).unwrap_or(u32::MAX),
            short: escape(alloc, named.short)?,
            name: escape(alloc, named.name)?,
            drawing,
            bound: named.bound,
            demand: drawing.demand(named),
            drawn,
        })
    }

    // In short, as `linear-3`.
    pub(crate) fn short(&self) -> Value<'_> {
        Value::Words(self.short.as_str())
    }

    // How many characters that has.
    pub(crate) fn short_len(&self) -> i64 {
        i64::try_from(self.short.chars().count()).unwrap_or(i64::MAX)
    }

    // At length, as `linear tail`.
    pub(crate) fn name(&self) -> Value<'_> {
        Value::Words(self.name.as_str())
    }

    // In one word, the last of its name, as `tail`.
    pub(crate) fn noun(&self) -> Value<'_> {
        let name = self.name.as_str();
        Value::Words(name.split(' ').last().unwrap_or(name))
    }

    // What the names of its classes end in.
    pub(crate) fn class(&self) -> Value<'static> {
        Value::Class(self.place)
    }

    // Its colour.
    pub(crate) fn colour(&self) -> Value<'static> {
        Value::Words(COLOURS[self.place as usize % COLOURS.len()])
    }

    // How many sizes its square is above the least.
    fn size(&self) -> u32
        ensures { result ≤ LARGEST }
    {
        self.place.min(LARGEST)
    }

    // How wide the square at its first rest is: wider than those before it, so that one shows around
    // another.
    pub(crate) fn square(&self) -> i64 {
        i64::from(11 + 6 * self.size())
    }

    // How far its label stands from the middle of its square.
    pub(crate) fn off(&self) -> i64 {
        i64::from(9 + 3 * self.size())
    }

    // The demand up to an instant, in parts.
    pub(crate) fn at(&self, at: u32) -> u64 {
        self.demand.at(at).unwrap_or(0)
    }

    // Whether the demand may bend upward at an instant: some row above has a corner there.
    fn bends(&self, at: u32) -> bool {
        let Some(before) = at.checked_sub(1) else {
            return false;
        };
        let drawing = self.drawing;
        drawing.above.rows().iter().any(|row| {
            self.bound.next_corner(drawing.frame, row, before) == Some(at)
        })
    }

    // The demand just after 0 or an instant at which it may bend upward, in parts: where the line through
    // the two instants behind it comes from; where it may bend upward between those, that at the first of
    // them. Past the horizon there is none.
    fn risen(&self, at: u32) -> Option<u64> {
        let next = at.checked_add(1)?;
        let first = self.demand.at(next)?;
        if self.bends(next) {
            return Some(first);
        }
        let second = self.demand.at(next.checked_add(1)?)?;
        Some(first.saturating_sub(second.saturating_sub(first)))
    }

    // The demand just after an instant, in parts.
    pub(crate) fn after(&self, at: u32) -> u64 {
        let demand = self.at(at);
        if at == 0 || self.bends(at) {
            self.risen(at).unwrap_or(demand)
        } else {
            demand
        }
    }
}
