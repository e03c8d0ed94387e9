//! A picture of one row's demand over time, as SVG: in exact steps and by bounds, with the test points
//! and the first rests. Long spans are thinned without losing a corner that decides.
#![tactic(auto)]

mod drawings;
mod escaping;
mod filling;
mod forms;
mod labels;
mod layout;
mod legends;
mod lines;
mod marks;
mod pictures;
mod plotting;
mod points;
mod questions;
mod scales;
mod shown;
mod thinning;

pub use drawings::draw;
pub use pictures::{BoundCurve, Curve, Picture, Point, picture_of};
pub use questions::{Drawing, Named};
pub use thinning::{COLUMNS, instants};
