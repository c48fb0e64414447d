//! The two kinds of value that the stations vote on: the switch and the operating point.

#![tactic(auto)]

mod point;
mod switch;
mod text;

pub use point::Point;
pub use switch::Switch;
