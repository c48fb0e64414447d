//! Counting the places of a row, and the two votes that are made of it: the counting vote and grading.

#![tactic(auto)]

mod count;
mod grading;
mod tally;

pub use count::{Count, CountState, quorum_rule};
pub use grading::{Grading, grade_rule};
pub use tally::leader;
