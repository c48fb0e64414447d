//! What every vote is held against: words and rows, kinds of value, refusals, voting machines, runs and the laws.

#![tactic(auto)]

mod admission;
mod machine;
mod refusal;
mod runs;
mod setup;
mod value;
mod word;

pub use admission::{exact_admission, lowest_admission};
pub use machine::{FullVote, GradedVote, Machine, WeakVote};
pub use refusal::Refusal;
pub use runs::{runs_exist, stretches_are_runs};
pub use setup::{Limits, MANY_ROUNDS, Setup, saturated};
pub use value::{OrderedValue, Value, lawful_kind};
pub use word::{Heard, SILENT};
