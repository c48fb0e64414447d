//! Votes put together with kinds of value: their worked cases and tests of whole runs.

#![tactic(auto)]

ghost use Rattle.compositions.specs.Worked.{Worked};

mod adversary;
mod hostile;
mod laws;
mod machines;
mod rows;
mod runs;
mod steps;

pub use laws::{
    King, Multivalued, NamedComposition, ThreeKings, compositions_keep_their_laws, named_law,
};

/// The worked cases hold of the definitions.
pub fn worked_cases()
    ensures { Worked }
{}
