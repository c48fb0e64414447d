//! Exponential information gathering (EIG): a full vote on the switch for few stations, in t + 1 rounds.

#![tactic(auto)]

ghost use Rattle.eig.specs.Numbering.{Numbering};

/// The chains of one length are numbered from 0, ascending by first station, then second.
pub fn chains_are_numbered()
    ensures { Numbering }
{}
