ghost use Rattle.std.specs.Prelude.{◌≡◌, Some};
ghost use Rattle.protocol.specs.Refusals.{number, message};

use std::error::Error;
use std::fmt;

/// Why a call was refused.
#[derive(Clone, Copy, PartialEq, Eq, Debug)]
pub enum Refusal {
    /// Fewer than 2 stations, or more than the vote takes.
    Stations,
    /// More faulty stations than the vote bears, or a third of all or more.
    Faulty,
    /// The own number is not that of a station.
    OwnNumber,
    /// More than 65,535 rounds.
    Rounds,
    /// A pressure above its limit.
    Pressure,
    /// A speed outside its limits.
    Speed,
}

impl Refusal {
    /// The number by which this refusal is reported.
    pub fn number(self) -> u8
        ensures { result ≡ number self }
    {
        // By the rules refusals are reported by number. Not discriminants: a must-fail edit makes two numbers alike,
        // and such an enum would not compile.
        match self {
            Refusal::Stations => 1,
            Refusal::Faulty => 2,
            Refusal::OwnNumber => 3,
            Refusal::Rounds => 4,
            Refusal::Pressure => 6,
            Refusal::Speed => 7,
        }
    }
}

impl fmt::Display for Refusal {
    ghost output = { λ r. Some (message r) };

    fn fmt<W: fmt::Write>(&self, f: &mut fmt::Formatter<W>) -> fmt::Result {
        f.write_str(match self {
            Refusal::Stations => "fewer than 2 stations, or more than the vote takes",
            Refusal::Faulty =>
                "more faulty stations than the vote bears, or a third of all or more",
            Refusal::OwnNumber => "the own number is not that of a station",
            Refusal::Rounds => "more than 65,535 rounds",
            Refusal::Pressure => "a pressure above its limit",
            Refusal::Speed => "a speed outside its limits",
        })
    }
}

impl Error for Refusal {}
