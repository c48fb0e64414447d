ghost use Rattle.std.specs.Prelude.{◌≡◌, ◌-◌};
ghost use Rattle.protocol.specs.Admission.{refusal};
ghost use Rattle.protocol.specs.Protocol.{saturated};

use crate::refusal::Refusal;

/// Round counts are cut to this one, which by the rules stands for more too. A vote that takes so many is refused.
pub const MANY_ROUNDS: usize = 65536;

/// This many rounds, or 65,536 if there are more.
pub fn saturated(rounds: usize) -> usize
    ensures { result ≡ saturated rounds }
{
    rounds.min(MANY_ROUNDS)
}

/// What a station knows of a vote before it begins.
#[derive(Clone, Copy)]
pub struct Setup {
    /// The number of stations.
    pub n: usize,
    /// How many of them may be faulty.
    pub t: usize,
    /// The station's own number, from 0.
    pub own: usize,
}

/// What a vote takes: the largest numbers of stations and of faulty ones, and the rounds that it needs for a setup.
#[derive(Clone, Copy)]
pub struct Limits {
    pub max_stations: usize,
    pub max_faulty: usize,
    pub rounds: usize,
}

impl Setup {
    /// How many places make a value certain: at least so many stations are correct.
    pub fn quorum(self) -> usize
        ensures { result ≡ self.n - self.t }
    {
        self.n.saturating_sub(self.t)
    }

    /// Why a vote with these limits does not take this setup: the lowest refusal that applies.
    pub fn refusal(self, limits: Limits) -> Option<Refusal>
        ensures { result ≡ refusal limits.max_stations limits.max_faulty limits.rounds self }
    {
        if self.n < 2 || limits.max_stations < self.n {
            Some(Refusal::Stations)
        } else if limits.max_faulty < self.t || (self.n - 1) / 3 < self.t {
            Some(Refusal::Faulty)
        } else if self.n <= self.own {
            Some(Refusal::OwnNumber)
        } else if MANY_ROUNDS <= limits.rounds {
            Some(Refusal::Rounds)
        } else {
            None
        }
    }
}
