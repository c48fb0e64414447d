ghost use Rattle.std.specs.Prelude.{◌≡◌, ◌≤◌};
ghost use Rattle.protocol.specs.Protocol.{Protocol, refused};
ghost use Rattle.protocol.specs.Orderly.{Orderly};
ghost use Rattle.protocol.specs.Laws.{WeakLaw, GradedLaw, FullLaw};

use crate::refusal::Refusal;
use crate::setup::{Limits, Setup};
use crate::value::Value;

/// One station's part in a vote. Every round it says one word, then hears one row.
pub trait Machine: Copy {
    type Value: Value;

    type Answer: Copy;

    // what the machine means, and which of the protocol's states a machine is in
    ghost model: { Protocol Self.Value Self.Answer };

    ghost state: { Self → model.State };

    /// The largest number of stations.
    fn max_stations() -> usize
        ensures { result ≡ model.max_stations };

    /// The largest number of faulty stations.
    fn max_faulty() -> usize
        ensures { result ≡ model.max_faulty };

    /// How many rounds `n` stations take of which `t` may be faulty; 65,536 also stands for more.
    // n and t alone, and no setup: by the rules the rounds depend on nothing else
    fn rounds(n: usize, t: usize) -> usize
        ensures value { result ≡ model.rounds n t }
        ensures bound { result ≤ 65536 };

    /// Why the vote does not take a setup: the lowest refusal that applies.
    fn refusal(setup: Setup) -> Option<Refusal>
        ensures { result ≡ refused model setup }
    {
        setup.refusal(Limits {
            max_stations: Self::max_stations(),
            max_faulty: Self::max_faulty(),
            rounds: Self::rounds(setup.n, setup.t),
        })
    }

    /// A machine before its first round. Where the setup is refused it is idle, by the rules, and no `Err`.
    fn begin(setup: Setup, value: Self::Value) -> Self
        ensures { state result ≡ model.begun setup value };

    /// The word of this round.
    fn say(&self) -> u64
        ensures { result ≡ model.said (state self.now) };

    /// Ends the round with the row that was heard in it.
    fn hear(&mut self, row: &[u64])
        ensures { state self.new ≡ model.heard (state self.old) row.now };

    /// The answer, once the last round is over.
    fn answer(&self) -> Option<Self::Answer>
        ensures { result ≡ model.answer (state self.now) };

    /// What every machine keeps, whatever it hears.
    fn orderly()
        ensures { Orderly model };
}

// Three traits and not one: by the rules each law is promised by a function of a trait of its own, built on `Machine`.

/// A vote that answers a value or none.
pub trait WeakVote: Machine<Answer = Option<<Self as Machine>::Value>> {
    fn weak_law()
        ensures { WeakLaw Self.Machine.model };
}

/// A vote that answers a value together with its grade, 0 (false) or 1 (true). By the rules the answer is this pair, as
/// the value counts with either grade.
pub trait GradedVote: Machine<Answer = (<Self as Machine>::Value, bool)> {
    fn graded_law()
        ensures { GradedLaw Self.Machine.model };
}

/// A vote in which all correct stations answer the same value.
pub trait FullVote: Machine<Answer = <Self as Machine>::Value> {
    fn full_law()
        ensures { FullLaw Self.Machine.model };
}
