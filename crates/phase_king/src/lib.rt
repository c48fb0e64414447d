//! Phase king: a full vote over any graded vote.

#![tactic(auto)]

ghost use Rattle.std.specs.Prelude.{◌≡◌, ◌+◌, ◌*◌};
ghost use Rattle.protocol.specs.Protocol.{saturated};
ghost use Rattle.phase_king.specs.PhaseKing.{phase_king, phase_begun, king_state};

mod phase;

pub use phase::Phase;
use protocol::{FullVote, GradedVote, Machine, SILENT, Setup, Value, saturated};

/// Consensus over a graded vote: in each of t + 1 phases a graded vote, then a round in which the phase's king speaks.
/// By the rules a machine keeps values as words.
#[derive(Clone, Copy)]
pub enum PhaseKing<G> {
    Idle,
    Voting {
        phase: Phase,
        graded: G,
    },
    KingRound {
        phase: Phase,
        // by the rules a graded answer is a pair of value and grade
        word: u64,
        grade: bool,
    },
    Answered {
        word: u64,
    },
}

impl<G: GradedVote> PhaseKing<G> {
    // A phase begins with the present value.
    fn begin_phase(phase: Phase, value: G::Value) -> PhaseKing<G>
        ensures { king_state G.Machine.state result ≡ phase_begun G.Value.kind G.Machine.model phase value }
    {
        PhaseKing::Voting {
            phase,
            graded: G::begin(phase.setup, value),
        }
    }
}

// The rounds of t + 1 phases, each of a graded vote and one round more.
fn phase_rounds(t: usize, graded: usize) -> usize
    ensures { result ≡ saturated ((t + 1) * (graded + 1)) }
{
    let phases = t.saturating_add(1);
    saturated(phases.saturating_mul(graded.saturating_add(1)))
}

impl<G: GradedVote> Machine for PhaseKing<G> {
    type Value = G::Value;

    type Answer = G::Value;

    ghost model = { phase_king G.Value.kind G.Machine.model };

    ghost state = { king_state G.Machine.state };

    // the limits of the vote below, as in every layer: `Machine` knows of no vote below that it could ask
    fn max_stations() -> usize {
        G::max_stations()
    }

    fn max_faulty() -> usize {
        G::max_faulty()
    }

    fn rounds(n: usize, t: usize) -> usize {
        phase_rounds(t, G::rounds(n, t))
    }

    // as every vote begins, but in states of its own: what they share is `refusal`
    fn begin(setup: Setup, value: G::Value) -> PhaseKing<G> {
        match Self::refusal(setup) {
            Some(_) => PhaseKing::Idle,
            None => PhaseKing::begin_phase(Phase { setup, king: 0 }, value),
        }
    }

    fn say(&self) -> u64 {
        match self {
            PhaseKing::Voting { graded, .. } => graded.say(),
            PhaseKing::KingRound { phase, word, .. } => phase.king_word(*word),
            _ => SILENT,
        }
    }

    fn hear(&mut self, row: &[u64]) {
        match self {
            PhaseKing::Voting { phase, graded } => {
                graded.hear(row);
                if let Some((value, grade)) = graded.answer() {
                    *self = PhaseKing::KingRound {
                        phase: *phase,
                        word: value.word(),
                        grade,
                    };
                }
            }
            PhaseKing::KingRound { phase, word, grade } => {
                let value = phase.after_king::<G::Value>(*word, *grade, row);
                *self = match phase.next() {
                    Some(phase) => PhaseKing::begin_phase(phase, value),
                    None => PhaseKing::Answered { word: value.word() },
                };
            }
            _ => {}
        }
    }

    // as Turpin-Coan answers, but in a state of its own
    fn answer(&self) -> Option<G::Value> {
        match self {
            PhaseKing::Answered { word } => Some(G::Value::read_or_rest(*word)),
            _ => None,
        }
    }

    fn orderly() {
        G::orderly();
    }
}

impl<G: GradedVote> FullVote for PhaseKing<G> {
    fn full_law() {
        G::orderly();
        G::graded_law();
    }
}
