//! Turpin-Coan: a full vote on any kind of value, over a graded vote on it and a full vote on the switch.

#![tactic(auto)]

ghost use Rattle.std.specs.Prelude.{◌≡◌};
ghost use Rattle.turpin_coan.specs.TurpinCoan.{decided, turpin_coan, tc_state};

use protocol::{FullVote, GradedVote, Machine, SILENT, Setup, Value, saturated};
use values::Switch;

/// Consensus on values of any kind: a graded vote on them, then a vote on the switch whether its value is taken. By the
/// rules a machine keeps values as words.
#[derive(Clone, Copy)]
pub enum TurpinCoan<G, B> {
    Idle,
    Grading { setup: Setup, graded: G },
    Deciding { word: u64, switch: B },
    Answered { word: u64 },
}

// The graded value's word, or that of rest: by the rules a machine keeps its answer as a word.
fn decided<V: Value>(word: u64, decision: Switch) -> u64
    ensures { result ≡ decided V.Value.kind word decision }
{
    match decision {
        Switch::Go => word,
        Switch::Hold => V::rest().word(),
    }
}

impl<G: GradedVote, B: FullVote + Machine<Value = Switch>> Machine for TurpinCoan<G, B> {
    type Value = G::Value;

    type Answer = G::Value;

    ghost model = { turpin_coan G.Value.kind G.Machine.model B.Machine.model };

    ghost state = { tc_state G.Machine.state B.Machine.state };

    fn max_stations() -> usize {
        G::max_stations().min(B::max_stations())
    }

    fn max_faulty() -> usize {
        G::max_faulty().min(B::max_faulty())
    }

    fn rounds(n: usize, t: usize) -> usize {
        saturated(G::rounds(n, t) + B::rounds(n, t))
    }

    // as every vote begins, but in states of its own: what they share is `refusal`
    fn begin(setup: Setup, value: G::Value) -> TurpinCoan<G, B> {
        match Self::refusal(setup) {
            Some(_) => TurpinCoan::Idle,
            None => TurpinCoan::Grading {
                setup,
                graded: G::begin(setup, value),
            },
        }
    }

    fn say(&self) -> u64 {
        match self {
            TurpinCoan::Grading { graded, .. } => graded.say(),
            TurpinCoan::Deciding { switch, .. } => switch.say(),
            _ => SILENT,
        }
    }

    fn hear(&mut self, row: &[u64]) {
        match self {
            TurpinCoan::Grading { setup, graded } => {
                graded.hear(row);
                if let Some((value, grade)) = graded.answer() {
                    *self = TurpinCoan::Deciding {
                        word: value.word(),
                        switch: B::begin(*setup, Switch::from(grade)),
                    };
                }
            }
            TurpinCoan::Deciding { word, switch } => {
                switch.hear(row);
                if let Some(decision) = switch.answer() {
                    let word = decided::<G::Value>(*word, decision);
                    *self = TurpinCoan::Answered { word };
                }
            }
            _ => {}
        }
    }

    // as a phase king answers, but in a state of its own
    fn answer(&self) -> Option<G::Value> {
        match self {
            TurpinCoan::Answered { word } => Some(G::Value::read_or_rest(*word)),
            _ => None,
        }
    }

    fn orderly() {
        G::orderly();
        B::orderly();
    }
}

impl<G: GradedVote, B: FullVote + Machine<Value = Switch>> FullVote for TurpinCoan<G, B> {
    fn full_law() {
        G::orderly();
        G::graded_law();
        B::orderly();
        B::full_law();
    }
}
