ghost use Rattle.std.specs.Prelude.{◌≡◌};
ghost use Rattle.protocol.specs.Kind.{word_of};
ghost use Rattle.counting.specs.GradeRule.{GradeRule};
ghost use Rattle.counting.specs.Grading.{grading, grading_state};

use crate::tally::leader;
use protocol::{GradedVote, Heard, Machine, SILENT, Setup, Value, WeakVote, saturated};

/// Graded consensus over a weak vote: its answers are told and counted in one round more. By the rules a machine keeps
/// values as words and none as the silent word, and a graded answer is a pair of value and grade.
#[derive(Clone, Copy)]
pub enum Grading<W> {
    Idle,
    Voting { setup: Setup, weak: W },
    Polling { setup: Setup, word: u64 },
    Answered { word: u64, grade: bool },
}

// The word by which an answer of the weak vote is told: by the rules the silent word if it was none.
fn told<V: Value>(answer: Option<V>) -> u64
    ensures { result ≡ word_of V.Value.kind answer }
{
    answer.map_or(SILENT, V::word)
}

impl<W: WeakVote> Machine for Grading<W> {
    type Value = W::Value;

    type Answer = (W::Value, bool);

    ghost model = { grading W.Value.kind W.Machine.model };

    ghost state = { grading_state W.Machine.state };

    // the limits of the vote below, as in every layer: `Machine` knows of no vote below that it could ask
    fn max_stations() -> usize {
        W::max_stations()
    }

    fn max_faulty() -> usize {
        W::max_faulty()
    }

    fn rounds(n: usize, t: usize) -> usize {
        saturated(W::rounds(n, t) + 1)
    }

    // as every vote begins, but in states of its own: what they share is `refusal`
    fn begin(setup: Setup, value: W::Value) -> Grading<W> {
        match Self::refusal(setup) {
            Some(_) => Grading::Idle,
            None => Grading::Voting {
                setup,
                weak: W::begin(setup, value),
            },
        }
    }

    fn say(&self) -> u64 {
        match self {
            Grading::Voting { weak, .. } => weak.say(),
            Grading::Polling { word, .. } => *word,
            _ => SILENT,
        }
    }

    fn hear(&mut self, row: &[u64]) {
        match self {
            Grading::Voting { setup, weak } => {
                weak.hear(row);
                if let Some(answer) = weak.answer() {
                    let (setup, word) = (*setup, told(answer));
                    *self = Grading::Polling { setup, word };
                }
            }
            Grading::Polling { setup, word } => {
                let (setup, said) = (*setup, *word);
                let (value, places) = leader::<W::Value>(Heard { setup, said, row });
                let grade = setup.quorum() <= places;
                *self = Grading::Answered {
                    word: value.word(),
                    grade,
                };
            }
            _ => {}
        }
    }

    fn answer(&self) -> Option<(W::Value, bool)> {
        match self {
            Grading::Answered { word, grade } => Some((W::Value::read_or_rest(*word), *grade)),
            _ => None,
        }
    }

    fn orderly() {
        W::orderly();
    }
}

impl<W: WeakVote> GradedVote for Grading<W> {
    fn graded_law() {
        W::orderly();
        W::weak_law();
    }
}

/// Grading answers the value that leads the row as read, with grade 1 exactly if it has at least n - t of the n places.
pub fn grade_rule<W: WeakVote>()
    ensures { GradeRule W.Value.kind W.Machine.model }
{}
