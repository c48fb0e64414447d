ghost use Rattle.counting.specs.Counting.{counting};
ghost use Rattle.counting.specs.QuorumRule.{QuorumRule};

use crate::tally::leader;
use protocol::{Heard, Machine, SILENT, Setup, Value, WeakVote};
use std::marker::PhantomData;

/// Where a station stands in the counting vote. By the rules a machine keeps values as words, and none as the silent
/// word.
#[derive(Clone, Copy)]
pub enum CountState {
    Idle,
    Voting { setup: Setup, word: u64 },
    Answered { word: u64 },
}

/// The counting vote on values of one kind: one round, for at most 64 stations of which 21 may be faulty.
#[derive_where(Clone, Copy)]
pub struct Count<V> {
    state: CountState,
    kind: PhantomData<V>,
}

impl<V: Value> Machine for Count<V> {
    type Value = V;

    type Answer = Option<V>;

    ghost model = { counting V.Value.kind };

    ghost state = { λ m. m.state };

    fn max_stations() -> usize {
        64
    }

    fn max_faulty() -> usize {
        21
    }

    fn rounds(_n: usize, _t: usize) -> usize {
        1
    }

    // as every vote begins, but in states of its own: what they share is `refusal`
    fn begin(setup: Setup, value: V) -> Count<V> {
        let state = match Self::refusal(setup) {
            Some(_) => CountState::Idle,
            None => CountState::Voting {
                setup,
                word: value.word(),
            },
        };
        Count {
            state,
            kind: PhantomData,
        }
    }

    fn say(&self) -> u64 {
        match self.state {
            CountState::Voting { word, .. } => word,
            _ => SILENT,
        }
    }

    fn hear(&mut self, row: &[u64]) {
        if let CountState::Voting { setup, word } = self.state {
            let said = word;
            let (value, places) = leader::<V>(Heard { setup, said, row });
            let word = if setup.quorum() <= places {
                value.word()
            } else {
                SILENT
            };
            self.state = CountState::Answered { word };
        }
    }

    fn answer(&self) -> Option<Option<V>> {
        match self.state {
            CountState::Answered { word } => Some(V::read(word)),
            _ => None,
        }
    }

    fn orderly() {}
}

impl<V: Value> WeakVote for Count<V> {
    fn weak_law() {}
}

/// The counting vote answers a value exactly if at least n - t of the n places read as it.
pub fn quorum_rule<V: Value>()
    ensures { QuorumRule V.Value.kind }
{}
