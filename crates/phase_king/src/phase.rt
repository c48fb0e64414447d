ghost use Rattle.std.specs.Prelude.{◌≡◌};
ghost use Rattle.phase_king.specs.PhaseKing.{king_word, after_king, next_phase};

use protocol::{Heard, SILENT, Setup, Value};

/// One phase as a station has it: its setup, and the number of the station that is king.
#[derive(Clone, Copy)]
pub struct Phase {
    pub setup: Setup,
    pub king: usize,
}

impl Phase {
    // What is said in the king's round: by the king the word of its graded value, by all others nothing.
    pub(crate) fn king_word(self, word: u64) -> u64
        ensures { result ≡ king_word self word }
    {
        if self.setup.own == self.king {
            word
        } else {
            SILENT
        }
    }

    // The value after the king's round: with grade 0 the king's, with grade 1 the own one. Word and grade are the pair
    // that a graded vote answers by the rules.
    pub(crate) fn after_king<V: Value>(self, word: u64, grade: bool, row: &[u64]) -> V
        ensures { result ≡ after_king V.Value.kind self word grade row.now }
    {
        let (setup, said) = (self.setup, self.king_word(word));
        let heard = Heard { setup, said, row };
        let word = if grade { word } else { heard.at(self.king) };
        V::read_or_rest(word)
    }

    // The phase of the next king, or none after the last, which is that of king t.
    pub(crate) fn next(self) -> Option<Phase>
        ensures { result ≡ next_phase self }
    {
        if self.king < self.setup.t {
            Some(Phase {
                king: self.king + 1,
                ..self
            })
        } else {
            None
        }
    }
}
