// What the tests share: the stations, which of them are faulty, and what these send to whom.

#[cfg(test)]
pub mod tests {
    use protocol::{SILENT, Setup};
    use std::alloc::{AllocError, Global};
    use std::iter;

    // A station of four, of which one may be faulty.
    pub fn of_four(own: usize) -> Setup {
        Setup { n: 4, t: 1, own }
    }

    // Which of two values a station enters.
    #[derive(Clone, Copy, PartialEq, Eq)]
    pub enum Side {
        First,
        Second,
    }

    // Which stations are faulty: the first ones are kings.
    #[derive(Clone, Copy)]
    enum Who {
        First,
        Last,
        EveryThird,
    }

    const WHO: [Who; 3] = [Who::First, Who::Last, Who::EveryThird];

    // What a faulty station sends.
    #[derive(Clone, Copy)]
    enum Style {
        Silent,
        SplitByListener,
        SplitWithSilence,
        SupportOne,
        Garble { seed: u64 },
    }

    const STYLES: [Style; 6] = [
        Style::Silent,
        Style::SplitByListener,
        Style::SplitWithSilence,
        Style::SupportOne,
        Style::Garble { seed: 1 },
        Style::Garble { seed: 2 },
    ];

    // A round, and the two words that are in play in it.
    #[derive(Clone, Copy)]
    pub struct Round {
        pub number: usize,
        pub words: [u64; 2],
    }

    // One run: the first `many` stations enter the second of two values, the others the first one.
    #[derive(Clone, Copy)]
    pub struct Case {
        pub n: usize,
        pub t: usize,
        many: usize,
        faulty: usize,
        who: Who,
        style: Style,
    }

    impl Case {
        // As many faulty stations as may be, and some extra ones. Every set of them meets every style, with no, half
        // and all stations on one side, and at the quorum's edge. What allocates is handed the allocator.
        pub fn all(alloc: Global, n: usize, extra: usize) -> Result<Vec<Case>, AllocError> {
            let t = n.saturating_sub(1) / 3;
            let faulty = t.saturating_add(extra);
            let quorum = n.saturating_sub(t);
            let mut cases = Vec::new(alloc);
            for many in [0, n / 2, quorum.saturating_sub(1), quorum, n] {
                for style in STYLES {
                    for who in WHO {
                        cases.push(Case {
                            n,
                            t,
                            many,
                            faulty,
                            who,
                            style,
                        })?;
                    }
                }
            }
            Ok(cases)
        }

        pub fn is_faulty(self, j: usize) -> bool {
            match self.who {
                Who::First => j < self.faulty,
                Who::Last => self.n.saturating_sub(self.faulty) <= j,
                Who::EveryThird => j % 3 == 1 && j / 3 < self.faulty,
            }
        }

        // What a faulty sender sends a listener.
        fn forged(self, round: Round, sender: usize, listener: usize) -> u64 {
            let [a, b] = round.words;
            let even = listener % 2 == 0;
            match self.style {
                Style::Silent => SILENT,
                Style::SplitByListener if even => a,
                Style::SplitByListener => b,
                Style::SplitWithSilence if even => b,
                Style::SplitWithSilence => SILENT,
                Style::SupportOne if listener == self.n / 2 => b,
                Style::SupportOne => a,
                Style::Garble { seed } => {
                    garbled([a, b, SILENT, 7], seed, [round.number, sender, listener])
                }
            }
        }

        // The row of a listener, given what all stations say: 64 places, of which those from n on are not to be read.
        pub fn row(
            self,
            alloc: Global,
            round: Round,
            said: &[u64],
            listener: usize,
        ) -> Result<Vec<u64>, AllocError> {
            let said = said.iter().copied().chain(iter::repeat(SILENT));
            let heard = said.take(64).enumerate().map(|(j, word)| {
                if self.is_faulty(j) {
                    self.forged(round, j, listener)
                } else {
                    word
                }
            });
            heard.collect(alloc)
        }

        pub fn side(self, j: usize) -> Side {
            if j < self.many {
                Side::Second
            } else {
                Side::First
            }
        }

        // The side that all correct stations are on, if it is one.
        pub fn unanimous(self) -> Option<Side> {
            let mut sides = (0..self.n)
                .filter(|j| !self.is_faulty(*j))
                .map(|j| self.side(j));
            let common = sides.next()?;
            sides.all(|side| side == common).then_some(common)
        }
    }

    // One of the words, by a mixture of the numbers.
    fn garbled(words: [u64; 4], seed: u64, numbers: [usize; 3]) -> u64 {
        let mixed = numbers.iter().fold(seed, |mixed, x| {
            (mixed ^ (*x as u64))
                .wrapping_mul(6364136223846793005)
                .rotate_left(23)
        });
        words[(mixed % 4) as usize]
    }
}
