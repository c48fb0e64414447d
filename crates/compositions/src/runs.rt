// Whole runs with faulty stations, held against the weak law.

#[cfg(test)]
mod tests {
    use crate::adversary::tests::of_four;
    use counting::Count;
    use protocol::{Machine, SILENT, Setup, Value};
    use std::test::Fail;
    use values::{Point, Switch};

    const SWITCHES: [Switch; 2] = [Switch::Hold, Switch::Go];

    // The words that may matter to a station.
    const WORDS: [u64; 4] = [0, 1, 2, SILENT];

    fn begun(own: usize, entry: Switch) -> Count<Switch> {
        Count::begin(of_four(own), entry)
    }

    // What the three correct stations of four answer where the faulty one, station 3, tells each of them a word of its
    // own.
    fn answers([x, y, z]: [Switch; 3], forged: [u64; 3]) -> [Option<Option<Switch>>; 3] {
        let mut stations = [begun(0, x), begun(1, y), begun(2, z)];
        let [a, b, c] = stations.map(|station| station.say());
        for (station, word) in stations.iter_mut().zip(forged) {
            station.hear(&[a, b, c, word]);
        }
        stations.map(|station| station.answer())
    }

    // Each has answered, a value or none, and any two values are the same.
    fn consistent(answers: &[Option<Option<Switch>>]) -> bool {
        let some_hold = answers.contains(&Some(Some(Switch::Hold)));
        let some_go = answers.contains(&Some(Some(Switch::Go)));
        !answers.contains(&None) && !(some_hold && some_go)
    }

    // Whether the three keep the weak law whatever each of them is told.
    fn keep_weak_law(entries: [Switch; 3]) -> bool {
        let [first, ..] = entries;
        let unanimous = entries == [first; 3];
        for a in WORDS {
            for b in WORDS {
                for c in WORDS {
                    let answers = answers(entries, [a, b, c]);
                    if !consistent(&answers) || (unanimous && answers != [Some(Some(first)); 3]) {
                        return false;
                    }
                }
            }
        }
        true
    }

    // Every entry of the three correct stations against every word that may matter to each of them.
    #[test]
    fn every_adversary_of_four(rt: HostRuntime) {
        for x in SWITCHES {
            for y in SWITCHES {
                for z in SWITCHES {
                    assert!(rt; keep_weak_law([x, y, z]), "{x:?} {y:?} {z:?}");
                }
            }
        }
    }

    // What station 0 of 64, of which 21 may be faulty, answers where `many` stations say its point and the others
    // the word `other`.
    fn of_64(mine: Point, other: u64, many: usize) -> Option<Option<Point>> {
        let mut row = [other; 64];
        row[..many.min(64)].fill(mine.word());
        let setup = Setup {
            n: 64,
            t: 21,
            own: 0,
        };
        let mut machine = Count::begin(setup, mine);
        machine.hear(&row);
        machine.answer()
    }

    #[test]
    fn the_edge_of_the_quorum_of_64(rt: HostRuntime) -> Result<(), Fail> {
        let mine = Point::new(2500, 1500)?;
        let other = Point::new(2500, -1500)?;
        assert_eq!(rt; of_64(mine, other.word(), 43), Some(Some(mine)));
        assert_eq!(rt; of_64(mine, other.word(), 42), Some(None));
        assert_eq!(rt;
            of_64(mine, SILENT, 42),
            Some(None),
            "silence does not lower the quorum"
        );
        assert_eq!(rt; of_64(mine, other.word(), 21), Some(Some(other)));
        assert_eq!(rt; of_64(mine, other.word(), 22), Some(None));
        Ok(())
    }
}
