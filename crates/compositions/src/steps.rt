// The layers round by round: what a station says after rows that were chosen for it.

#[cfg(test)]
mod tests {
    use crate::adversary::tests::of_four;
    use crate::{King, Multivalued};
    use counting::{Count, Grading};
    use protocol::{Machine, SILENT, Value};
    use std::test::Fail;
    use values::{Point, Switch};

    const MUTE: u64 = SILENT;

    // A station of four, of which one may be faulty, and the value that it enters.
    #[derive(Clone, Copy)]
    struct Station<V> {
        own: usize,
        entry: V,
    }

    impl<V: Value> Station<V> {
        // Its machine, once it has heard some rows.
        fn after<M: Machine<Value = V>>(self, rows: &[[u64; 4]]) -> M {
            let mut machine = M::begin(of_four(self.own), self.entry);
            for row in rows {
                machine.hear(row);
            }
            machine
        }
    }

    impl Station<Switch> {
        // What it answers when it grades a counting vote.
        fn graded(self, rows: &[[u64; 4]]) -> Option<(Switch, bool)> {
            self.after::<Grading<Count<Switch>>>(rows).answer()
        }

        // What it says after some rounds of a phase king.
        fn says(self, rows: &[[u64; 4]]) -> u64 {
            self.after::<King<Switch>>(rows).say()
        }
    }

    // What station 2 answers that entered a point, after two rounds on points and six equal rows on the switch.
    fn decided(entry: Point, [a, b]: [[u64; 4]; 2], s: [u64; 4]) -> Option<Point> {
        let station = Station { own: 2, entry };
        station
            .after::<Multivalued<Point>>(&[a, b, s, s, s, s, s, s])
            .answer()
    }

    #[test]
    fn grading_polls_the_answers(rt: HostRuntime) {
        let station = Station {
            own: 0,
            entry: Switch::Go,
        };
        let all_go = [1, 1, 1, 1];
        assert_eq!(rt;
            station.graded(&[all_go]),
            None,
            "no answer after one round"
        );
        assert_eq!(rt;
            station.graded(&[all_go, [1, 0, MUTE, MUTE]]),
            Some((Switch::Hold, false)),
            "a tie goes to the least"
        );
        assert_eq!(rt;
            station.graded(&[all_go, [1, 1, 1, 0]]),
            Some((Switch::Go, true))
        );
        assert_eq!(rt;
            station.graded(&[all_go, [1, 1, MUTE, MUTE]]),
            Some((Switch::Go, false)),
            "the quorum is out of n, not of the words that arrived"
        );
        assert_eq!(rt;
            station.graded(&[all_go, [0, 1, 1, 0]]),
            Some((Switch::Go, true)),
            "the own place holds what was said"
        );
        assert_eq!(rt;
            station.graded(&[[1, 0, 0, 1], [1, 1, 1, 0]]),
            Some((Switch::Go, false)),
            "without an answer of the weak vote nothing is told"
        );
        assert_eq!(rt;
            station.graded(&[[1, 0, 0, 1], [MUTE; 4]]),
            Some((Switch::Hold, false)),
            "rest if no place reads as a value"
        );
    }

    #[test]
    fn grade_one_keeps_its_value(rt: HostRuntime) {
        let station = Station {
            own: 2,
            entry: Switch::Go,
        };
        let sure = [[1, 1, 1, 0], [1, 1, 1, 0]];
        assert_eq!(rt; station.says(&sure), MUTE, "station 2 is not king");
        assert_eq!(rt;
            station.says(&[sure[0], sure[1], [0, MUTE, MUTE, MUTE]]),
            1,
            "the king says hold"
        );
    }

    #[test]
    fn grade_zero_obeys_the_king(rt: HostRuntime) {
        let station = Station {
            own: 2,
            entry: Switch::Go,
        };
        let split = [1, 0, 1, 0];
        let none = [MUTE; 4];
        assert_eq!(rt; station.says(&[split, none, [1, MUTE, MUTE, MUTE]]), 1);
        assert_eq!(rt;
            station.says(&[split, none, [0, 1, 1, 1]]),
            0,
            "only the king counts"
        );
        assert_eq!(rt;
            station.says(&[split, none, [MUTE, 1, 1, 1]]),
            0,
            "a silent king means rest"
        );
        assert_eq!(rt;
            station.says(&[split, none, [9, 1, 1, 1]]),
            0,
            "so does a word that reads as none"
        );
    }

    #[test]
    fn the_king_is_the_phase(rt: HostRuntime) {
        let first = Station {
            own: 0,
            entry: Switch::Go,
        };
        let second = Station {
            own: 1,
            entry: Switch::Go,
        };
        let second_holds = Station {
            own: 1,
            entry: Switch::Hold,
        };
        let rows = [[1, 0, 1, 0], [0, MUTE, 1, 1], [0, MUTE, MUTE, MUTE]];
        assert_eq!(rt;
            first.says(&[rows[0], rows[1]]),
            1,
            "station 0 rules the first phase"
        );
        assert_eq!(rt; second_holds.says(&[rows[0], rows[1]]), MUTE);
        assert_eq!(rt; first.says(&rows), 1, "and hears its own place from itself");
        let five_rows = [rows[0], rows[1], rows[2], rows[0], rows[1]];
        assert_eq!(rt; second.says(&five_rows), 1, "station 1 the second");
        assert_eq!(rt; first.says(&five_rows), MUTE);
    }

    #[test]
    fn the_switch_decides(rt: HostRuntime) -> Result<(), Fail> {
        let point = Point::new(2500, 1500)?;
        let other = Point::new(2500, -1500)?;
        let w = point.word();
        let sure = [[w, w, w, MUTE], [w, w, w, MUTE]];
        assert_eq!(rt; decided(point, sure, [1, 1, MUTE, 1]), Some(point));
        assert_eq!(rt;
            decided(point, sure, [0, 0, MUTE, 0]),
            Some(Point::rest()),
            "three hold"
        );
        let unsure = [[w, w, MUTE, MUTE], [w, w, w, MUTE]];
        assert_eq!(rt;
            decided(other, unsure, [1, 1, MUTE, 1]),
            Some(point),
            "go with grade 0 takes the leader"
        );
        assert_eq!(rt;
            decided(other, unsure, [0, 0, MUTE, 0]),
            Some(Point::rest())
        );
        Ok(())
    }
}
