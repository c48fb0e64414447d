// Rows of every length and content: what a station reads of them, and who leads.

#[cfg(test)]
mod tests {
    use crate::adversary::tests::of_four;
    use counting::{Count, leader};
    use protocol::{Heard, Machine, SILENT, Setup, Value};
    use std::test::Fail;
    use values::{Point, Switch};

    // What station `own` of four, of which one may be faulty, answers to a row.
    fn counted(own: usize, entry: Switch, row: &[u64]) -> Option<Option<Switch>> {
        let mut machine = Count::<Switch>::begin(of_four(own), entry);
        machine.hear(row);
        machine.answer()
    }

    const GO: Option<Option<Switch>> = Some(Some(Switch::Go));

    const UNDECIDED: Option<Option<Switch>> = Some(None);

    #[test]
    fn short_and_long_rows(rt: HostRuntime) {
        assert_eq!(rt;
            counted(0, Switch::Go, &[]),
            UNDECIDED,
            "only the own place holds a word"
        );
        assert_eq!(rt;
            counted(3, Switch::Go, &[1, 1]),
            GO,
            "the own place lies past the row's end"
        );
        assert_eq!(rt; counted(2, Switch::Hold, &[1, 1]), UNDECIDED);
        assert_eq!(rt; counted(0, Switch::Go, &[1, 1, 1]), GO);
        assert_eq!(rt;
            counted(0, Switch::Go, &[1, 1, 0, 0, 1, 1, 1]),
            UNDECIDED,
            "places from n on are not read"
        );
        assert_eq!(rt; counted(0, Switch::Go, &[1, 1, 1, 0, 0, 0, 0]), GO);
    }

    #[test]
    fn the_own_place_holds_what_was_said(rt: HostRuntime) {
        assert_eq!(rt;
            counted(0, Switch::Go, &[0, 1, 1, 0]),
            GO,
            "the row says that we said Hold"
        );
        assert_eq!(rt;
            counted(3, Switch::Hold, &[1, 1, 0, 1]),
            UNDECIDED,
            "the row says that we said Go"
        );
        assert_eq!(rt; counted(1, Switch::Go, &[1, SILENT, 1, 0]), GO);
    }

    #[test]
    fn the_quorum_is_out_of_n(rt: HostRuntime) {
        assert_eq!(rt;
            counted(0, Switch::Go, &[1, 1, SILENT, SILENT]),
            UNDECIDED,
            "all that arrived agree"
        );
        assert_eq!(rt;
            counted(0, Switch::Go, &[1, 1, 2, 7]),
            UNDECIDED,
            "words that read as none"
        );
        assert_eq!(rt; counted(0, Switch::Go, &[1, 1, 1, SILENT]), GO);
    }

    #[test]
    fn ties_go_to_the_least(rt: HostRuntime) -> Result<(), Fail> {
        let setup = of_four(0);
        let led = |said: u64, row: &[u64]| leader::<Switch>(Heard { setup, said, row });
        assert_eq!(rt; led(1, &[1, 0, SILENT, SILENT]), (Switch::Hold, 1));
        assert_eq!(rt; led(1, &[1, 0, 0, 1]), (Switch::Hold, 2));
        assert_eq!(rt; led(SILENT, &[1, 1, 0, 0]), (Switch::Hold, 2));
        assert_eq!(rt;
            led(SILENT, &[]),
            (Switch::Hold, 0),
            "rest if no place reads as a value"
        );
        let gentle = Point::new(1, -1)?;
        let strong = Point::new(7000, 6000)?;
        let heard = Heard {
            setup: Setup { n: 5, t: 1, own: 0 },
            said: strong.word(),
            row: &[
                strong.word(),
                gentle.word(),
                strong.word(),
                gentle.word(),
                SILENT,
            ],
        };
        assert_eq!(rt; leader::<Point>(heard), (gentle, 2), "the smaller load");
        Ok(())
    }

    #[test]
    fn more_places_lead(rt: HostRuntime) -> Result<(), Fail> {
        let setup = Setup { n: 7, t: 2, own: 6 };
        let led = |said: u64, row: &[u64]| leader::<Point>(Heard { setup, said, row });
        let gentle = Point::new(1, 1)?.word();
        let strong = Point::new(7000, -6000)?;
        let row = [
            gentle,
            strong.word(),
            SILENT,
            strong.word(),
            gentle,
            strong.word(),
            gentle,
        ];
        assert_eq!(rt; led(SILENT, &row), (strong, 3), "without a majority");
        let late = [
            0,
            gentle,
            1,
            strong.word(),
            strong.word(),
            strong.word(),
            strong.word(),
        ];
        assert_eq!(rt;
            led(strong.word(), &late),
            (strong, 4),
            "a majority that begins late"
        );
        Ok(())
    }
}
