// Which setups are idle, what a machine does after its last round, and how large it is.

#[cfg(test)]
mod tests {
    use crate::adversary::tests::of_four;
    use crate::{King, Multivalued, ThreeKings};
    use counting::{Count, Grading};
    use phase_king::PhaseKing;
    use protocol::{FullVote, Machine, Refusal, SILENT, Setup, Value};
    use std::mem::size_of;
    use std::test::Fail;
    use step_down::AsGraded;
    use values::{Point, Switch};

    const LARGEST: Setup = Setup {
        n: 64,
        t: 21,
        own: 0,
    };

    // An idle machine is silent, and no row gives it an answer.
    fn idle<M: Machine<Value = Switch>>(setup: Setup) -> bool {
        let mut machine = M::begin(setup, Switch::Go);
        for _ in 0..9 {
            if machine.say() != SILENT || machine.answer().is_some() {
                return false;
            }
            machine.hear(&[1; 64]);
        }
        true
    }

    fn is_idle(setup: Setup) -> bool {
        idle::<Count<Switch>>(setup)
            && idle::<Grading<Count<Switch>>>(setup)
            && idle::<King<Switch>>(setup)
            && idle::<Multivalued<Switch>>(setup)
    }

    // One that votes says its entry's word, and answers once it has heard a row.
    fn votes(setup: Setup) -> bool {
        let mut machine = Count::begin(setup, Switch::Go);
        let said = machine.say();
        let early = machine.answer().is_none();
        machine.hear(&[1; 64]);
        said == 1 && early && machine.answer() == Some(Some(Switch::Go))
    }

    #[test]
    fn setups_at_the_limits(rt: HostRuntime) {
        const MAX: usize = usize::MAX;
        let refused = [
            (3, 1, 0, "a third of three may not be faulty"),
            (1, 0, 0, "one station does not vote"),
            (65, 21, 0, "65 stations are too many"),
            (64, 22, 0, "22 faulty ones are too many"),
            (4, 1, 4, "the own number is below n"),
            (0, 0, 0, "no station at all"),
            (MAX, MAX, MAX, "the largest numbers"),
        ];
        for (n, t, own, why) in refused {
            assert!(rt; is_idle(Setup { n, t, own }), "{why}");
        }
        let taken = [
            (4, 1, 0, "one of four may"),
            (2, 0, 1, "two do"),
            (64, 21, 63, "64 with 21 faulty ones are not"),
        ];
        for (n, t, own, why) in taken {
            assert!(rt; votes(Setup { n, t, own }), "{why}");
        }
    }

    // A machine has its answer after as many rounds and no sooner, and then is silent, whatever it hears.
    fn ends_after<M: Machine<Value = Switch>>(setup: Setup, rounds: usize) -> bool {
        let mut machine = M::begin(setup, Switch::Go);
        if machine.say() != 1 {
            return false;
        }
        for _ in 0..rounds {
            if machine.answer().is_some() {
                return false;
            }
            machine.hear(&[1; 64]);
        }
        for _ in 0..9 {
            if machine.answer().is_none() || machine.say() != SILENT {
                return false;
            }
            machine.hear(&[0; 64]);
        }
        true
    }

    #[test]
    fn answers_come_with_the_last_round(rt: HostRuntime) {
        let four = of_four(2);
        assert!(rt; ends_after::<Count<Switch>>(four, 1));
        assert!(rt; ends_after::<Grading<Count<Switch>>>(four, 2));
        assert!(rt; ends_after::<King<Switch>>(four, 6));
        assert!(rt; ends_after::<King<Switch>>(LARGEST, 66));
        assert!(rt; ends_after::<Multivalued<Switch>>(four, 8));
        assert!(rt; ends_after::<AsGraded<King<Switch>>>(four, 6));
    }

    #[test]
    fn nothing_changes_after_the_answer(rt: HostRuntime) {
        let mut machine = King::<Switch>::begin(of_four(0), Switch::Hold);
        for _ in 0..6 {
            machine.hear(&[0, 0, 0, 1]);
        }
        assert_eq!(rt; machine.answer(), Some(Switch::Hold));
        machine.hear(&[1, 1, 1, 1]);
        assert_eq!(rt; machine.answer(), Some(Switch::Hold));
        assert_eq!(rt; machine.say(), SILENT);
    }

    // The rounds of 64 stations of which 21 may be faulty, and whether they are refused.
    fn of_64<M: Machine>() -> (usize, Option<Refusal>) {
        (M::rounds(64, 21), M::refusal(LARGEST))
    }

    // The same of a vote, and of the vote with one more phase king above: generic, since types this deep take minutes
    // to check where they are written out.
    fn with_a_king_above<M: FullVote>() -> [(usize, Option<Refusal>); 2] {
        [of_64::<M>(), of_64::<PhaseKing<AsGraded<M>>>()]
    }

    #[test]
    fn kings_above_kings(rt: HostRuntime) {
        let [three, four] = with_a_king_above::<ThreeKings<Switch>>();
        assert_eq!(rt; three, (32450, None));
        assert_eq!(rt;
            four,
            (65536, Some(Refusal::Rounds)),
            "it would take 713,922"
        );
    }

    #[test]
    fn a_machine_is_small(rt: HostRuntime) {
        assert!(rt; size_of::<Count<Point>>() <= 64);
        assert!(rt; size_of::<Multivalued<Point>>() <= 256);
        assert!(rt; size_of::<ThreeKings<Point>>() <= 1024);
    }

    #[test]
    fn a_point_is_said_by_its_word(rt: HostRuntime) -> Result<(), Fail> {
        let point = Point::new(2500, 1500)?;
        let machine = Count::<Point>::begin(of_four(2), point);
        assert_eq!(rt; machine.say(), 163847500);
        assert_eq!(rt; Point::rest().word(), 6000);
        Ok(())
    }
}
