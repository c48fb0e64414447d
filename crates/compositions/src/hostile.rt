// Whole runs of the layers with hostile faulty stations, held against the laws.

#[cfg(test)]
mod tests {
    use crate::adversary::tests::{Case, Round, Side};
    use crate::{King, Multivalued};
    use counting::{Count, Grading};
    use phase_king::PhaseKing;
    use protocol::{FullVote, Machine, Setup, Value};
    use std::alloc::{AllocError, Global};
    use std::test::Fail;
    use step_down::{AsGraded, AsWeak};
    use values::{Point, Switch};

    const SIZES: [usize; 4] = [4, 7, 10, 64];

    // The two values that are entered. From round `until` on the words in play are those of the switch.
    #[derive(Clone, Copy)]
    struct Sides<V> {
        first: V,
        second: V,
        until: usize,
    }

    const SWITCHES: Sides<Switch> = Sides {
        first: Switch::Hold,
        second: Switch::Go,
        until: 0,
    };

    impl<V: Value> Sides<V> {
        fn value(self, side: Side) -> V {
            match side {
                Side::First => self.first,
                Side::Second => self.second,
            }
        }

        fn round(self, number: usize) -> Round {
            let words = if number < self.until {
                [self.first.word(), self.second.word()]
            } else {
                [Switch::Hold.word(), Switch::Go.word()]
            };
            Round { number, words }
        }
    }

    // A run, and the values of its two sides.
    #[derive(Clone, Copy)]
    struct Trial<V> {
        case: Case,
        sides: Sides<V>,
    }

    impl<V: Value> Trial<V> {
        // The value that all correct stations enter.
        fn entered(self) -> Option<V> {
            Some(self.sides.value(self.case.unanimous()?))
        }

        // The machines of all stations, before the first round.
        fn begun<M: Machine<Value = V>>(self, alloc: Global) -> Result<Vec<M>, AllocError> {
            let Case { n, t, .. } = self.case;
            let machines = (0..n).map(|own| {
                let value = self.sides.value(self.case.side(own));
                M::begin(Setup { n, t, own }, value)
            });
            machines.collect(alloc)
        }

        // What the correct stations answer after all rounds.
        fn answers<M: Machine<Value = V>>(
            self,
            alloc: Global,
        ) -> Result<Vec<Option<M::Answer>>, AllocError> {
            let Trial { case, sides } = self;
            let mut machines = self.begun::<M>(alloc)?;
            // by number: what is in play and what is forged depends on it
            for number in 0..M::rounds(case.n, case.t) {
                run_round(alloc, &mut machines, case, sides.round(number))?;
            }
            let stations = machines.iter().enumerate();
            stations
                .filter(|(j, _)| !case.is_faulty(*j))
                .map(|(_, machine)| machine.answer())
                .collect(alloc)
        }
    }

    // Each station says its word and hears its row.
    fn run_round<M: Machine>(
        alloc: Global,
        machines: &mut [M],
        case: Case,
        round: Round,
    ) -> Result<(), AllocError> {
        let said: Vec<u64> = machines.iter().map(|machine| machine.say()).collect(alloc)?;
        for (listener, machine) in machines.iter_mut().enumerate() {
            machine.hear(&case.row(alloc, round, &said, listener)?);
        }
        Ok(())
    }

    // All correct stations answer one value, and that which all of them entered.
    fn keeps_full_law<V: Copy + PartialEq>(entered: Option<V>, answers: &[Option<V>]) -> bool {
        let answered = answers.iter().flatten().next();
        let common = entered.or(answered.copied());
        answers
            .iter()
            .all(|answer| answer.is_some_and(|value| common == Some(value)))
    }

    // What a correct station answers with grade 1 all correct ones answer, and with grade 1 if all of them entered it.
    fn keeps_graded_law<V: Copy + PartialEq>(
        entered: Option<V>,
        answers: &[Option<(V, bool)>],
    ) -> bool {
        let graded_one = answers.iter().flatten().find(|(_, grade)| *grade);
        let sure = entered.or(graded_one.map(|(value, _)| *value));
        answers.iter().all(|answer| {
            answer.is_some_and(|(value, grade)| {
                sure.unwrap_or(value) == value && (grade || entered.is_none())
            })
        })
    }

    // Whether all cases of so many stations, with `extra` more faulty than may be, keep a law, which is given the value
    // that all correct stations entered and what each of them answered.
    fn all_keep<M: Machine, F: Fn(Option<M::Value>, &[Option<M::Answer>]) -> bool>(
        alloc: Global,
        sizes: &[usize],
        extra: usize,
        sides: Sides<M::Value>,
        law: F,
    ) -> Result<bool, AllocError>
        requires { F.IsAlwaysCallable law }
    {
        for n in sizes {
            for case in Case::all(alloc, *n, extra)? {
                let trial = Trial { case, sides };
                let answers = trial.answers::<M>(alloc)?;
                if !law(trial.entered(), &answers) {
                    return Ok(false);
                }
            }
        }
        Ok(true)
    }

    // One test for each vote, so that a failure names the vote.

    #[test]
    fn grading_keeps_its_law(rt: HostRuntime) -> Result<(), AllocError> {
        let keep = all_keep::<Grading<Count<Switch>>, _>(
            rt.alloc(),
            &SIZES,
            0,
            SWITCHES,
            keeps_graded_law,
        )?;
        assert!(rt; keep);
        Ok(())
    }

    #[test]
    fn phase_king_keeps_its_law(rt: HostRuntime) -> Result<(), AllocError> {
        let keep = all_keep::<King<Switch>, _>(rt.alloc(), &SIZES, 0, SWITCHES, keeps_full_law)?;
        assert!(rt; keep);
        Ok(())
    }

    // What the other tests look for can be seen: one faulty station more, and some run breaks the law.
    #[test]
    fn one_faulty_station_too_many_breaks_the_law(rt: HostRuntime) -> Result<(), AllocError> {
        let keep = all_keep::<King<Switch>, _>(rt.alloc(), &[4], 1, SWITCHES, keeps_full_law)?;
        assert!(rt; !keep);
        Ok(())
    }

    #[test]
    fn turpin_coan_keeps_its_law(rt: HostRuntime) -> Result<(), Fail> {
        let sides = Sides {
            first: Point::new(2500, -1500)?,
            second: Point::new(2500, 1500)?,
            until: 2,
        };
        let keep = all_keep::<Multivalued<Point>, _>(rt.alloc(), &SIZES, 0, sides, keeps_full_law)?;
        assert!(rt; keep);
        Ok(())
    }

    #[test]
    fn stepping_down_keeps_its_law(rt: HostRuntime) -> Result<(), AllocError> {
        let keep = all_keep::<AsGraded<King<Switch>>, _>(
            rt.alloc(),
            &SIZES,
            0,
            SWITCHES,
            keeps_graded_law,
        )?;
        assert!(rt; keep);
        Ok(())
    }

    // Grading of a vote that steps down to a weak one, under a phase king. Generic, since so deep a type takes minutes
    // to check where it is written out.
    fn layered_keep<V: Value + PartialEq, M: FullVote + Machine<Value = V>>(
        alloc: Global,
        sides: Sides<V>,
    ) -> Result<bool, AllocError> {
        all_keep::<PhaseKing<Grading<AsWeak<M>>>, _>(alloc, &SIZES, 0, sides, keeps_full_law)
    }

    #[test]
    fn layers_on_layers_keep_their_law(rt: HostRuntime) -> Result<(), AllocError> {
        assert!(rt; layered_keep::<_, King<Switch>>(rt.alloc(), SWITCHES)?);
        Ok(())
    }
}
