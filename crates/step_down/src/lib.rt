//! Stepping down: a full vote that stands as a weak or as a graded one.

#![tactic(auto)]

ghost use Rattle.std.specs.Prelude.{◌≡◌};
ghost use Rattle.step_down.specs.StepDown.{answering, weak_form, graded_form};

use protocol::{FullVote, GradedVote, Machine, Setup, WeakVote};
use std::marker::PhantomData;

/// The form in which a full vote's answer is given by a vote that promises less. No `From` does it: none makes a pair.
pub trait Form<V>: Copy {
    type Answer: Copy;

    ghost form: { V → Self.Answer };

    fn give(value: V) -> Self::Answer
        ensures { result ≡ form value };
}

/// The form of a weak vote: the value, never none.
#[derive(Clone, Copy)]
pub struct Weak;

/// The form of a graded vote: the value with grade 1.
#[derive(Clone, Copy)]
pub struct Graded;

impl<V: Copy> Form<V> for Weak {
    type Answer = Option<V>;

    ghost form = { weak_form };

    fn give(value: V) -> Option<V> {
        Some(value)
    }
}

impl<V: Copy> Form<V> for Graded {
    // by the rules a graded answer is a pair of value and grade
    type Answer = (V, bool);

    ghost form = { graded_form };

    fn give(value: V) -> (V, bool) {
        (value, true)
    }
}

/// A full vote that stands as one that promises less, in as many rounds.
#[derive_where(Clone, Copy; F)]
pub struct StepDown<F, A> {
    full: F,
    form: PhantomData<A>,
}

/// A full vote as a weak one.
pub type AsWeak<F> = StepDown<F, Weak>;

/// A full vote as a graded one.
pub type AsGraded<F> = StepDown<F, Graded>;

impl<F: FullVote, A: Form<F::Value>> Machine for StepDown<F, A> {
    type Value = F::Value;

    type Answer = A::Answer;

    ghost model = { answering A.Form.form F.Machine.model };

    ghost state = { λ m. F.Machine.state m.full };

    // the limits of the vote below, as in every layer: `Machine` knows of no vote below that it could ask
    fn max_stations() -> usize {
        F::max_stations()
    }

    fn max_faulty() -> usize {
        F::max_faulty()
    }

    fn rounds(n: usize, t: usize) -> usize {
        F::rounds(n, t)
    }

    fn begin(setup: Setup, value: F::Value) -> StepDown<F, A> {
        StepDown {
            full: F::begin(setup, value),
            form: PhantomData,
        }
    }

    fn say(&self) -> u64 {
        self.full.say()
    }

    fn hear(&mut self, row: &[u64]) {
        self.full.hear(row);
    }

    fn answer(&self) -> Option<A::Answer> {
        self.full.answer().map(|value| A::give(value))
    }

    fn orderly() {
        F::orderly();
    }
}

impl<F: FullVote> WeakVote for StepDown<F, Weak> {
    fn weak_law() {
        F::full_law();
    }
}

impl<F: FullVote> GradedVote for StepDown<F, Graded> {
    fn graded_law() {
        F::full_law();
    }
}
