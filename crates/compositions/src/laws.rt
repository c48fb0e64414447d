ghost use Rattle.protocol.specs.Laws.{FullLaw};
ghost use Rattle.compositions.specs.Composition.{Composition, Given, Full, protocol, Compositions};
ghost use Rattle.compositions.specs.Named.{king, kings, multivalued};
ghost use Rattle.compositions.specs.Same.{SameVote, itself};

use counting::{Count, Grading};
use phase_king::PhaseKing;
use protocol::{FullVote, Value, lawful_kind};
use step_down::AsGraded;
use turpin_coan::TurpinCoan;
use values::Switch;

/// A phase king over grading of the counting vote.
pub type King<V> = PhaseKing<Grading<Count<V>>>;

/// Three phase kings one above the other.
pub type ThreeKings<V> = PhaseKing<AsGraded<PhaseKing<AsGraded<King<V>>>>>;

/// Values of any kind, decided by a phase king on the switch.
pub type Multivalued<V> = TurpinCoan<Grading<Count<V>>, King<Switch>>;

/// Every composition over a kind of values keeps the law that it promises.
pub fn compositions_keep_their_laws<V: Value>()
    ensures { Compositions V.Value.kind }
{
    lawful_kind::<V>();
    lawful_kind::<Switch>();
}

/// A type of vote that stands for a composition: the two cannot be told apart.
pub trait NamedComposition: FullVote {
    ghost composition: { Composition Given Full };

    ghost same: { SameVote Self.Machine.model (protocol Self.Value.kind composition) };
}

impl<V: Value> NamedComposition for King<V> {
    ghost composition = { king Given };

    ghost same = { itself _ };
}

impl<V: Value> NamedComposition for ThreeKings<V> {
    ghost composition = { kings Given 2 };

    ghost same = { itself _ };
}

impl<V: Value> NamedComposition for Multivalued<V> {
    ghost composition = { multivalued };

    ghost same = { itself _ };
}

/// Such a type cannot be told apart from its composition, and so the composition keeps its full law.
pub fn named_law<M: NamedComposition>()
    ensures same { SameVote M.Machine.model (protocol M.Value.kind M.NamedComposition.composition) }
    ensures law { FullLaw (protocol M.Value.kind M.NamedComposition.composition) }
{
    M::full_law();
}
