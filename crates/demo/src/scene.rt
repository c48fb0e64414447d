ghost use Rattle.std.specs.Prelude.{◌≡◌};
ghost use Rattle.values.specs.PointKind.{point_kind};
ghost use Rattle.demo.specs.Promise.{Promise};
ghost use Rattle.demo.specs.Settling.{settling, settled_in};

use crate::vote::vote;
use counting::{Count, Grading};
use phase_king::PhaseKing;
use protocol::Machine;
use turpin_coan::TurpinCoan;
use values::{Point, Switch};

/// An operating point by Turpin-Coan; whether it is taken is decided by a phase king on the switch.
pub type Settling = TurpinCoan<Grading<Count<Point>>, PhaseKing<Grading<Count<Switch>>>>;

/// For how many rounds words are forged: as many as the vote takes.
pub const ROUNDS: usize = 8;

/// What the correct stations 1, 2 and 3 enter, and the words that the faulty station 0 sends each of them: as they go
/// over the wire, where the silent word is none.
#[derive(Clone, Copy)]
pub struct Scene {
    pub entries: [Point; 3],
    pub forged: [[u64; 3]; ROUNDS],
}

impl Scene {
    /// How many rounds the vote takes.
    pub fn rounds() -> usize
        ensures { result ≡ settling.rounds 4 1 }
    {
        Settling::rounds(4, 1)
    }

    /// Runs the whole vote: what the correct stations answer.
    pub fn vote(&self) -> [Option<Point>; 3]
        ensures answers { result ≡ settled_in self.now }
        ensures promise { Promise point_kind self.now.entries result }
    {
        vote::<Point, Settling>(&self.entries, &self.forged)
    }
}
