ghost use Rattle.std.specs.Prelude.{◌≡◌};
ghost use Rattle.demo.specs.Settling.{settled_in};

use crate::purpose::PURPOSES;
use crate::scene::{ROUNDS, Scene};
use crate::told::Told;
use std::{fmt, io};
use values::Point;

/// A vote that was run: its scene, and what the correct stations 1, 2 and 3 answered. Entries and answers are an array
/// each, as the vote takes and gives them.
#[derive(Clone, Copy)]
pub(crate) struct Outcome {
    scene: Scene,
    answers: [Option<Point>; 3],
}

impl Outcome {
    /// The outcome of a scene's vote.
    pub(crate) fn of(scene: Scene) -> Self
        ensures scene { result.scene ≡ scene }
        ensures answers { result.answers ≡ settled_in scene }
    {
        Outcome {
            scene,
            answers: scene.vote(),
        }
    }

    /// Shows what was entered, told and answered, and whether what is promised of it held.
    pub(crate) fn show(&self, rt: &HostRuntime) -> io::Result<()> {
        for (station, entry) in (1..=3).zip(self.scene.entries) {
            println!(rt; "  station {station} enters {entry}")?;
        }
        self.show_rounds(rt)?;
        for (station, answer) in (1..=3).zip(self.answers) {
            println!(rt; "  station {station} answers {}", Answer(answer))?;
        }
        self.show_promises(rt)
    }

    // What the faulty station tells the others, round by round.
    fn show_rounds(&self, rt: &HostRuntime) -> io::Result<()> {
        for ((round, purpose), words) in (1..=ROUNDS).zip(PURPOSES).zip(self.scene.forged) {
            let [first, second, third] = words.map(|word| Told { purpose, word });
            println!(rt;
                "  round {round}, {purpose}: station 0 tells 1 {first}; 2 {second}; 3 {third}"
            )?;
        }
        Ok(())
    }

    // The two halves of the full law.
    fn show_promises(&self, rt: &HostRuntime) -> io::Result<()> {
        if self.unanimous().is_some() {
            println!(rt;
                "  promised: all correct stations entered one point, so all answer it: {}",
                Verdict(self.is_valid())
            )?;
        }
        println!(rt;
            "  promised: all correct stations answer the same point: {}",
            Verdict(self.is_agreed())
        )
    }

    /// Whether what is promised held.
    pub(crate) fn keeps_promise(&self) -> bool {
        self.is_valid() && self.is_agreed()
    }

    // The point that all correct stations entered, if it is the same.
    fn unanimous(&self) -> Option<Point> {
        let [point, _, _] = self.scene.entries;
        (self.scene.entries == [point; 3]).then_some(point)
    }

    // Where all entered one point, all answer it.
    fn is_valid(&self) -> bool {
        self.unanimous()
            .is_none_or(|point| self.answers == [Some(point); 3])
    }

    // All answer the same point.
    fn is_agreed(&self) -> bool {
        let [answer, _, _] = self.answers;
        answer.is_some() && self.answers == [answer; 3]
    }
}

// What a station answers.
#[derive(Drop)]
struct Answer(Option<Point>);

impl fmt::Display for Answer {
    fn fmt<W: fmt::Write>(&self, f: &mut fmt::Formatter<W>) -> fmt::Result {
        match self.0 {
            Some(point) => write!(f, "{point}"),
            None => f.write_str("nothing"),
        }
    }
}

// Whether a promise held.
#[derive(Drop)]
struct Verdict(bool);

impl fmt::Display for Verdict {
    fn fmt<W: fmt::Write>(&self, f: &mut fmt::Formatter<W>) -> fmt::Result {
        f.write_str(if self.0 { "held" } else { "BROKEN" })
    }
}
