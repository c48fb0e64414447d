use crate::scene::ROUNDS;
use std::fmt;

/// What a round of the vote is for.
#[derive(Clone, Copy)]
pub(crate) enum Purpose {
    CountPoints,
    GradePoints,
    CountSwitches,
    GradeSwitches,
    // a station is king
    King(usize),
}

/// What each round of the vote is for, the first round first. Not beside the words of the rounds, since it is the same
/// for every scene.
pub(crate) const PURPOSES: [Purpose; ROUNDS] = [
    Purpose::CountPoints,
    Purpose::GradePoints,
    Purpose::CountSwitches,
    Purpose::GradeSwitches,
    Purpose::King(0),
    Purpose::CountSwitches,
    Purpose::GradeSwitches,
    Purpose::King(1),
];

impl fmt::Display for Purpose {
    fn fmt<W: fmt::Write>(&self, f: &mut fmt::Formatter<W>) -> fmt::Result {
        match self {
            Purpose::CountPoints => f.write_str("points are counted"),
            Purpose::GradePoints => f.write_str("points are graded"),
            Purpose::CountSwitches => f.write_str("go or hold is counted"),
            Purpose::GradeSwitches => f.write_str("go or hold is graded"),
            Purpose::King(station) => write!(f, "station {station} is king"),
        }
    }
}
