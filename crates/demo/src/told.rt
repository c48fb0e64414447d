use crate::purpose::Purpose;
use protocol::{SILENT, Value};
use std::fmt;
use values::{Point, Switch};

/// What a word says to its listener, in a round that is for this purpose. On the wire the silent word is none.
#[derive(Clone, Copy)]
pub(crate) struct Told {
    pub(crate) purpose: Purpose,
    pub(crate) word: u64,
}

impl fmt::Display for Told {
    fn fmt<W: fmt::Write>(&self, f: &mut fmt::Formatter<W>) -> fmt::Result {
        let word = self.word;
        if word == SILENT {
            return f.write_str("nothing");
        }
        match self.purpose {
            Purpose::CountPoints | Purpose::GradePoints => match Point::read(word) {
                Some(point) => write!(f, "{point}"),
                None => write!(f, "{word}, no point's word"),
            },
            Purpose::CountSwitches | Purpose::GradeSwitches | Purpose::King(_) =>
                match Switch::read(word) {
                    Some(switch) => write!(f, "{switch}"),
                    None => write!(f, "{word}, neither go nor hold"),
                },
        }
    }
}
