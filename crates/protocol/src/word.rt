ghost use Rattle.std.specs.Prelude.{◌≡◌};
ghost use Rattle.protocol.specs.Heard.{as_heard};

use crate::setup::Setup;

/// The word that reads as no value of any kind: by the rules it is on the wire what `None` is in the program.
pub const SILENT: u64 = u64::MAX;

/// A row as it is read by a station that said `said` in this round.
#[derive(Clone, Copy)]
pub struct Heard<'a> {
    pub setup: Setup,
    pub said: u64,
    pub row: &'a [u64],
}

impl Heard<'_> {
    /// The word at place `j`: at the own place what was said; by the rules silent words follow a row that is too short.
    pub fn at(self, j: usize) -> u64
        ensures { result ≡ as_heard self.entry j }
    {
        if j == self.setup.own {
            self.said
        } else {
            self.row.get(j).copied().unwrap_or(SILENT)
        }
    }
}
