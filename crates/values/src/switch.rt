ghost use Rattle.std.specs.Prelude.{◌≡◌};
ghost use Rattle.values.specs.SwitchKind.{switch_kind, switch_of};
ghost use Rattle.std.proofs.Common.{rules};

use protocol::{OrderedValue, Value};

/// Whether the next load stage is held or begun.
#[derive(Clone, Copy, PartialEq, Eq, PartialOrd, Ord, Debug)]
pub enum Switch {
    Hold,
    Go,
}

impl From<bool> for Switch {
    ghost from_gives = { λ go s. s ≡ switch_of go };

    fn from(go: bool) -> Switch {
        if go { Switch::Go } else { Switch::Hold }
    }
}

impl Value for Switch {
    ghost kind = { switch_kind };

    ghost lawful = { Prim.search rules };

    // the two words are fixed by the rules
    fn word(self) -> u64 {
        match self {
            Switch::Hold => 0,
            Switch::Go => 1,
        }
    }

    fn read(word: u64) -> Option<Switch> {
        match word {
            0 => Some(Switch::Hold),
            1 => Some(Switch::Go),
            _ => None,
        }
    }

    // in each kind that has `Ord`: by the rules `Value` cannot ask for it
    fn less(self, other: Switch) -> bool {
        self < other
    }

    fn rest() -> Switch {
        Self::Hold
    }
}

impl OrderedValue for Switch {
    ghost ordered = { Prim.search rules };
}

#[cfg(test)]
mod tests {
    use super::*;
    use protocol::SILENT;

    #[test]
    fn hold_and_go(rt: HostRuntime) {
        assert_eq!(rt; Switch::rest(), Switch::Hold);
        assert!(rt; Switch::Hold.less(Switch::Go));
        assert!(rt; !Switch::Go.less(Switch::Hold));
        assert!(rt; Switch::Hold.before(Switch::Go));
        assert_eq!(rt; Switch::read(Switch::Go.word()), Some(Switch::Go));
        assert_eq!(rt; Switch::read(2), None);
        assert_eq!(rt; Switch::read(SILENT), None);
    }
}
