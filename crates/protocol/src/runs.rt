ghost use Rattle.protocol.specs.Course.{RunsExist};
ghost use Rattle.protocol.specs.Nest.{Stretches};

use crate::machine::Machine;

/// The laws speak of something: for every choice of correct stations, entries and forged words there is a run.
pub fn runs_exist<M: Machine>()
    ensures { RunsExist M.Machine.model }
{}

/// While a layer runs the vote below, its rounds are a run of that vote with the same correct stations.
pub fn stretches_are_runs<P: Machine, L: Machine>()
    ensures { Stretches P.Machine.model L.Machine.model }
{}
