ghost use Rattle.protocol.specs.Admission.{LowestAdmission};
ghost use Rattle.protocol.specs.Protocol.{ExactAdmission};

use crate::machine::Machine;

/// A setup is refused exactly if some refusal applies to it, and by the one with the lowest number.
pub fn lowest_admission()
    ensures { LowestAdmission }
{}

/// A setup is not refused exactly if its numbers are within the limits of the vote.
pub fn exact_admission<M: Machine>()
    ensures { ExactAdmission M.Machine.model }
{}
