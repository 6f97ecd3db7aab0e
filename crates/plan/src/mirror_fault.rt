ghost use Rattle.std.specs.Prelude.{◌≡◌, Some};
ghost use Rattle.refusal.specs.Line.{line};
ghost use Rattle.plan.specs.declared.mirror_fault.MirrorFault.TheVariants.{Check};
ghost use Rattle.plan.specs.Mirrors.{told};

use crate::fault::PlanFault;
use refusal::{Layer, Refusal};
use std::fmt;

// Why a plan is not mirrored.
#[derive(Clone, Copy, Debug, PartialEq, Eq)]
pub enum MirrorFault {
    // the check refuses it
    Check(PlanFault),
    // 16: the output area is too short for its mirror
    AreaTooShort,
}

impl MirrorFault {
    // The refusal as a caller is told it.
    pub fn refusal(&self) -> Refusal
        ensures { result ≡ told self.now }
    {
        match self {
            MirrorFault::Check(fault) => fault.refusal(),
            MirrorFault::AreaTooShort => Refusal {
                number: 16,
                layer: Layer::Plan,
                place: 0,
            },
        }
    }
}

impl From<PlanFault> for MirrorFault {
    ghost from_gives = { λ f r. r ≡ Check f };

    fn from(fault: PlanFault) -> MirrorFault {
        Self::Check(fault)
    }
}

// The refusal's one line, without the line's end.
impl fmt::Display for MirrorFault {
    ghost output = { λ f. Some (line (told f)) };

    fn fmt<W: fmt::Write>(&self, f: &mut fmt::Formatter<W>) -> fmt::Result {
        let refusal = self.refusal();
        write!(f, "{refusal}")
    }
}
