ghost use Rattle.std.specs.Prelude.{◌≡◌, Some};
ghost use Rattle.refusal.specs.Line.{line};
ghost use Rattle.backread.specs.declared.fault.Fault.TheVariants.{Sheet};
ghost use Rattle.backread.specs.Faults.{told};

use refusal::Refusal;
use sheet::SheetFault;
use std::fmt;

// A refusal of any layer, with its cause there and the place where it has one.
#[derive(Clone, Copy, Debug, PartialEq, Eq)]
pub enum Fault {
    Sheet(SheetFault),
}

impl Fault {
    // Number, layer and place.
    pub fn refusal(&self) -> Refusal
        ensures { result ≡ told self.now }
    {
        match self {
            Fault::Sheet(fault) => fault.refusal(),
        }
    }
}

impl From<SheetFault> for Fault {
    ghost from_gives = { λ f r. r ≡ Sheet f };

    fn from(fault: SheetFault) -> Fault {
        Self::Sheet(fault)
    }
}

// The refusal's one line, without the line's end.
impl fmt::Display for Fault {
    ghost output = { λ f. Some (line (told f)) };

    fn fmt<W: fmt::Write>(&self, f: &mut fmt::Formatter<W>) -> fmt::Result {
        let refusal = self.refusal();
        write!(f, "{refusal}")
    }
}
