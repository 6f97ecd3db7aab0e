// How a plan's causes are told.
ghost use Rattle.refusal.specs.declared.refusal.Layer.TheVariants.{Plan};
ghost use Rattle.model.specs.Verdict.{number};
ghost use Rattle.model.specs.declared.Cause.TheVariants.{ListFull as NoSlotLeft};
ghost use Rattle.std.specs.Prelude.{◌≡◌};

use crate::Cause;
use records::ListFull;
use refusal::Layer;

impl refusal::Cause for Cause {
    ghost told_by = { Plan };

    ghost told_as = { number };

    fn layer() -> Layer {
        Layer::Plan
    }

    fn number(&self) -> u8 {
        match self {
            Cause::RunsOut => 7,
            Cause::OutOfPlace => 8,
            Cause::BadOpening => 9,
            Cause::BadIn => 10,
            Cause::BadOut => 11,
            Cause::DiskBusy => 12,
            Cause::CannotServe => 13,
            Cause::RequestsLeft => 14,
            Cause::NotLanded => 15,
            Cause::ListFull => 17,
            Cause::OverLimit => 18,
        }
    }
}

impl From<ListFull> for Cause {
    ghost from_gives = { λ _ r. r ≡ NoSlotLeft };

    fn from(_full: ListFull) -> Cause {
        Self::ListFull
    }
}
