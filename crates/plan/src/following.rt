// A plan followed to its end on a sheet, on either side.
ghost use Rattle.std.specs.Prelude.{◌≡◌, length, IfOk};
ghost use Rattle.records.specs.Records.{written_over};
ghost use Rattle.sheet.specs.Sheets.{meant};
ghost use Rattle.plan.specs.Checks.{answer_of};
ghost use Rattle.plan.specs.Endings.{counted, Ended};
ghost use Rattle.plan.specs.Steps.{verdict_for};

use crate::ending::Ending;
use crate::fault::PlanFault;
use crate::side::Lane;
use crate::verdict::judge;
use model::Exchange;
use records::List;
use sheet::Sheet;

// Judges a plan, its exchanges put into the slots, and answers how it ends.
#[tactic(auto, using(crate::proofs::Exactness::answer_is, crate::proofs::Exactness::slots_are, crate::proofs::Ends::ends_as))]
pub(crate) fn follow<S: Lane>(
    sheet: Sheet,
    plan: &[u8],
    slots: &mut [Exchange],
) -> Result<Ending, PlanFault>
    ensures answer { answer_of (counted result) ≡ (verdict_for S.Lane.side (meant sheet.entry) (length slots.old) plan.now).answer }
    ensures slots { slots.new ≡ written_over (verdict_for S.Lane.side (meant sheet.entry) (length slots.old) plan.now).records slots.old }
    ensures ends { IfOk result (Ended S.Lane.side (meant sheet.entry) plan.now slots.new) }
{
    let mut list = List::new(slots);
    judge::<S>(sheet, plan, &mut list)
}
