// The check of a plan against a sheet, on either side.
ghost use Rattle.std.specs.Prelude.{◌≡◌, length};
ghost use Rattle.records.specs.Records.{written_over};
ghost use Rattle.sheet.specs.Sheets.{meant};
ghost use Rattle.plan.specs.Checks.{answer_of, ChecksExactly};
ghost use Rattle.plan.specs.Steps.{verdict_for};

use crate::counts::Counts;
use crate::fault::PlanFault;
use crate::following::follow;
use crate::side::Side;
use model::Exchange;
use sheet::Sheet;

// Reads a plan against a sheet. Its exchanges go into the slots, from the first one on; no other slot is changed.
#[tactic(auto, using(crate::proofs::Exactness::exact_on))]
pub fn check<S: Side>(
    sheet: Sheet,
    plan: &[u8],
    slots: &mut [Exchange],
) -> Result<Counts, PlanFault>
    ensures answer { answer_of result ≡ (verdict_for S.Lane.side (meant sheet.entry) (length slots.old) plan.now).answer }
    ensures slots { slots.new ≡ written_over (verdict_for S.Lane.side (meant sheet.entry) (length slots.old) plan.now).records slots.old }
    ensures exact { ChecksExactly S.Lane.side (meant sheet.entry) (length slots.old) plan.now }
{
    let ending = follow::<S>(sheet, plan, slots)?;
    Ok(ending.counts)
}
