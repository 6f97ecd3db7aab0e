// The check on the forward side, and the receipt that it gives.
ghost use Rattle.std.specs.Prelude.{◌≡◌, length, is_err};
ghost use Rattle.model.specs.Timetable.{Forward as ForwardSide};
ghost use Rattle.records.specs.Records.{written_over};
ghost use Rattle.sheet.specs.Sheets.{meant};
ghost use Rattle.plan.specs.Checks.{answer_of, ChecksExactly};
ghost use Rattle.plan.specs.Steps.{verdict_for};

use crate::checking::check;
use crate::counts::Counts;
use crate::fault::PlanFault;
use crate::receipt::Receipt;
use crate::side::Forward;
use model::Exchange;
use sheet::Sheet;

impl<'a> Receipt<'a> {
    // Checks a plan forward. Its exchanges go into the slots, from the first one on; no other slot is changed.
    #[tactic(auto, using(crate::proofs::Exactness::receipt_good))]
    pub fn new(sheet: Sheet<'a>, plan: &'a [u8], slots: &mut [Exchange]) -> Self
        ensures answer { answer_of result.answer ≡ (verdict_for ForwardSide (meant sheet.entry) (length slots.old) plan.now).answer }
        ensures slots { slots.new ≡ written_over (verdict_for ForwardSide (meant sheet.entry) (length slots.old) plan.now).records slots.old }
        ensures exact { ChecksExactly ForwardSide (meant sheet.entry) (length slots.old) plan.now }
        ensures sheet { meant result.sheet ≡ meant sheet.entry }
        ensures plan { result.plan.now ≡ plan.now }
    {
        let answer = check::<Forward>(sheet, plan, slots);
        Receipt {
            sheet,
            plan,
            answer,
        }
    }

    // The plan's counts, or why and where it was refused, whether the receipt is void or not.
    pub fn outcome(&self) -> Result<Counts, PlanFault>
        ensures { result ≡ self.now.answer }
    {
        self.answer
    }

    // Whether the check refused.
    pub fn is_void(&self) -> bool
        ensures { result ≡ is_err self.now.answer }
    {
        self.outcome().is_err()
    }
}
