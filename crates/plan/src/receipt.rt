ghost use Rattle.std.specs.Prelude.{◌≡◌, true};
ghost use Rattle.sheet.specs.Sheets.{meant};
ghost use Rattle.plan.specs.Receipts.{holds};

use crate::counts::Counts;
use crate::fault::PlanFault;
use sheet::Sheet;

// What the check of a plan on the forward side gives: it carries that sheet and that plan, and is void if the check refused. Nothing
// else can make one.
#[derive(Debug, Drop)]
pub struct Receipt<'a> {
    pub(crate) sheet: Sheet<'a>,
    pub(crate) plan: &'a [u8],
    pub(crate) answer: Result<Counts, PlanFault>,
    ghost good: { holds (meant sheet) plan.now answer ≡ true },
}
