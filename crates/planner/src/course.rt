ghost use Rattle.std.specs.Prelude.{◌≤◌, length};
ghost use Rattle.model.specs.PlanBytes.{plan_limit};
ghost use Rattle.sheet.specs.Sheets.{meant};
ghost use Rattle.planner.specs.Uses.{Indexes};

use crate::board::Board;
use crate::uses::NextUses;
use plan::Heading;
use sheet::Sheet;

// A pass under way: what is planned for, how far it has come, and the index of next uses from there.
#[derive(Drop)]
pub(crate) struct Course<'a> {
    pub(crate) heading: Heading,
    pub(crate) sheet: Sheet<'a>,
    pub(crate) board: Board,
    pub(crate) uses: NextUses,
    ghost reached: { board.position ≤ length (meant sheet).requests },
    // a plan has no more steps than bytes
    ghost few_steps: { board.boundary ≤ plan_limit },
    ghost index: { Indexes (meant sheet).requests board.position uses.next uses.after },
}
