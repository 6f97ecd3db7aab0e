// A whole pass: boundary after boundary until all requests are served.
ghost use Rattle.std.specs.Prelude.{◌≡◌, [], ◌*◌, ◌<◌, length};
ghost use Rattle.model.specs.PassLaws.{FitOpening, plan_over};
ghost use Rattle.plan.specs.Headings.{side_of};
ghost use Rattle.sheet.specs.Sheets.{meant};
ghost use Rattle.planner.specs.Asked.{opens_for};
ghost use Rattle.planner.specs.Boards.{Stands};

use crate::board::Board;
use crate::course::Course;
use crate::rule::Rule;
use crate::scribe::Scribe;
use crate::uses::NextUses;
use plan::Heading;
use sheet::Sheet;

impl<'a> Course<'a> {
    // Before the first step.
    fn new(heading: Heading, sheet: Sheet<'a>, opening: &[u16]) -> Self
        ensures heading { result.heading ≡ heading }
        ensures sheet { result.sheet ≡ sheet.entry }
        ensures boundary { result.board.boundary ≡ 0 }
        ensures stands { Stands result.board (opens_for (side_of heading) (meant sheet.entry) opening.now) }
    {
        Course {
            heading,
            sheet,
            board: Board::new(opening),
            uses: NextUses::new(sheet),
        }
    }
}

// A scribe that holds nothing yet is told the plan of a rule from a fit opening.
pub(crate) fn plan<R: Rule, W: Scribe>(
    heading: Heading,
    sheet: Sheet,
    opening: &[u16],
    rule: &R,
    scribe: &mut W,
)
    requires fit { FitOpening (meant sheet).rack.homes (meant sheet).rack.frames opening.now }
    requires empty { W.holds scribe.old [] [] }
    ensures told { W.holds scribe.new (plan_over (side_of heading) (meant sheet.entry) (R.answers rule.now) opening.now).exchanges (plan_over (side_of heading) (meant sheet.entry) (R.answers rule.now) opening.now).acts }
    ensures kept { W.keeps scribe.old scribe.new }
{
    let mut course = Course::new(heading, sheet, opening);
    while course.board.position < sheet.len() {
        course.turn(rule, scribe);
    }
}
