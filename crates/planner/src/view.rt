ghost use Rattle.std.specs.Prelude.{◌≡◌, ℕ, ◌<◌, ◌≤◌, length, get_or};
ghost use Rattle.sheet.specs.Sheets.{meant};
ghost use Rattle.planner.specs.Uses.{use_from};

use crate::board::Board;
use crate::uses::NextUses;
use plan::Heading;
use sheet::Sheet;

// What a choosing rule sees at a boundary, between its landings and its starts.
#[derive(Clone, Copy, Debug)]
pub struct View<'a> {
    pub(crate) heading: Heading,
    pub(crate) sheet: Sheet<'a>,
    pub(crate) board: &'a Board,
    pub(crate) uses: &'a NextUses,
    ghost reached: { board.now.position ≤ length (meant sheet).requests },
    ghost told: { (b : ℕ) → b < 1024 → get_or uses.now.next b 0 ≡ use_from (meant sheet).requests board.now.position b },
}
