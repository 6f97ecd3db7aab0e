ghost use Rattle.std.specs.Prelude.{◌*◌, ◌≤◌, length};

use model::Exchange;

// An accepted plan as far as it is read from its end: which of its exchanges are still to be written, and which have started by the
// step reached. Both lists grow shorter from their ends only, so that a whole reading meets each exchange twice.
#[derive(Clone, Copy)]
pub(crate) struct Rewind<'a> {
    pub(crate) plan: &'a [u8],
    pub(crate) frames: u8,
    pub(crate) fetch: u8,
    pub(crate) left: &'a [Exchange],
    pub(crate) started: &'a [Exchange],
    ghost few: { 5 * length started.now ≤ length plan.now },
}
