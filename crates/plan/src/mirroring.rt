// The mirror of a plan, on either side.
ghost use Rattle.std.specs.Prelude.{◌≡◌, length, nat_le};
ghost use Rattle.sheet.specs.Sheets.{meant};
ghost use Rattle.plan.specs.Checks.{ChecksExactly};
ghost use Rattle.plan.specs.Mirrors.{image, granted_if, mirror_for, MirrorsExactly};
ghost use Rattle.plan.specs.Endings.{Ended};
ghost use Rattle.plan.specs.Writers.{filled};

use crate::counts::Counts;
use crate::ending::Ending;
use crate::following::follow;
use crate::mirror_fault::MirrorFault;
use crate::side::{Lane, Side};
use crate::writer::Writer;
use model::Exchange;
use sheet::Sheet;

// Writes the mirror of an accepted plan into the area, as far as there is room.
fn reflect<S: Lane>(
    sheet: Sheet,
    plan: &[u8],
    ending: &Ending,
    slots: &[Exchange],
    area: &mut [u8],
) -> Result<Counts, MirrorFault>
    requires { Ended S.Lane.side (meant sheet) plan.now slots.now ending.now }
    ensures answer { result ≡ granted_if (nat_le (length (image (meant sheet.entry) plan.now)) (length area.old)) ending.now.counts }
    ensures area { area.new ≡ filled (image (meant sheet.entry) plan.now) area.old }
{
    let mut writer = Writer::new(area);
    writer.write_mirror::<S>(sheet, plan, ending, slots);
    if !writer.had_room() {
        return Err(MirrorFault::AreaTooShort);
    }
    Ok(ending.counts)
}

// Checks a plan on a side of a sheet, and writes its mirror, a plan for the opposite side of the turned sheet, into the area. The given
// plan's exchanges go into the slots, from the first one on; no other slot is changed, nor any byte of the area past the mirror. The list
// is read from its end while the mirror is written, so it keeps the exchanges of the plan that was given.
#[tactic(auto, using(crate::proofs::Exactness::exact_on, crate::proofs::Reflects::mirrors_exactly))]
pub fn mirror<S: Side>(
    sheet: Sheet,
    plan: &[u8],
    slots: &mut [Exchange],
    area: &mut [u8],
) -> Result<Counts, MirrorFault>
    ensures answer { result ≡ (mirror_for S.Lane.side (meant sheet.entry) plan.now slots.old area.old).answer }
    ensures slots { slots.new ≡ (mirror_for S.Lane.side (meant sheet.entry) plan.now slots.old area.old).slots }
    ensures area { area.new ≡ (mirror_for S.Lane.side (meant sheet.entry) plan.now slots.old area.old).area }
    ensures exact { ChecksExactly S.Lane.side (meant sheet.entry) (length slots.old) plan.now }
    ensures laws { MirrorsExactly S.Lane.side (meant sheet.entry) plan.now }
{
    let ending = follow::<S>(sheet, plan, slots)?;
    reflect::<S>(sheet, plan, &ending, slots, area)
}
