// The commands of a plan, one after the other, to its end.
ghost use Rattle.std.specs.Prelude.{◌≡◌, ℕ, List as ListOf, length, IfOk};
ghost use Rattle.model.specs.declared.Exchange.{Exchange as Trade};
ghost use Rattle.model.specs.Verdict.{finished};
ghost use Rattle.records.specs.Pushed.{OnlyPushed};
ghost use Rattle.records.specs.Records.{held};
ghost use Rattle.sheet.specs.Sheets.{meant};
ghost use Rattle.plan.specs.Checks.{outcome_of};
ghost use Rattle.plan.specs.Endings.{counted, ClosesAs};
ghost use Rattle.plan.specs.Steps.{verdict_for};
ghost use Rattle.plan.specs.Tracks.{whole};

use crate::counts::Counts;
use crate::ending::Ending;
use crate::fault::PlanFault;
use crate::reader::PlanReader;
use crate::side::Lane;
use crate::track::Track;
use model::Exchange;
use records::List;
use sheet::Sheet;

impl Track {
    // Whether the end was read and no byte is left.
    fn is_finished(&self, reader: PlanReader) -> bool
        ensures { (xs : ListOf Trade) → result ≡ finished (whole self.now xs) reader.entry.bytes.rest.now }
    {
        self.is_over() && reader.left() == 0
    }
}

// Judges a plan's bytes; its exchanges go into a list that is empty.
pub(crate) fn judge<S: Lane>(
    sheet: Sheet,
    bytes: &[u8],
    list: &mut List<Exchange>,
) -> Result<Ending, PlanFault>
    requires { list.old.len ≡ 0 }
    ensures outcome { outcome_of (counted result) (held list.new.len list.new.slots.now) ≡ verdict_for S.Lane.side (meant sheet.entry) (length list.old.slots.now) bytes.now }
    ensures closing { IfOk result (ClosesAs S.Lane.side (meant sheet.entry) (length list.old.slots.now) bytes.now) }
    ensures pushed { OnlyPushed list.old list.new }
{
    let mut track = Track::new();
    let mut reader = PlanReader::new(bytes);
    while !track.is_finished(reader) {
        reader = track.step::<S>(sheet, reader, list)?;
    }
    let counts = Counts {
        steps: track.boundary,
        waits: track.waits,
        exchanges: list.len(),
    };
    Ok(Ending {
        counts,
        places: track.places,
    })
}
