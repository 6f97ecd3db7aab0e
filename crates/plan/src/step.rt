// One command of a plan, from its letter to what it makes of the track.
ghost use Rattle.std.specs.Prelude.{◌≡◌, ◌+◌, ◌<◌, ◌≤◌, length, IfOk};
ghost use Rattle.records.specs.Pushed.{OnlyPushed};
ghost use Rattle.sheet.specs.Sheets.{meant};
ghost use Rattle.plan.specs.Steps.{step_for, step_answer, step_left, stepped};
ghost use Rattle.plan.specs.Tracks.{reached};

use crate::fault::PlanFault;
use crate::reader::PlanReader;
use crate::side::Lane;
use crate::track::Track;
use model::Exchange;
use records::List;
use sheet::Sheet;

impl Track {
    // Judges the command at the reader's place. Answers the reader past it.
    // Sheet and list stay two parameters: in one struct the list's loan would stand behind a second one in every clause.
    pub(crate) fn step<'a, S: Lane>(
        &mut self,
        sheet: Sheet,
        reader: PlanReader<'a>,
        list: &mut List<Exchange>,
    ) -> Result<PlanReader<'a>, PlanFault>
        requires { self.old.boundary + length reader.bytes.rest.now ≤ reader.bytes.total }
        ensures answer { stepped result ≡ step_answer (step_for S.Lane.side (meant sheet.entry) (length list.old.slots.now) reader.entry.bytes.total (reached self.old list.old) reader.entry.bytes.rest.now) }
        ensures after { reached self.new list.new ≡ step_left (reached self.old list.old) (step_for S.Lane.side (meant sheet.entry) (length list.old.slots.now) reader.entry.bytes.total (reached self.old list.old) reader.entry.bytes.rest.now) }
        ensures shorter { IfOk result (λ next. (length next.bytes.rest.now < length reader.entry.bytes.rest.now) × (self.new.boundary + length next.bytes.rest.now ≤ reader.entry.bytes.total) × (next.bytes.total ≡ reader.entry.bytes.total)) }
        ensures pushed { OnlyPushed list.old list.new }
    {
        let command = reader.told(self.admit(reader))?;
        reader.told(self.take::<S>(sheet, command, list))?;
        Ok(reader.past(command))
    }
}
