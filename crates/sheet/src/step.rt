// One command of a sheet, from its letter to what it adds.
ghost use Rattle.std.specs.Prelude.{◌≡◌, ◌-◌, ◌<◌, length, IfOk};
ghost use Rattle.records.specs.Pushed.{OnlyPushed};
ghost use Rattle.sheet.specs.Reading.{SoFar, turn, turn_answer, turn_left};
ghost use Rattle.sheet.specs.Drafts.{with_list, stepped, goes_on};

use crate::command::{Command, front};
use crate::draft::Draft;
use crate::fault::{SheetCause, SheetFault};
use commands::Reader;
use records::List;

impl Draft {
    // The command at the front, and the reader past it. Refused where no byte is left, where it is out of place, and where its bytes
    // run out.
    #[tactic(auto, using(crate::proofs::Turns::turn_none, crate::proofs::Turns::turn_misplaced))]
    fn next<'a>(&self, reader: Reader<'a>) -> Result<(Command<'a>, Reader<'a>), SheetFault>
        ensures turn { (s : SoFar) → s.stage ≡ self.now.stage → turn reader.entry.total reader.entry.rest.now s ≡ goes_on (reader.entry.total - length reader.entry.rest.now) s result }
        ensures total { IfOk result (λ p. p.1.total ≡ reader.entry.total) }
        ensures shorter { IfOk result (λ p. length p.1.rest.now < length reader.entry.rest.now) }
    {
        let ran_out = SheetFault {
            cause: SheetCause::RanOut,
            place: reader.total,
        };
        let place = reader.place();
        let [byte, ..] = reader.rest else {
            return Err(ran_out);
        };
        let letter = self
            .stage
            .letter(*byte)
            .map_err(|cause| SheetFault { cause, place })?;
        front(letter, reader).ok_or(ran_out)
    }

    // Judges and takes the command at the front. Answers the reader past it.
    pub(crate) fn step<'a>(
        &mut self,
        reader: Reader<'a>,
        list: &mut List<u16>,
    ) -> Result<Reader<'a>, SheetFault>
        ensures answer { stepped result ≡ turn_answer (turn reader.entry.total reader.entry.rest.now (with_list self.old list.old)) }
        ensures total { IfOk result (λ after. after.total ≡ reader.entry.total) }
        ensures shorter { IfOk result (λ after. length after.rest.now < length reader.entry.rest.now) }
        ensures after { with_list self.new list.new ≡ turn_left (with_list self.old list.old) (turn reader.entry.total reader.entry.rest.now (with_list self.old list.old)) }
        ensures pushed { OnlyPushed list.old list.new }
    {
        let place = reader.place();
        let (command, after) = self.next(reader)?;
        self.take_placed(command, place, list)?;
        Ok(after)
    }
}
