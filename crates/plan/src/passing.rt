// Whether a command passes its own tests, in the order in which its faults are told.
ghost use Rattle.std.specs.Prelude.{◌≡◌, ℕ, ◌<◌, ◌≤◌, List as ListOf, length, IfOk, OnOk, MatchResult, nat_lt};
ghost use Rattle.model.specs.Timetable.{occupies};
ghost use Rattle.model.specs.declared.Cause.TheVariants.{BadOpening};
ghost use Rattle.model.specs.declared.Command.TheVariants.{Opens, Trades, Serves, Waits, Ends};
ghost use Rattle.model.specs.declared.Exchange.{Exchange as Trade};
ghost use Rattle.sheet.specs.Headers.{rack_of};
ghost use Rattle.sheet.specs.Sheets.{meant};
ghost use Rattle.plan.specs.Tracks.{whole, finding, answered, if_room, passed, DiskIf, Judges};

use crate::side::Lane;
use crate::track::Track;
use model::{Cause, Exchange};
use sheet::{Rack, Sheet};

// The disk of a block, if there is such a block and it is where it must be.
fn disk_if(rack: &Rack, block: u16, there: bool, otherwise: Cause) -> Result<u8, Cause>
    ensures { DiskIf (rack_of rack.now).homes block there otherwise result }
{
    rack.disk_of(block).filter(|_| there).ok_or(otherwise)
}

impl Track {
    // `O`: there is a frame left and the block is above those before.
    pub(crate) fn may_open(&self, sheet: Sheet, block: u16) -> Result<(), Cause>
        ensures answer { Judges self.now (meant sheet.entry) (Opens block) result }
        ensures few { OnOk result (self.now.opened < 64) }
    {
        let at = usize::from(block);
        let rack = sheet.rack();
        if self.opened >= usize::from(rack.frames()) || !(self.floor..rack.blocks()).contains(&at) {
            return Err(Cause::BadOpening);
        }
        Ok(())
    }

    // `W`: the opening has as many blocks as there are frames, as every command after it needs.
    pub(crate) fn may_wait(&self, sheet: Sheet) -> Result<(), Cause>
        ensures answer { Judges self.now (meant sheet.entry) Waits result }
        ensures opened { MatchResult result (λ _. self.now.opened ≡ (meant sheet.entry).rack.frames) (λ cause. (cause ≡ BadOpening) × (self.now.opened ≡ (meant sheet.entry).rack.frames → ⊥)) }
    {
        if self.opened != usize::from(sheet.rack().frames()) {
            return Err(Cause::BadOpening);
        }
        Ok(())
    }

    // `S`: the block of the request at the position is here.
    pub(crate) fn may_serve(&self, sheet: Sheet) -> Result<(), Cause>
        ensures answer { Judges self.now (meant sheet.entry) Serves result }
        ensures few { OnOk result (self.now.position < 4096) }
    {
        self.may_wait(sheet)?;
        match sheet.request(self.position) {
            Some(block) if self.places.is_here(block, self.boundary) => Ok(()),
            _ => Err(Cause::CannotServe),
        }
    }

    // `E`: all requests are served and all exchanges have landed.
    pub(crate) fn may_end(&self, sheet: Sheet) -> Result<(), Cause>
        ensures { Judges self.now (meant sheet.entry) Ends result }
    {
        self.may_wait(sheet)?;
        if self.position != sheet.len() {
            return Err(Cause::RequestsLeft);
        }
        if self.landing > self.boundary {
            return Err(Cause::NotLanded);
        }
        Ok(())
    }

    // `X`: a block may come in for another, but for the room in the list. Answers the disk that the exchange occupies.
    #[tactic(auto, using(crate::proofs::Traded::carried_by))]
    pub(crate) fn may_trade<S: Lane>(&self, sheet: Sheet, exchange: Exchange) -> Result<u8, Cause>
        requires { exchange.start ≡ self.now.boundary }
        ensures answer { (room : ℕ) (xs : ListOf Trade) → if_room (nat_lt (length xs) room) (passed result) ≡ answered (finding S.Lane.side (meant sheet.entry) room (whole self.now xs) (Trades exchange.brings exchange.sends)) }
        ensures disk { IfOk result (λ disk. disk ≡ occupies S.Lane.side (meant sheet.entry).rack.homes exchange) }
    {
        self.may_wait(sheet)?;
        let rack = sheet.rack();
        let (brings, sends) = (exchange.brings, exchange.sends);
        let away = self.places.is_away(brings, self.boundary);
        let disk_in = disk_if(rack, brings, away, Cause::BadIn)?;
        let here = self.places.is_here(sends, self.boundary);
        let disk_out = disk_if(rack, sends, here, Cause::BadOut)?;
        let disk = if S::carrier(exchange) == brings {
            disk_in
        } else {
            disk_out
        };
        if !self.places.is_idle(disk, self.boundary) {
            return Err(Cause::DiskBusy);
        }
        Ok(disk)
    }
}
