// How each command of a plan is judged and what it makes of the track.
ghost use Rattle.std.specs.Prelude.{◌≡◌, ◌<◌, [], length};
ghost use Rattle.records.specs.Pushed.{OnlyPushed};
ghost use Rattle.model.specs.PlanBytes.{plan_limit};
ghost use Rattle.model.specs.Verdict.{begin};
ghost use Rattle.model.specs.declared.Command.TheVariants.{Opens, Trades, Serves, Waits, Ends};
ghost use Rattle.sheet.specs.Sheets.{meant};
ghost use Rattle.plan.specs.Tracks.{whole, reached, finding, answered, left_for, Judges, Leaves};

use crate::places::Places;
use crate::side::Lane;
use crate::track::Track;
use model::{Cause, Command, Exchange, Mark, Phase};
use records::List;
use sheet::Sheet;

impl Track {
    // Before the first command.
    pub(crate) fn new() -> Track
        ensures { whole result [] ≡ begin }
    {
        Track {
            phase: Phase::Filling,
            opened: 0,
            floor: 0,
            position: 0,
            boundary: 0,
            waits: 0,
            landing: 0,
            places: Places::new(),
        }
    }

    // `O`: one more block of the opening, above those before.
    #[tactic(auto, using(crate::proofs::Traded::own_tests), unfolding(model::specs::Verdict::after))]
    fn open(&mut self, sheet: Sheet, block: u16) -> Result<(), Cause>
        ensures answer { Judges self.old (meant sheet.entry) (Opens block) result }
        ensures after { Leaves self.old self.new (meant sheet.entry) (Opens block) }
    {
        self.may_open(sheet, block)?;
        self.phase = Phase::Filling;
        self.opened += 1;
        self.floor = usize::from(block) + 1;
        self.places.set(block, Mark::Here(0));
        Ok(())
    }

    // `S`: the request at the position is served.
    #[tactic(auto, using(crate::proofs::Traded::own_tests), unfolding(model::specs::Verdict::after))]
    fn serve(&mut self, sheet: Sheet) -> Result<(), Cause>
        requires { self.old.boundary < plan_limit }
        ensures answer { Judges self.old (meant sheet.entry) Serves result }
        ensures after { Leaves self.old self.new (meant sheet.entry) Serves }
    {
        self.may_serve(sheet)?;
        self.phase = Phase::Standing;
        self.position += 1;
        self.boundary += 1;
        Ok(())
    }

    // `W`: one step more.
    #[tactic(auto, using(crate::proofs::Traded::own_tests), unfolding(model::specs::Verdict::after))]
    fn wait(&mut self, sheet: Sheet) -> Result<(), Cause>
        requires { self.old.boundary < plan_limit }
        ensures answer { Judges self.old (meant sheet.entry) Waits result }
        ensures after { Leaves self.old self.new (meant sheet.entry) Waits }
    {
        self.may_wait(sheet)?;
        self.note_wait();
        Ok(())
    }

    // `E`: nothing may follow.
    #[tactic(auto, using(crate::proofs::Traded::own_tests), unfolding(model::specs::Verdict::after))]
    fn end(&mut self, sheet: Sheet) -> Result<(), Cause>
        ensures answer { Judges self.old (meant sheet.entry) Ends result }
        ensures after { Leaves self.old self.new (meant sheet.entry) Ends }
    {
        self.may_end(sheet)?;
        self.phase = Phase::Over;
        Ok(())
    }

    // `X`: one exchange more, into the caller's list.
    fn trade<S: Lane>(
        &mut self,
        sheet: Sheet,
        brings: u16,
        sends: u16,
        list: &mut List<Exchange>,
    ) -> Result<(), Cause>
        ensures answer { result ≡ answered (finding S.Lane.side (meant sheet.entry) (length list.old.slots.now) (reached self.old list.old) (Trades brings sends)) }
        ensures after { reached self.new list.new ≡ left_for S.Lane.side (meant sheet.entry) (length list.old.slots.now) (reached self.old list.old) (Trades brings sends) }
        ensures pushed { OnlyPushed list.old list.new }
    {
        let exchange = self.exchange(brings, sends);
        let disk = self.may_trade::<S>(sheet, exchange)?;
        list.push(exchange)?;
        self.note_trade(exchange, disk, sheet.rack().fetch());
        Ok(())
    }

    // A command that is in place and whole. What it asks holds from its admission to its end alone, so no value keeps it.
    pub(crate) fn take<S: Lane>(
        &mut self,
        sheet: Sheet,
        command: Command,
        list: &mut List<Exchange>,
    ) -> Result<(), Cause>
        requires { self.old.boundary < plan_limit }
        ensures answer { result ≡ answered (finding S.Lane.side (meant sheet.entry) (length list.old.slots.now) (reached self.old list.old) command) }
        ensures after { reached self.new list.new ≡ left_for S.Lane.side (meant sheet.entry) (length list.old.slots.now) (reached self.old list.old) command }
        ensures pushed { OnlyPushed list.old list.new }
    {
        match command {
            Command::Opens(block) => self.open(sheet, block),
            Command::Trades(brings, sends) => self.trade::<S>(sheet, brings, sends, list),
            Command::Serves => self.serve(sheet),
            Command::Waits => self.wait(sheet),
            Command::Ends => self.end(sheet),
        }
    }
}
