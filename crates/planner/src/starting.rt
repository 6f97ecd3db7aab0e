// What starts at a boundary: the exchanges that a rule answers, if the pass takes them.
ghost use Rattle.std.specs.Prelude.{◌≡◌, ◌∷◌, [], ◌<◌, length, Bool, false, ℕ};
ghost use Rattle.model.specs.Pass.{screened};
ghost use Rattle.plan.specs.Headings.{side_of};
ghost use Rattle.sheet.specs.Sheets.{meant};
ghost use Rattle.planner.specs.Asked.{starts_for, screened_for, need_for, ahead_for, all_for, listed};
ghost use Rattle.planner.specs.Boards.{state_of};
ghost use Rattle.planner.specs.Courses.{Starts, Asks};
ghost use Rattle.planner.specs.Views.{seen_of, shows};

use crate::course::Course;
use crate::rule::Rule;
use crate::scribe::{Scribe, note};
use crate::view::View;
use model::Exchange;

impl View<'_> {
    // Whether the pass takes an answer of ahead for a disk: it is lawful, occupies that disk, brings in a block that is requested from the
    // present position on, and does not send out the block at the position.
    fn takes(&self, disk: u8, brings: u16, sends: u16) -> bool
        ensures { result ≡ screened (shows self.now).side (shows self.now).homes (shows self.now).frames 0 (shows self.now).requests (shows self.now) disk brings sends }
    {
        self.is_lawful(brings, sends)
            && self.disk_of(brings, sends) == disk
            && self.next_use(brings) < self.never()
            && sends != self.wanted_block()
    }
}

impl Course<'_> {
    // What a rule sees.
    #[tactic(auto, unfolding(crate::specs::Views::shows))]
    pub(crate) fn view(&self) -> View<'_>
        ensures { shows result ≡ seen_of (side_of self.now.heading) (meant self.now.sheet) (state_of self.now.board) }
    {
        View {
            heading: self.heading,
            sheet: self.sheet,
            board: &self.board,
            uses: &self.uses,
        }
    }

    // An exchange starts.
    fn start(&mut self, brings: u16, sends: u16) -> Exchange
        ensures { Starts self.old self.new (λ side sheet s. starts_for side sheet s brings sends) (result ∷ []) }
    {
        let disk = self.view().disk_of(brings, sends);
        let fetch = self.sheet.rack().fetch();
        self.board.start(brings, sends, disk, fetch)
    }

    // Need's answer, if the block at the position is missing.
    fn ask_need<R: Rule>(&mut self, rule: &R) -> Option<Exchange>
        requires { self.old.board.position < length (meant self.old.sheet).requests }
        ensures { Starts self.old self.new (λ side sheet s. need_for side sheet (R.answers rule.now) s) (listed result) }
    {
        let view = self.view();
        let due = view.wanted_block();
        if !view.is_missing(due) {
            return None;
        }
        let sends = rule.need(view)?;
        Some(self.start(due, sends))
    }

    // Ahead's answer for a disk that is free, if the pass takes it.
    fn ask_ahead<R: Rule>(&mut self, rule: &R, disk: u8) -> Option<Exchange>
        ensures { Starts self.old self.new (λ side sheet s. ahead_for side sheet (R.answers rule.now) disk s) (listed result) }
    {
        let view = self.view();
        if !view.is_free(disk) {
            return None;
        }
        let (brings, sends) = rule.ahead(view, disk)?;
        if !view.takes(disk, brings, sends) {
            return None;
        }
        Some(self.start(brings, sends))
    }

    // All that starts at a boundary: need's answer, then ahead's by rising disk.
    pub(crate) fn ask<R: Rule, W: Scribe>(&mut self, rule: &R, scribe: &mut W)
        requires { self.old.board.position < length (meant self.old.sheet).requests }
        ensures asks { Asks self.old self.new (λ side sheet s. all_for side sheet (R.answers rule.now) s) (W.holds scribe.old) (W.holds scribe.new) }
        ensures kept { W.keeps scribe.old scribe.new }
    {
        let exchange = self.ask_need(rule);
        note(scribe, exchange);
        for disk in 0..self.board.places.disks() {
            let exchange = self.ask_ahead(rule, disk);
            note(scribe, exchange);
        }
    }
}
