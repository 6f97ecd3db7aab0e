// One boundary of a pass and its step.
ghost use Rattle.std.specs.Prelude.{◌≡◌, ◌<◌, true, false, length};
ghost use Rattle.model.specs.PlanBytes.{plan_limit};
ghost use Rattle.model.specs.Verdict.{State};
ghost use Rattle.plan.specs.Headings.{side_of};
ghost use Rattle.sheet.specs.Sheets.{meant};
ghost use Rattle.planner.specs.Asked.{can_serve_for, turn_for};
ghost use Rattle.planner.specs.Boards.{Stands};
ghost use Rattle.planner.specs.Courses.{Steps, Turns};

use crate::course::Course;
use crate::rule::Rule;
use crate::scribe::Scribe;

impl Course<'_> {
    // Whether the block at the position can be served.
    fn can_serve(&self) -> bool
        ensures { (s : State) → Stands self.now.board s → result ≡ can_serve_for (side_of self.now.heading) (meant self.now.sheet) s }
    {
        let due = self.view().wanted_block();
        self.board.places.is_here(due, self.board.boundary)
    }

    // A step that serves.
    fn serve(&mut self)
        requires within { self.old.board.position < length (meant self.old.sheet).requests }
        requires few { self.old.board.boundary < plan_limit }
        ensures { Steps self.old self.new true }
    {
        self.uses.pass(self.sheet, self.board.position);
        self.board.position += 1;
        self.board.boundary += 1;
    }

    // A step that waits.
    fn wait(&mut self)
        requires { self.old.board.boundary < plan_limit }
        ensures { Steps self.old self.new false }
    {
        self.board.boundary += 1;
    }

    fn step(&mut self, serves: bool)
        requires within { self.old.board.position < length (meant self.old.sheet).requests }
        requires few { self.old.board.boundary < plan_limit }
        ensures { Steps self.old self.new serves }
    {
        if serves { self.serve() } else { self.wait() }
    }

    // What the rule answers starts; then the step serves if it can, and waits if not.
    pub(crate) fn turn<R: Rule, W: Scribe>(&mut self, rule: &R, scribe: &mut W)
        requires within { self.old.board.position < length (meant self.old.sheet).requests }
        requires few { self.old.board.boundary < plan_limit }
        ensures turns { Turns self.old self.new (λ side sheet c. turn_for side sheet (R.answers rule.now) c) (W.holds scribe.old) (W.holds scribe.new) }
        ensures kept { W.keeps scribe.old scribe.new }
    {
        self.ask(rule, scribe);
        let serves = self.can_serve();
        self.step(serves);
        scribe.step(serves);
    }
}
