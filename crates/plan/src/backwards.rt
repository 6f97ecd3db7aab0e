// The commands of a mirror, one after the other.
ghost use Rattle.std.specs.Prelude.{◌≡◌, ◌≢◌, ℕ, ◌+◌, ◌*◌, ◌<◌, ◌≤◌, List as ListOf, [], get_or, length};
ghost use Rattle.model.specs.Layout.{letter as letter_of};
ghost use Rattle.model.specs.PlanBytes.{act_command};
ghost use Rattle.model.specs.Timetable.{Act, Plan, none};
ghost use Rattle.sheet.specs.Sheets.{meant};
ghost use Rattle.plan.specs.Endings.{Ended};
ghost use Rattle.plan.specs.Mirrors.{image};
ghost use Rattle.plan.specs.Rewinds.{Front, Rewound, last_of, mirror_to};
ghost use Rattle.plan.specs.Writers.{Said, Wrote};

use crate::ending::Ending;
use crate::rewind::Rewind;
use crate::rewinding::{changed_over, last_landing, letter, started_by};
use crate::side::Lane;
use crate::writer::Writer;
use model::{Command, Exchange};
use sheet::Sheet;

// What a step does, by its letter.
fn step_by(letter: u8) -> Command
    ensures { (act : Act) → letter ≡ letter_of act → result ≡ act_command act }
{
    if letter == b'S' {
        Command::Serves
    } else {
        Command::Waits
    }
}

impl Writer<'_> {
    // The exchanges that land at a boundary, the last of them first. Answers those before them.
    fn write_landed<'r>(&mut self, left: &'r [Exchange], boundary: u32, fetch: u8) -> &'r [Exchange]
        ensures front { Front result.now left.now }
        ensures last { 0 < length result.now → (last_of result.now).start + fetch ≢ boundary }
        ensures landed { (k : ℕ) → length result.now ≤ k → k < length left.now → (get_or left.now k none).start + fetch ≡ boundary }
        ensures more { (plan : Plan) (o area : ListOf ℕ) (t : ℕ) → Front left.now plan.exchanges → t + boundary ≡ length plan.acts → Said (mirror_to o fetch plan t (length left.now)) area self.old → Said (mirror_to o fetch plan t (length result.now)) area self.new }
        ensures lent { self.new.area.ghost_name ≡ self.old.area.ghost_name }
    {
        let mut rest = left;
        while let Some((exchange, before)) = last_landing(rest, boundary, fetch) {
            self.write(changed_over(exchange));
            rest = before;
        }
        rest
    }

    // One step of the mirror: what lands at this boundary of the plan, then the step before the boundary.
    fn write_step<'a>(&mut self, rewind: Rewind<'a>, boundary: u32) -> Rewind<'a>
        requires { 0 < boundary }
        ensures rewound { (plan : Plan) (t : ℕ) → Rewound plan t rewind.entry → t + boundary ≡ length plan.acts → Rewound plan (t + 1) result }
        ensures more { (plan : Plan) (o area : ListOf ℕ) (t : ℕ) → Rewound plan t rewind.entry → t + boundary ≡ length plan.acts → Said (mirror_to o rewind.entry.fetch plan t (length rewind.entry.left.now)) area self.old → Said (mirror_to o rewind.entry.fetch plan (t + 1) (length result.left.now)) area self.new }
        ensures fetch { result.fetch ≡ rewind.entry.fetch }
        ensures lent { self.new.area.ghost_name ≡ self.old.area.ghost_name }
    {
        let step = boundary - 1;
        let left = self.write_landed(rewind.left, boundary, rewind.fetch);
        let started = started_by(rewind.started, step);
        let letter = letter(rewind.plan, rewind.frames, step, started.len());
        self.write(step_by(letter));
        Rewind {
            plan: rewind.plan,
            frames: rewind.frames,
            fetch: rewind.fetch,
            left,
            started,
        }
    }

    // All steps of the mirror, from the end of the plan.
    pub(crate) fn write_steps(&mut self, rewind: Rewind, steps: u32)
        ensures more { (plan : Plan) (o area : ListOf ℕ) → Rewound plan 0 rewind.entry → steps ≡ length plan.acts → Said (mirror_to o rewind.entry.fetch plan 0 (length rewind.entry.left.now)) area self.old → Said (mirror_to o rewind.entry.fetch plan (length plan.acts) 0) area self.new }
        ensures lent { self.new.area.ghost_name ≡ self.old.area.ghost_name }
    {
        let mut reached = rewind;
        for step in 0..steps {
            reached = self.write_step(reached, steps - step);
        }
    }

    // The mirror of an accepted plan, whose exchanges are in the first slots.
    pub(crate) fn write_mirror<S: Lane>(
        &mut self,
        sheet: Sheet,
        plan: &[u8],
        ending: &Ending,
        slots: &[Exchange],
    )
        requires { Ended S.Lane.side (meant sheet) plan.now slots.now ending.now }
        ensures whole { (area : ListOf ℕ) → Wrote [] area self.old → Wrote (image (meant sheet.entry) plan.now) area self.new }
        ensures lent { self.new.area.ghost_name ≡ self.old.area.ghost_name }
    {
        let rack = sheet.rack();
        let records = &slots[0..ending.counts.exchanges];
        let rewind = Rewind::new(plan, rack, records);
        // a cast, which at most 1,024 blocks survive: a conversion adds a step that the proof would have to name
        self.open(ending, rack.blocks() as u16);
        self.write_steps(rewind, ending.counts.steps);
        self.write(Command::Ends);
    }
}
