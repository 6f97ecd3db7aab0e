// Choosing rules.
ghost use Rattle.std.specs.Prelude.{◌≡◌};
ghost use Rattle.model.specs.Rules.{Rule as Answers, NeedLaw, Wants};
ghost use Rattle.planner.specs.Views.{shows};

use crate::view::View;

// A choosing rule says which block goes out for which. Its answers are a function of what it sees, and need's answer
// keeps the law: it names a block that makes a lawful exchange whenever one exists, and none otherwise.
pub trait Rule {
    ghost answers: { Self → Answers };

    // When the block at the position is missing: which block goes out for it.
    fn need(&self, view: View) -> Option<u16>
        ensures { Wants (shows view.entry) → result ≡ (answers self.now).need (shows view.entry) };

    // For a free disk: a block in and a block out, or none. A pair and no exchange, because its start is not the rule's to say.
    fn ahead(&self, view: View, disk: u8) -> Option<(u16, u16)>
        ensures { result ≡ (answers self.now).ahead (shows view.entry) disk };

    ghost meets: { (rule : Self) → NeedLaw (answers rule) };
}
