// The mirror of a plan: one function for each law of it, whose contract is that law.
ghost use Rattle.model.specs.Layout.{StepLetters, PlanSize};
ghost use Rattle.model.specs.MirrorLaws.{MirrorKeeps, MirrorAlike, MirrorTwice, ClosingContent, MirrorOrder, MirrorSize, MirrorWritten, MirrorAccepted};
ghost use Rattle.model.specs.WorkedMirrors.{WorkedMirrors};

// The mirror of a plan that keeps the model keeps it on the opposite side, for the requests reversed, and has as many
// steps, waits and exchanges.
pub fn mirror_keeps_the_model()
    ensures kept { MirrorKeeps }
    ensures alike { MirrorAlike }
{}

// It opens with the blocks that the plan leaves resident, and lists the exchanges of one boundary in reverse.
pub fn mirror_runs_backwards()
    ensures closing { ClosingContent }
    ensures order { MirrorOrder }
{}

// The mirror of the mirror is the plan.
pub fn mirror_twice_is_the_plan()
    ensures { MirrorTwice }
{}

// The bytes of a plan: where the letter of each step stands, and how many there are.
pub fn plan_bytes_have_places()
    ensures letters { StepLetters }
    ensures sized { PlanSize }
{}

// The mirror has as many bytes as the plan.
pub fn mirror_is_as_long()
    ensures { MirrorSize }
{}

// The mirror of an accepted plan is accepted, on the opposite side and for the requests reversed, with the same counts.
pub fn mirror_is_accepted()
    ensures written { MirrorWritten }
    ensures accepted { MirrorAccepted }
{}

// The worked plans have the mirrors written beside them, and both are accepted with the answers written there.
pub fn worked_mirrors_hold()
    ensures { WorkedMirrors }
{}
