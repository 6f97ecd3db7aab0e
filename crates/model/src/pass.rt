// Choosing rules and the pass: one function for each law of them, whose contract is that law.
ghost use Rattle.model.specs.PassLaws.{RulesMeetTheLaw, PassKeeps, PassEnds, UsualFits, OpeningsTold, FewExchanges, SheetPlays, PassAccepted, PassReplays};
ghost use Rattle.model.specs.ViewLaws.{FirstsExact, LatestsExact, LawfulExact, SilenceBreaksTheLaw};
ghost use Rattle.model.specs.Follows.{PassFollows};
ghost use Rattle.model.specs.WorkedPasses.{WorkedPasses};

// What a rule is told: a position is the first whose block passes its test, a block the latest used that may go out and
// passes, the lowest of several.
pub fn questions_are_answered_exactly()
    ensures firsts { FirstsExact }
    ensures latests { LatestsExact }
{}

// An exchange is lawful to a rule exactly if it is lawful in the model, after the exchanges started so far.
pub fn lawful_to_a_rule_is_lawful()
    ensures { LawfulExact }
{}

// Need's law holds of both rules: they name a block that makes a lawful exchange whenever one exists, and none
// otherwise. It does not hold of a rule that never names one.
pub fn rules_meet_the_law()
    ensures met { RulesMeetTheLaw }
    ensures broken { SilenceBreaksTheLaw }
{}

// The plan of a pass keeps the model, on either side, for every rule that meets need's law.
pub fn pass_keeps_the_model()
    ensures { PassKeeps }
{}

// It follows the rule: at each boundary it starts exactly what the rule answers there, it serves exactly when it can, and
// it ends when all is served. No other plan does.
pub fn pass_is_the_one_plan()
    ensures { PassFollows }
{}

// It has at most twice the fetch time in steps for each request.
pub fn pass_ends_in_time()
    ensures { PassEnds }
{}

// The usual opening is fit, and a test tells of any opening whether it is.
pub fn usual_opening_is_fit()
    ensures usual { UsualFits }
    ensures told { OpeningsTold }
{}

// A plan that keeps the model has few exchanges for its steps.
pub fn exchanges_are_few()
    ensures { FewExchanges }
{}

// Over a sheet within the limits the plan of a pass is within its sizes, and the check accepts it on that side.
pub fn pass_is_accepted()
    ensures plays { SheetPlays }
    ensures accepted { PassAccepted }
{}

// The backward pass over the turned sheet, mirrored, keeps the model forward in as many steps, and the check accepts it.
pub fn mirrored_pass_replays()
    ensures { PassReplays }
{}

// The worked passes write the plans listed beside them.
pub fn worked_passes_hold()
    ensures { WorkedPasses }
{}
