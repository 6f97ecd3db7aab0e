// The subject of the whole library, as definitions: the timetable of a plan, its bytes, and the verdict on any
// bytes. The code here is the plain types that those definitions share with programs, so that a list of them in a
// program is the list that a definition speaks of, and one function for each law, whose contract is that law.

#![tactic(auto)]

ghost use Rattle.model.specs.Statements.{AcceptsExactly, RefusesExactly, OnePlan, KeepsForm, PlainReading, OppositeSides, OnePlace};
ghost use Rattle.model.specs.WorkedReplay.{WorkedReplay};
ghost use Rattle.model.specs.Worked.{WorkedRows, WorkedEdges, ModelTells};

pub mod mirror;
pub mod pass;
mod told;

// An exchange: the block that it brings in, the block that it sends out, and the boundary at which it starts.
#[derive(Clone, Copy, Debug, PartialEq, Eq)]
pub struct Exchange {
    pub brings: u16,
    pub sends: u16,
    pub start: u32,
}

// The commands of a plan: `O` with a block, `X` with the block in and the block out, `S`, `W` and `E`.
// The two blocks of `X` have no names, because they stand in the order of a plan's bytes: the block in first.
#[derive(Clone, Copy, Debug, PartialEq, Eq)]
pub enum Command {
    Opens(u16),
    Trades(u16, u16),
    Serves,
    Waits,
    Ends,
}

// Why plan bytes are refused; beside each the number that a caller is told.
#[derive(Clone, Copy, Debug, PartialEq, Eq)]
pub enum Cause {
    // 7: the bytes run out
    RunsOut,
    // 8: a letter out of place, or bytes after the end
    OutOfPlace,
    // 9: the opening is not as many existing blocks as there are frames, rising
    BadOpening,
    // 10: block in unknown, not absent, or brought in before at this boundary
    BadIn,
    // 11: block out unknown, not resident, or sent out before at this boundary
    BadOut,
    // 12: the disk is busy
    DiskBusy,
    // 13: no request left to serve, or its block is not resident
    CannotServe,
    // 14: requests left at the end
    RequestsLeft,
    // 15: an exchange not landed at the end
    NotLanded,
    // 17: the exchange list is full
    ListFull,
    // 18: over the limit at this command
    OverLimit,
}

// Where a block is: away from this boundary on (a look-up past all blocks gives away from 0), or here from this
// boundary on.
#[derive(Clone, Copy, Debug, PartialEq, Eq)]
pub enum Mark {
    Away(u32),
    Here(u32),
}

// How far a plan is read: in its opening, at a boundary where nothing has started yet, at one where something has,
// or past its end.
#[derive(Clone, Copy, Debug, PartialEq, Eq)]
pub enum Phase {
    Filling,
    Standing,
    Starting,
    Over,
}

// The verdict accepts exactly the bytes, within the limit, of plans that keep the model, on either side; and it
// then tells that plan's own steps, waits and exchanges.
pub fn verdict_is_exact()
    ensures { AcceptsExactly }
{}

// Bytes are refused with a cause at a place exactly if that is the first rule broken after a plan that keeps the
// model as far as it is read; the list then holds the exchanges of that plan.
pub fn refusals_are_exact()
    ensures { RefusesExactly }
{}

// A plan that keeps the model is determined by its bytes.
pub fn plan_is_read_one_way()
    ensures one { OnePlan }
    ensures formed { KeepsForm }
{}

// To keep the model exchange by exchange is to keep it over the whole plan.
pub fn model_reads_plainly()
    ensures { PlainReading }
{}

// In a plan that keeps the model each block is resident, in flight or absent at each boundary, and only one of them.
pub fn blocks_are_in_one_place()
    ensures { OnePlace }
{}

// The opposite of a side's opposite is the side, and an exchange and its swapped form take the same disk on the two.
pub fn sides_are_opposite()
    ensures { OppositeSides }
{}

// The worked plans get the verdicts written beside them, and so do commands at the limit of a plan; and of two of
// them one is written by a plan that keeps the model, the other by none.
pub fn worked_rows_hold()
    ensures rows { WorkedRows }
    ensures edges { WorkedEdges }
    ensures told { ModelTells }
{}

// The seven-step plan, replayed, has the tally, the disks and the answers written beside it.
pub fn replay_rows_hold()
    ensures { WorkedReplay }
{}
