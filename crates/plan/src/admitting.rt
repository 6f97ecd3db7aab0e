// Whether a command may stand where it stands: the limit, its letter, and its bytes.
ghost use Rattle.std.specs.Prelude.{◌≡◌, ◌≤◌, length};
ghost use Rattle.model.specs.Verdict.{in_place, is_over, size, within_limit};
ghost use Rattle.plan.specs.Admitted.{admitted_of, command_admitted, place_in, stray, told_of};

use crate::fault::PlanFault;
use crate::front::NoCommand;
use crate::reader::PlanReader;
use crate::track::Track;
use model::{Cause, Command, Phase};

// A plan has at most this many bytes.
const LIMIT: usize = 1_048_576;

// How many bytes a command has.
pub(crate) fn size_of(command: Command) -> usize
    ensures { result ≡ size command }
{
    match command {
        Command::Opens(_) => 3,
        Command::Trades(_, _) => 5,
        Command::Serves => 1,
        Command::Waits => 1,
        Command::Ends => 1,
    }
}

impl PlanReader<'_> {
    // Whether a command of some bytes stays within the limit, where there are bytes past it.
    fn is_within_limit(self, bytes: usize) -> bool
        ensures { result ≡ within_limit self.entry.bytes.total (place_in self.entry) bytes }
    {
        self.bytes.total <= LIMIT || self.place().saturating_add(bytes) <= LIMIT
    }

    // Why one byte that no command has there is refused.
    fn stray(self) -> Cause
        ensures { result ≡ stray self.entry.bytes.total (place_in self.entry) }
    {
        if self.is_within_limit(1) {
            Cause::OutOfPlace
        } else {
            Cause::OverLimit
        }
    }

    // An answer whose refusal has its place: bytes that run out are told at the end of the bytes.
    pub(crate) fn told<T>(self, answer: Result<T, Cause>) -> Result<T, PlanFault>
        ensures { result ≡ told_of self.entry.bytes.total (place_in self.entry) answer }
    {
        let total = self.bytes.total;
        let start = self.place();
        answer.map_err(|cause| {
            let place = if cause == Cause::RunsOut {
                total
            } else {
                start
            };
            PlanFault { cause, place }
        })
    }
}

impl Track {
    // Whether the end was read.
    pub(crate) fn is_over(&self) -> bool
        ensures { result ≡ is_over self.now.phase }
    {
        self.phase == Phase::Over
    }

    // Whether a command's letter is in place.
    fn takes(&self, command: Command) -> bool
        ensures { result ≡ in_place self.now.phase command }
    {
        matches!(
            (self.phase, command),
            (Phase::Filling, _)
                | (
                    Phase::Standing,
                    Command::Trades(_, _) | Command::Serves | Command::Waits | Command::Ends
                )
                | (
                    Phase::Starting,
                    Command::Trades(_, _) | Command::Serves | Command::Waits
                )
        )
    }

    fn admit_command(&self, command: Command, reader: PlanReader) -> Result<Command, Cause>
        ensures { result ≡ command_admitted self.now.phase command reader.entry.bytes.total (place_in reader.entry) (length reader.entry.bytes.rest.now) }
    {
        let bytes = size_of(command);
        if !reader.is_within_limit(bytes) {
            return Err(Cause::OverLimit);
        }
        if !self.takes(command) {
            return Err(Cause::OutOfPlace);
        }
        if bytes > reader.left() {
            return Err(Cause::RunsOut);
        }
        Ok(command)
    }

    // The command at the reader's place, if it may stand there. Every command of a plan goes through here: called, and not put in its
    // caller's place, it would hand its answer on through memory each time.
    #[inline(always)]
    pub(crate) fn admit(&self, reader: PlanReader) -> Result<Command, Cause>
        ensures { result ≡ admitted_of self.now.phase reader.entry.bytes.total reader.entry.bytes.rest.now }
    {
        if self.is_over() {
            return Err(reader.stray());
        }
        match reader.command() {
            Ok(command) => self.admit_command(command, reader),
            Err(NoCommand::Missing) => Err(Cause::RunsOut),
            Err(NoCommand::Strange) => Err(reader.stray()),
        }
    }
}
