// The reader of a plan: its bytes, with its place in them.
ghost use Rattle.std.specs.Prelude.{◌≡◌, ◌-◌, ◌≤◌, length, drop};
ghost use Rattle.model.specs.Verdict.{found, size};
ghost use Rattle.plan.specs.Admitted.{place_in};
ghost use Rattle.plan.specs.Fronts.{found_of};

use crate::admitting::size_of;
use crate::front::{NoCommand, front};
use commands::Reader;
use model::Command;

// The plan's bytes from its place on, and how many there were: the place is how far the check has come.
#[derive(Clone, Copy, Debug, PartialEq, Eq)]
pub(crate) struct PlanReader<'a> {
    pub(crate) bytes: Reader<'a>,
}

impl<'a> PlanReader<'a> {
    // Before the first command.
    pub(crate) fn new(bytes: &'a [u8]) -> Self
        ensures total { result.bytes.total ≡ length bytes.now }
        ensures rest { result.bytes.rest.now ≡ bytes.now }
    {
        PlanReader {
            bytes: Reader::new(bytes),
        }
    }

    // Where the next command begins.
    pub(crate) fn place(self) -> usize
        ensures { result ≡ place_in self.entry }
    {
        self.bytes.place()
    }

    // How many bytes are left.
    pub(crate) fn left(self) -> usize
        ensures { result ≡ length self.entry.bytes.rest.now }
    {
        self.bytes.rest.len()
    }

    // The command at the place.
    pub(crate) fn command(self) -> Result<Command, NoCommand>
        ensures { found_of result ≡ found self.entry.bytes.rest.now }
    {
        front(self.bytes.rest)
    }

    // The reader past a command.
    pub(crate) fn past(self, command: Command) -> Self
        ensures total { result.bytes.total ≡ self.entry.bytes.total }
        ensures rest { result.bytes.rest.now ≡ drop (size command) self.entry.bytes.rest.now }
    {
        PlanReader {
            bytes: self.bytes.past(size_of(command)),
        }
    }
}
