// How each command of a sheet is judged and taken into the draft.
ghost use Rattle.std.specs.Prelude.{◌≡◌, ℕ, List as ListOf, length, if◌then◌else◌, Ok, Err, nat_lt};
ghost use Rattle.records.specs.Pushed.{OnlyPushed};
ghost use Rattle.sheet.specs.declared.command.Command.TheVariants as command;
ghost use Rattle.sheet.specs.declared.fault.SheetCause.TheVariants.{TooFewBlocks};
ghost use Rattle.sheet.specs.Racks.{homes_of};
ghost use Rattle.sheet.specs.Reading.{nothing_yet, within_limits, took_request, took};
ghost use Rattle.sheet.specs.Commands.{said};
ghost use Rattle.sheet.specs.Drafts.{so_far, with_list, Judged, answered, placed_answer, left};

use crate::command::{Command, Geometry};
use crate::draft::Draft;
use crate::fault::{SheetCause, SheetFault};
use crate::homes::Homes;
use crate::limits::{MOST_BLOCKS, MOST_REQUESTS};
use crate::stage::Stage;
use records::List;

impl Geometry {
    // Whether disks, frames and fetch time are within the limits.
    fn is_within_limits(&self) -> bool
        ensures { result ≡ within_limits self.now.disks self.now.frames self.now.fetch }
    {
        (1..=8).contains(&self.disks)
            && (1..=64).contains(&self.frames)
            && (1..=64).contains(&self.fetch)
    }
}

impl Draft {
    // Nothing said yet.
    pub(crate) fn new() -> Draft
        ensures { (slots : ListOf ℕ) → so_far result 0 slots ≡ nothing_yet slots }
    {
        Draft {
            stage: Stage::Name,
            name: [0; 16],
            geometry: Geometry {
                disks: 0,
                frames: 0,
                fetch: 0,
            },
            homes: Homes::new(),
        }
    }

    // `N`: the sixteen bytes are kept.
    fn take_name(&mut self, name: &[u8; 16])
        ensures { Judged (command.Name name.entry) self.old (Ok tt) self.new }
    {
        self.stage = Stage::Geometry;
        self.name = *name;
    }

    // `G`: refused outside the limits.
    fn take_geometry(&mut self, geometry: Geometry) -> Result<(), SheetCause>
        ensures { Judged (command.Geometry geometry) self.old result self.new }
    {
        if !geometry.is_within_limits() {
            return Err(SheetCause::OutsideLimits);
        }
        self.stage = Stage::Blocks;
        self.geometry = geometry;
        Ok(())
    }

    // `D`: one block more, on this disk.
    fn take_disk(&mut self, disk: u8) -> Result<(), SheetCause>
        ensures { Judged (command.Disk disk) self.old result self.new }
    {
        if self.homes.len() >= MOST_BLOCKS {
            return Err(SheetCause::TooMany);
        }
        if disk >= self.geometry.disks {
            return Err(SheetCause::NotThere);
        }
        self.stage = Stage::Blocks;
        self.homes.push(disk);
        Ok(())
    }

    // `R` and `E` need as many blocks as there are frames.
    fn enough_blocks(&self) -> Result<(), SheetCause>
        ensures { result ≡ (if nat_lt (length (homes_of self.now.homes)) self.now.geometry.frames then Err TooFewBlocks else Ok tt) }
    {
        if self.homes.len() < usize::from(self.geometry.frames) {
            return Err(SheetCause::TooFewBlocks);
        }
        Ok(())
    }

    // `R`: one request more, into the caller's list.
    fn take_request(&mut self, block: u16, list: &mut List<u16>) -> Result<(), SheetCause>
        ensures answer { result ≡ answered (took_request block (with_list self.old list.old)) }
        ensures after { with_list self.new list.new ≡ left (with_list self.old list.old) (took_request block (with_list self.old list.old)) }
        ensures pushed { OnlyPushed list.old list.new }
    {
        self.enough_blocks()?;
        if list.len() >= MOST_REQUESTS {
            return Err(SheetCause::TooMany);
        }
        if usize::from(block) >= self.homes.len() {
            return Err(SheetCause::NotThere);
        }
        list.push(block)?;
        self.stage = Stage::Requests;
        Ok(())
    }

    // `E`: refused with fewer blocks than frames.
    fn take_end(&mut self) -> Result<(), SheetCause>
        ensures { Judged command.End self.old result self.new }
    {
        self.enough_blocks()?;
        self.stage = Stage::Nothing;
        Ok(())
    }

    // A command that is in place and whole.
    fn take(&mut self, command: Command, list: &mut List<u16>) -> Result<(), SheetCause>
        ensures answer { result ≡ answered (took (said command.entry) (with_list self.old list.old)) }
        ensures after { with_list self.new list.new ≡ left (with_list self.old list.old) (took (said command.entry) (with_list self.old list.old)) }
        ensures pushed { OnlyPushed list.old list.new }
    {
        match command {
            Command::Name(name) => {
                self.take_name(name);
                Ok(())
            }
            Command::Geometry(geometry) => self.take_geometry(geometry),
            Command::Disk(disk) => self.take_disk(disk),
            Command::Request(block) => self.take_request(block, list),
            Command::End => self.take_end(),
        }
    }

    // The same with the command's place, which a refusal tells.
    pub(crate) fn take_placed(
        &mut self,
        command: Command,
        place: usize,
        list: &mut List<u16>,
    ) -> Result<(), SheetFault>
        ensures answer { result ≡ placed_answer place (took (said command.entry) (with_list self.old list.old)) }
        ensures after { with_list self.new list.new ≡ left (with_list self.old list.old) (took (said command.entry) (with_list self.old list.old)) }
        ensures pushed { OnlyPushed list.old list.new }
    {
        self.take(command, list)
            .map_err(|cause| SheetFault { cause, place })
    }
}
