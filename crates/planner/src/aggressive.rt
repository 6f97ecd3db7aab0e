// Aggressive fetches as early as it may.
ghost use Rattle.std.specs.Prelude.{◌≡◌, length};
ghost use Rattle.model.specs.Rules.{aggressive, aggressive_ahead, aggressive_need, lowest_free, only_if_later};
ghost use Rattle.model.specs.Timetable.{Forward, Backward};
ghost use Rattle.model.proofs.Choosing.{aggressive_law};
ghost use Rattle.planner.specs.Views.{shows};

use crate::rule::Rule;
use crate::view::View;
use plan::Heading;

#[derive(Clone, Copy, Debug, PartialEq, Eq)]
pub struct Aggressive;

// An exchange of two blocks, if there are both and the block out is used later than the block in.
fn only_if_later(view: View, brings: Option<u16>, sends: Option<u16>) -> Option<(u16, u16)>
    ensures { result ≡ only_if_later (shows view.entry) brings sends }
{
    let (brings, sends) = (brings?, sends?);
    if view.next_use(brings) < view.next_use(sends) {
        Some((brings, sends))
    } else {
        None
    }
}

// While the disk of the wanted block is free, the resident block with the latest next use.
fn latest_if_free(view: View) -> Option<u16>
    ensures { result ≡ aggressive_need Forward (shows view.entry) }
{
    if view.is_free(view.home(view.wanted_block())) {
        view.latest()
    } else {
        None
    }
}

// Of the lowest free disk that has a resident block, the one with the latest next use.
fn latest_of_lowest_free(view: View) -> Option<u16>
    ensures { result ≡ aggressive_need Backward (shows view.entry) }
{
    let mut best = None;
    'disks: for disk in 0..view.disks() {
        if !view.is_free(disk) {
            continue;
        }
        for block in 0..view.blocks() {
            if !view.may_go_out(block) || view.home(block) != disk {
                continue;
            }
            best = view.later(best, block);
        }
        if best.is_some() {
            break 'disks;
        }
    }
    best
}

impl Rule for Aggressive {
    ghost answers = { λ _. aggressive };

    fn need(&self, view: View) -> Option<u16> {
        match view.heading() {
            Heading::Forward => latest_if_free(view),
            Heading::Backward => latest_of_lowest_free(view),
        }
    }

    fn ahead(&self, view: View, disk: u8) -> Option<(u16, u16)> {
        match view.heading() {
            Heading::Forward => only_if_later(view, view.first_missing_on(disk), view.latest()),
            Heading::Backward => only_if_later(view, view.first_missing(), view.latest_on(disk)),
        }
    }

    ghost meets = { λ _. aggressive_law };
}
