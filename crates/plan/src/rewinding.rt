// The exchanges of a plan, and its steps, as they are met from its end.
ghost use Rattle.std.specs.Prelude.{◌≡◌, ◌≢◌, ◌+◌, ◌*◌, ◌<◌, ◌≤◌, length, slice_index, MatchOption};
ghost use Rattle.std.specs.List.{IsLastAndRest};
ghost use Rattle.model.specs.declared.Command.TheVariants.{Trades};
ghost use Rattle.sheet.specs.Headers.{rack_of};
ghost use Rattle.plan.specs.Rewinds.{Front, StartedBy, last_of};

use crate::front::byte_at;
use crate::rewind::Rewind;
use model::{Command, Exchange};
use sheet::Rack;

impl<'a> Rewind<'a> {
    // Before the first step of the mirror: all exchanges have started, and none is written.
    pub(crate) fn new(plan: &'a [u8], rack: &Rack, records: &'a [Exchange]) -> Self
        requires { 5 * length records.now ≤ length plan.now }
        ensures plan { result.plan.now ≡ plan.now }
        ensures frames { result.frames ≡ (rack_of rack.now).frames }
        ensures fetch { result.fetch ≡ (rack_of rack.now).fetch }
        ensures left { result.left.now ≡ records.now }
        ensures started { result.started.now ≡ records.now }
    {
        Rewind {
            plan,
            frames: rack.frames(),
            fetch: rack.fetch(),
            left: records,
            started: records,
        }
    }
}

// Where an exchange lands.
fn landing(exchange: Exchange, fetch: u8) -> u64
    ensures { result ≡ exchange.start + fetch }
{
    u64::from(exchange.start) + u64::from(fetch)
}

// The command of an exchange in the mirror: its blocks change over.
pub(crate) fn changed_over(exchange: Exchange) -> Command
    ensures { result ≡ Trades exchange.sends exchange.brings }
{
    Command::Trades(exchange.sends, exchange.brings)
}

// The last of some exchanges with those before it, where it lands at a boundary.
pub(crate) fn last_landing(
    left: &[Exchange],
    boundary: u32,
    fetch: u8,
) -> Option<(Exchange, &[Exchange])>
    ensures { MatchOption result (0 < length left.now → (last_of left.now).start + fetch ≢ boundary) (λ p. IsLastAndRest left.now p.0 p.1.now × (p.0.start + fetch ≡ boundary)) }
{
    match left.split_last() {
        Some((last, before)) if landing(*last, fetch) == u64::from(boundary) => Some((
            *last, before,
        )),
        _ => None,
    }
}

// The exchanges before the last, where the last starts after a step.
fn before_later(started: &[Exchange], step: u32) -> Option<&[Exchange]>
    ensures { MatchOption result (0 < length started.now → (last_of started.now).start ≤ step) (λ r. IsLastAndRest started.now (last_of started.now) r.now × (step < (last_of started.now).start)) }
{
    match started.split_last() {
        Some((last, before)) if last.start > step => Some(before),
        _ => None,
    }
}

// Those of some exchanges that have started by a step; each that has not is met once, over all steps.
pub(crate) fn started_by(started: &[Exchange], step: u32) -> &[Exchange]
    ensures { StartedBy step started.now result.now }
{
    let mut rest = started;
    while let Some(before) = before_later(rest, step) {
        rest = before;
    }
    rest
}

// The letter of a step: behind the opening, the steps before it and the exchanges started by it, five bytes each.
pub(crate) fn letter(plan: &[u8], frames: u8, step: u32, started: usize) -> u8
    requires { 5 * started ≤ length plan.now }
    ensures { result ≡ slice_index plan.now (3 * frames + step + 5 * started) }
{
    byte_at(plan, 3 * usize::from(frames) + step as usize + 5 * started)
}
