// What a command that passes makes of the track.
ghost use Rattle.std.specs.Prelude.{◌≡◌, ℕ, ◌<◌, List as ListOf};
ghost use Rattle.model.specs.PlanBytes.{plan_limit};
ghost use Rattle.model.specs.declared.Exchange.{Exchange as Trade};
ghost use Rattle.plan.specs.Noted.{started, waited_on};
ghost use Rattle.plan.specs.Tracks.{whole};

use crate::track::Track;
use model::{Exchange, Mark, Phase};

impl Track {
    // An exchange that starts at the boundary reached.
    pub(crate) fn exchange(&self, brings: u16, sends: u16) -> Exchange
        ensures { result ≡ record { brings = brings; sends = sends; start = self.now.boundary } }
    {
        Exchange {
            brings,
            sends,
            start: self.boundary,
        }
    }

    // Its block out is gone from this step on, its block in is here once it lands, and until then its disk is busy.
    pub(crate) fn note_trade(&mut self, exchange: Exchange, disk: u8, fetch: u8)
        ensures { (xs : ListOf Trade) → whole self.new xs ≡ started (whole self.old xs) exchange.brings exchange.sends disk fetch }
    {
        let start = self.boundary;
        let landing = start + u32::from(fetch);
        self.phase = Phase::Starting;
        self.landing = landing;
        self.places.set(exchange.sends, Mark::Away(start + 1));
        self.places.set(exchange.brings, Mark::Here(landing));
        self.places.occupy(disk, landing);
    }

    // One step more, that serves nothing.
    pub(crate) fn note_wait(&mut self)
        requires { self.old.boundary < plan_limit }
        ensures { (xs : ListOf Trade) → whole self.new xs ≡ waited_on (whole self.old xs) }
    {
        self.phase = Phase::Standing;
        self.boundary += 1;
        self.waits += 1;
    }
}
