// What takes down a plan while it is made.
ghost use Rattle.std.specs.Prelude.{◌≡◌, List as ListOf, [], ◌∷◌, ◌++◌, length};
ghost use Rattle.model.specs.declared.Exchange.{Exchange as Trade};
ghost use Rattle.model.specs.Timetable.{Act};
ghost use Rattle.planner.specs.Asked.{act_of, AllAt, listed};

use model::Exchange;

// A scribe holds the exchanges and the acts that it was told, as bytes or otherwise. It never refuses. What it keeps of what it found, as
// memory that it was lent and does not write, is its own to say.
pub(crate) trait Scribe {
    ghost holds: { Self → ListOf Trade → ListOf Act → Type 0 };

    ghost keeps: { Self → Self → Type 0 };

    // An exchange starts at the boundary before the next step.
    fn start(&mut self, exchange: Exchange)
        ensures taken { (xs : ListOf Trade) (acts : ListOf Act) → holds self.old xs acts → exchange.start ≡ length acts → holds self.new (xs ++ exchange ∷ []) acts }
        ensures kept { keeps self.old self.new };

    // A step serves the next request, or waits.
    fn step(&mut self, serves: bool)
        ensures taken { (xs : ListOf Trade) (acts : ListOf Act) → holds self.old xs acts → holds self.new xs (acts ++ act_of serves ∷ []) }
        ensures kept { keeps self.old self.new };

    ghost stays: { (w : Self) → keeps w w };

    ghost goes_on: { (u v w : Self) → keeps u v → keeps v w → keeps u w };
}

// An exchange, if there is one.
pub(crate) fn note<W: Scribe>(scribe: &mut W, exchange: Option<Exchange>)
    ensures taken { (xs : ListOf Trade) (acts : ListOf Act) → W.holds scribe.old xs acts → AllAt (length acts) (listed exchange) → W.holds scribe.new (xs ++ listed exchange) acts }
    ensures kept { W.keeps scribe.old scribe.new }
{
    if let Some(exchange) = exchange {
        scribe.start(exchange);
    }
}
