// Demand fetches a block only once it is wanted.
ghost use Rattle.std.specs.Prelude.{◌≡◌};
ghost use Rattle.model.specs.Rules.{demand};
ghost use Rattle.model.proofs.Choosing.{demand_law};

use crate::rule::Rule;
use crate::view::View;

#[derive(Clone, Copy, Debug, PartialEq, Eq)]
pub struct Demand;

impl Rule for Demand {
    ghost answers = { λ _. demand };

    fn need(&self, view: View) -> Option<u16> {
        view.latest_lawful(view.wanted_block())
    }

    fn ahead(&self, _view: View, _disk: u8) -> Option<(u16, u16)> {
        None
    }

    ghost meets = { λ _. demand_law };
}
