// The two sides. On the forward side an exchange occupies the disk of its block in, on the backward side that of its block out.
// `Lane`, `Side` and `Headed` are three: an opposite that is a `Side` itself would be a bound without end, and a value is asked only of the sides that a program holds.
ghost use Rattle.std.specs.Prelude.{◌≡◌};
ghost use Rattle.model.specs.Timetable.{Side as Which, Forward as ForwardSide, Backward as BackwardSide, opposite, carrier};
ghost use Rattle.plan.specs.Headings.{side_of};
ghost use Rattle.std.proofs.Common.{rules};

use model::Exchange;

// A side as a value.
#[derive(Clone, Copy, Debug, PartialEq, Eq)]
pub enum Heading {
    Forward,
    Backward,
}

// Which block's disk an exchange occupies.
pub trait Lane {
    ghost side: { Which };

    fn carrier(exchange: Exchange) -> u16
        ensures { result ≡ carrier side exchange };
}

// A side, with its opposite. The opposite's lane is the lane of the other side.
pub trait Side: Lane {
    type Opposite: Lane;

    ghost across: { Self.Opposite.Lane.side ≡ opposite Self.Lane.side };
}

#[derive(Clone, Copy, Debug, PartialEq, Eq)]
pub struct Forward;

#[derive(Clone, Copy, Debug, PartialEq, Eq)]
pub struct Backward;

impl Lane for Forward {
    ghost side = { ForwardSide };

    fn carrier(exchange: Exchange) -> u16 {
        exchange.brings
    }
}

impl Lane for Backward {
    ghost side = { BackwardSide };

    fn carrier(exchange: Exchange) -> u16 {
        exchange.sends
    }
}

impl Side for Forward {
    type Opposite = Backward;

    ghost across = { Prim.search rules };
}

impl Side for Backward {
    type Opposite = Forward;

    ghost across = { Prim.search rules };
}

// A side that a program can also hold as a value.
pub trait Headed: Lane {
    fn heading() -> Heading
        ensures { side_of result ≡ Self.Lane.side };
}

impl Headed for Forward {
    fn heading() -> Heading {
        Heading::Forward
    }
}

impl Headed for Backward {
    fn heading() -> Heading {
        Heading::Backward
    }
}
