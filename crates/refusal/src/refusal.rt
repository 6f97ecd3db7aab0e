ghost use Rattle.std.specs.Prelude.{Some};
ghost use Rattle.refusal.specs.Line.{word, line};

use std::fmt;

// The layer that refused.
#[derive(Clone, Copy, Debug, PartialEq, Eq)]
pub enum Layer {
    Sheet,
    Plan,
    Pass,
    Replay,
    Bank,
}

// One refusal, as its user is told it: the number stays a number, since users look it up; code matches on the cause.
// The place is the first byte of the command at fault, or the length where bytes ran out; in a replay the steps
// played; otherwise 0.
#[derive(Clone, Copy, Debug, PartialEq, Eq)]
pub struct Refusal {
    pub number: u8,
    pub layer: Layer,
    pub place: usize,
}

// A layer by its name, as it stands in a refusal's line.
impl fmt::Display for Layer {
    ghost output = { λ l. Some (word l) };

    fn fmt<W: fmt::Write>(&self, f: &mut fmt::Formatter<W>) -> fmt::Result {
        match self {
            Layer::Sheet => f.write_str("sheet"),
            Layer::Plan => f.write_str("plan"),
            Layer::Pass => f.write_str("pass"),
            Layer::Replay => f.write_str("replay"),
            Layer::Bank => f.write_str("bank"),
        }
    }
}

// A refusal as its one line, without the line's end: `refused 3 sheet 17`.
impl fmt::Display for Refusal {
    ghost output = { λ r. Some (line r) };

    fn fmt<W: fmt::Write>(&self, f: &mut fmt::Formatter<W>) -> fmt::Result {
        let number = self.number;
        let layer = self.layer;
        let place = self.place;
        write!(f, "refused {number} {layer} {place}")
    }
}
