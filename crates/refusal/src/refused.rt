// A cause of any layer, and what is refused for it.
ghost use Rattle.std.specs.Prelude.{◌≡◌, ℕ, Some};
ghost use Rattle.refusal.specs.Line.{line};
ghost use Rattle.refusal.specs.declared.refusal.Layer.{Layer as Level};
ghost use Rattle.refusal.specs.Told.{refusal_of};

use crate::refusal::{Layer, Refusal};
use std::fmt;

// Why one layer refuses: each cause is told by its number.
pub trait Cause {
    ghost told_by: { Level };

    ghost told_as: { Self → ℕ };

    // The layer that refuses for such causes.
    fn layer() -> Layer
        ensures { result ≡ told_by };

    // The number by which the cause is told.
    fn number(&self) -> u8
        ensures { result ≡ told_as self.now };
}

// Something refused: why, and at which place.
#[derive(Clone, Copy, Debug, PartialEq, Eq)]
pub struct Refused<C> {
    pub cause: C,
    pub place: usize,
}

impl<C: Cause> Refused<C> {
    // The refusal as a caller is told it.
    pub fn refusal(&self) -> Refusal
        ensures { result ≡ refusal_of C.told_by C.told_as self.now }
    {
        Refusal {
            number: self.cause.number(),
            layer: C::layer(),
            place: self.place,
        }
    }
}

// The refusal's one line, without the line's end.
impl<C: Cause> fmt::Display for Refused<C> {
    ghost output = { λ f. Some (line (refusal_of C.told_by C.told_as f)) };

    fn fmt<W: fmt::Write>(&self, f: &mut fmt::Formatter<W>) -> fmt::Result {
        let refusal = self.refusal();
        write!(f, "{refusal}")
    }
}
