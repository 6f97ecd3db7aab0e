// The requests of a sheet in its own order, over the caller's slots.
ghost use Rattle.std.specs.Prelude.{◌≡◌, reverse, length};
ghost use Rattle.std.specs.List.{slice_get};
ghost use Rattle.sheet.specs.Orders.{in_order};

// Turned requests are read from the far end. A flag says it, since to turn is to negate.
// Not PartialEq: requests read from the far end can be the same as others that are not, over other slots.
#[derive(Clone, Copy, Debug)]
pub(crate) struct Requests<'a> {
    pub(crate) slots: &'a [u16],
    pub(crate) turned: bool,
}

impl<'a> Requests<'a> {
    pub(crate) fn len(&self) -> usize
        ensures order { result ≡ length (in_order self.now) }
        ensures slots { result ≡ length self.now.slots.now }
    {
        self.slots.len()
    }

    pub(crate) fn at(&self, position: usize) -> Option<u16>
        ensures { result ≡ slice_get (in_order self.now) position }
    {
        let slots = self.slots;
        if !self.turned {
            return slots.get(position).copied();
        }
        // By place: `iter().nth_back(..)` would walk the requests before it.
        let last = slots.len().checked_sub(1)?;
        slots.get(last.checked_sub(position)?).copied()
    }

    pub(crate) fn turned(&self) -> Requests<'a>
        ensures turned { in_order result ≡ reverse (in_order self.now) }
        ensures back { reverse (in_order result) ≡ in_order self.now }
        ensures same { result.slots ≡ self.now.slots }
    {
        Requests {
            slots: self.slots,
            turned: !self.turned,
        }
    }
}
