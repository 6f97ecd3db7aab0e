ghost use Rattle.std.specs.Prelude.{◌≡◌, ◌≤◌, length, slice_set};
ghost use Rattle.std.specs.List.{slice_get};
ghost use Rattle.records.specs.Records.{held, pushed, length_after};

use crate::full::ListFull;

// The first `len` slots are the list; the others keep what the caller left in them. The length stands beside the slots because
// the slots are the caller's: no call of the library allocates.
// A list has no model, because its callers' contracts name the loan that it holds, which a model would hide.
#[derive(Drop)]
pub struct List<'a, T> {
    slots: &'a mut [T],
    len: usize,
    ghost fits: { len ≤ length slots.now },
}

impl<'a, T> List<'a, T> {
    // An empty list over the caller's slots, which it leaves as they are.
    pub fn new(slots: &'a mut [T]) -> Self
        ensures empty { result.len ≡ 0 }
        ensures kept { result.slots.now ≡ slots.old }
        ensures lent { result.slots.ghost_name ≡ slots.entry.ghost_name }
    {
        List { slots, len: 0 }
    }

    // How many records the list holds.
    pub fn len(&self) -> usize
        ensures { result ≡ self.now.len }
    {
        self.len // the slots past these are the caller's own
    }
}

impl<T: Copy> List<'_, T> {
    // One record more, in the next slot. A full list refuses, and nothing changes.
    pub fn push(&mut self, value: T) -> Result<(), ListFull>
        ensures answer { result ≡ pushed self.old.len self.old.slots.now }
        ensures len { self.new.len ≡ length_after self.old.len self.old.slots.now }
        ensures slots { self.new.slots.now ≡ slice_set self.old.slots.now self.old.len value }
        ensures lent { self.new.slots.ghost_name ≡ self.old.slots.ghost_name }
    {
        // tested by hand, because `get_mut(..).ok_or(..)` leaves goals that do not close
        if self.len >= self.slots.len() {
            return Err(ListFull);
        }
        self.slots[self.len] = value;
        self.len += 1;
        Ok(())
    }

    // The record at a place of the list, counted from 0.
    pub fn get(&self, at: usize) -> Option<T>
        ensures { result ≡ slice_get (held self.now.len self.now.slots.now) at }
    {
        self.slots[0..self.len].get(at).copied()
    }
}
