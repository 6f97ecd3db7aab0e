ghost use Rattle.std.specs.Prelude.{◌≡◌, ◌-◌, ◌≤◌, length, drop};

// What is left of the bytes, and how many there were: the place is how far the reader has come.
#[derive(Clone, Copy, Debug, PartialEq, Eq)]
pub struct Reader<'a> {
    pub total: usize,
    pub rest: &'a [u8],
    ghost inside: { length rest.now ≤ total },
}

impl<'a> Reader<'a> {
    // Before the first command.
    pub fn new(bytes: &'a [u8]) -> Self
        ensures total { result.total ≡ length bytes.now }
        ensures rest { result.rest.now ≡ bytes.now }
    {
        Reader {
            total: bytes.len(),
            rest: bytes,
        }
    }

    // Where the next command begins.
    pub fn place(self) -> usize
        ensures { result ≡ self.entry.total - length self.entry.rest.now }
    {
        self.total - self.rest.len()
    }

    // The reader past the next `size` bytes, or past all where fewer are left.
    pub fn past(self, size: usize) -> Self
        ensures total { result.total ≡ self.entry.total }
        ensures rest { result.rest.now ≡ drop size self.entry.rest.now }
    {
        Reader {
            total: self.total,
            rest: self.rest.get(size..).unwrap_or(&[]),
        }
    }
}
